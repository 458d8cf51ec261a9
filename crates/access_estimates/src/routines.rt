//! The functions and processes of a program, with what they do with objects.

ghost use Rattle.std.specs.Prelude.{◌≡◌, [], List, IfOk, length, map};
ghost use Rattle.orca_syntax.specs.Shown.{block as block_shown, parameter as parameter_shown};
ghost use Rattle.link_rules.specs.Units.{Source};
ghost use Rattle.type_rules.specs.Constants.{View as RuleView};
ghost use Rattle.type_rules.specs.Scopes as scopes;
ghost use Rattle.type_rules.specs.Scopes.{own_names as rule_own_names, view_of};
ghost use Rattle.type_forms.specs.Forms.{AreTyped};
ghost use Rattle.type_forms.specs.Seen.{lent, top};
ghost use Rattle.type_forms.specs.Views.{IsView};
ghost use Rattle.type_decls.specs.Bodies.{AreLocals};
ghost use Rattle.program_bodies.specs.Matching.{Both};
ghost use Rattle.estimate_rules.specs.Routines.{routine_of};
ghost use Rattle.access_estimates.specs.Collected.{locals_in};
ghost use Rattle.access_estimates.specs.Resolved.{IsRoutine};
ghost use Rattle.access_estimates.specs.Lookups.{AreLookups};
ghost use Rattle.access_estimates.specs.Summaries.{AreRoutines};

use crate::locals::{Local, locals_by};
use crate::resolved::ResolvedUse;
use crate::resolving::{Lookups, resolved_in};
use crate::statements::uses_of;
use orca_base::NoMemory;
use orca_tree::{Block, Name, Parameter};
use std::alloc::Global;
use std::collections::BTreeMap;
use type_decls::{Locals, declare_parameters, declare_variables};
use type_forms::{Forms, Top, View, What, name_set};
use type_rules::LocalRole;
use type_tables::own_names;

/// A function or a process: how many parameters it has, its locals, these in front, and the uses of those that are objects.
#[derive(Drop)]
pub struct Routine<'p> {
    pub parameters: usize,
    pub names: Vec<Local<'p>>,
    pub resolved: Vec<ResolvedUse>,
}

// No names.
fn no_locals<'p>(alloc: Global) -> Locals<'p>
    ensures { AreLocals result [] }
{
    BTreeMap::new(alloc)
}

// The parameters and variables of a body with their types; the variables may be objects or not.
fn locals_of<'p>(
    alloc: Global,
    forms: Forms<'_, '_>,
    view: View<'_, '_>,
    objects: bool,
    parameters: &'p [Parameter],
    body: &'p Block,
) -> Result<Locals<'p>, NoMemory>
    ensures { (us : List Source) → AreTyped us forms.entry → (w : RuleView) → IsView us view.entry w →
        IfOk result (λ v. AreLocals v (locals_in objects w (map parameter_shown parameters.now) (block_shown body.now))) }
{
    let mut locals = no_locals(alloc);
    let role = LocalRole::Variable;
    let groups = &body.variables;
    declare_variables(alloc, forms, view, objects, role, groups, &mut locals)?;
    declare_parameters(alloc, forms, view, parameters, &mut locals)?;
    Ok(locals)
}

// A function or a process with these names.
fn named_routine<'p>(
    alloc: Global,
    lookups: Lookups<'_, '_>,
    home: &str,
    names: &[&'p Name],
    locals: &Locals<'p>,
    parameters: usize,
    body: &'p Block,
) -> Result<Routine<'p>, NoMemory>
    ensures { (us : List Source) → AreLookups us lookups.entry → (w : scopes.Scope) → w.program ≡ us → w.home ≡ home.now →
        AreLocals locals.now w.locals →
        IfOk result (λ r. IsRoutine us r (record { scope = w; parameters = parameters; names = lent names.now; statements = (block_shown body.now).statements })) }
{
    let own_locals = locals_by(alloc, names, locals)?;
    let uses = uses_of(alloc, &body.statements)?;
    let resolved = resolved_in(alloc, lookups, home, &own_locals, &uses)?;
    Ok(Routine {
        parameters,
        names: own_locals,
        resolved,
    })
}

// A function or a process, whose variables may be objects or not.
fn collected<'p>(
    alloc: Global,
    forms: Forms<'_, '_>,
    lookups: Lookups<'_, '_>,
    home: &str,
    objects: bool,
    parameters: &'p [Parameter],
    body: &'p Block,
) -> Result<Routine<'p>, NoMemory>
    ensures { (us : List Source) → AreTyped us forms.entry → AreLookups us lookups.entry →
        (w : scopes.Scope) → w.program ≡ us → w.home ≡ home.now →
        w.locals ≡ locals_in objects (view_of us home.now (rule_own_names (map parameter_shown parameters.now) (block_shown body.now)))
        (map parameter_shown parameters.now) (block_shown body.now) →
        IfOk result (λ r. IsRoutine us r (record {
          scope = w;
          parameters = length (map parameter_shown parameters.now);
          names = rule_own_names (map parameter_shown parameters.now) (block_shown body.now);
          statements = (block_shown body.now).statements;
        })) }
{
    let names = own_names(alloc, parameters, body)?;
    let set = name_set(alloc, &names)?;
    let view = View { home, names: &set };
    let locals = locals_of(alloc, forms, view, objects, parameters, body)?;
    Ok(named_routine(
        alloc,
        lookups,
        home,
        &names,
        &locals,
        parameters.len(),
        body,
    )?)
}

// What a name of the top level is as a function or a process.
fn item_routine<'p>(
    alloc: Global,
    forms: Forms<'_, '_>,
    lookups: Lookups<'_, '_>,
    item: &Top<'p>,
) -> Result<Option<Routine<'p>>, NoMemory>
    ensures { (us : List Source) → AreTyped us forms.entry → AreLookups us lookups.entry →
        IfOk result (λ o. Both (IsRoutine us) o (routine_of us (top item.now))) }
{
    match item.what {
        What::Function {
            parameters,
            body,
            ..
        } => {
            let routine = collected(alloc, forms, lookups, item.by, false, parameters, body)?;
            Ok(Some(routine))
        }
        What::Process { parameters, body } => {
            let routine = collected(alloc, forms, lookups, item.by, true, parameters, body)?;
            Ok(Some(routine))
        }
        _ => Ok(None),
    }
}

/// The functions and processes of a program, by their numbers at the top.
pub fn routines_of<'p>(
    alloc: Global,
    forms: Forms<'_, 'p>,
    lookups: Lookups<'_, '_>,
) -> Result<Vec<Option<Routine<'p>>>, NoMemory>
    ensures { (us : List Source) → AreTyped us forms.entry → AreLookups us lookups.entry → IfOk result (λ v. AreRoutines us v.items) }
{
    let mut all = Vec::new(alloc);
    let tops = forms.index.tops();
    'tops: for item in tops {
        let routine = item_routine(alloc, forms, lookups, item)?;
        all.push(routine)?;
    }
    Ok(all)
}
