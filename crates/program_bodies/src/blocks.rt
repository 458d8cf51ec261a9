//! The code of functions and processes.

ghost use Rattle.std.specs.Prelude.{◌≡◌, ◌++◌, List, Option, IfOk, flat_map, map};
ghost use Rattle.std.specs.List.{list_any};
ghost use Rattle.orca_syntax.specs.Shown.{block as block_shown, parameter as parameter_shown};
ghost use Rattle.orca_syntax.specs.Syntax.{Kind};
ghost use Rattle.link_rules.specs.Units.{Source};
ghost use Rattle.type_rules.specs.Constants.{View as RuleView};
ghost use Rattle.type_rules.specs.TopLevel.{top_names};
ghost use Rattle.type_rules.specs.declared.names.LocalRole.TheVariants as roles;
ghost use Rattle.type_rules.specs.Scopes.{locals_of, own_names as rule_own_names, parameter_local, view_of};
ghost use Rattle.type_rules.specs.Declarations as rules;
ghost use Rattle.type_forms.specs.Forms.{AreTyped};
ghost use Rattle.type_forms.specs.Seen.{top};
ghost use Rattle.type_forms.specs.Views.{IsView};
ghost use Rattle.type_decls.specs.Bodies.{variable_found};
ghost use Rattle.meaning_rules.specs.Programs.{function_owner};
ghost use Rattle.program_bodies.specs.Blocks.{IsBlockCode, function_of, process_of};
ghost use Rattle.program_bodies.specs.Bodies.{HasLocals};
ghost use Rattle.program_bodies.specs.Matching.{Both, Match};

use crate::bodies::{Body, BodyNames};
use crate::declared::{add_parameters, add_variables};
use orca_base::NoMemory;
use orca_tree::{Block, Mode, Parameter, Statement};
use std::alloc::Global;
use type_forms::{Forms, Top, View, What, name_set};
use type_rules::{LocalRole, Owner};
use type_tables::own_names;

/// What a function or a process runs: its body, its statements, and whether it has a result.
#[derive(Drop)]
pub struct BlockCode<'p> {
    pub body: Body<'p>,
    pub statements: &'p [Statement],
    pub has_result: bool,
}

// The names of a function or a process: its parameters, and then its variables, which may be objects or not.
fn block_names<'p>(
    alloc: Global,
    forms: Forms<'_, '_>,
    view: View<'_, '_>,
    objects: bool,
    parameters: &'p [Parameter],
    body: &'p Block,
) -> Result<BodyNames<'p>, NoMemory>
    ensures { (us : List Source) → AreTyped us forms.entry → (w : RuleView) → IsView us view.entry w →
        IfOk result (λ v. HasLocals v (map (parameter_local w) (map parameter_shown parameters.now)
        ++ flat_map (locals_of roles.Variable (variable_found objects w)) (block_shown body.now).variables)) }
{
    let mut names = BodyNames::new(alloc);
    add_parameters(alloc, forms, view, parameters, &mut names)?;
    let role = LocalRole::Variable;
    let groups = &body.variables;
    add_variables(alloc, forms, view, objects, role, groups, &mut names)?;
    Ok(names)
}

// The code of a function or a process, whose variables may be objects or not.
fn block_code<'p>(
    alloc: Global,
    forms: Forms<'_, '_>,
    home: &'p str,
    owner: Owner,
    objects: bool,
    parameters: &'p [Parameter],
    has_result: bool,
    body: &'p Block,
) -> Result<BlockCode<'p>, NoMemory>
    ensures { (us : List Source) → AreTyped us forms.entry → (w : RuleView) →
        w ≡ view_of us home.now (rule_own_names (map parameter_shown parameters.now) (block_shown body.now)) → (gives : Option Kind) →
        IfOk result (λ c. IsBlockCode c (record {
          scope = rules.block_scope us home.now owner (variable_found objects w) w
              (map parameter_shown parameters.now) gives (block_shown body.now);
          statements = (block_shown body.now).statements;
          has_result = has_result;
        })) }
{
    let own = own_names(alloc, parameters, body)?;
    let set = name_set(alloc, &own)?;
    let view = View { home, names: &set };
    let names = block_names(alloc, forms, view, objects, parameters, body)?;
    Ok(BlockCode {
        body: Body { home, owner, names },
        statements: &body.statements,
        has_result,
    })
}

// Whether a parameter is `shared`, among these.
fn has_shared(parameters: &[Parameter]) -> bool
    ensures { result ≡ list_any (λ p. rules.is_shared p.mode) (map parameter_shown parameters.now) }
{
    'parameters: for parameter in parameters {
        if parameter.mode == Mode::Shared {
            return true;
        }
    }
    false
}

// What the body of a function with these parameters is of.
fn owner_of(parameters: &[Parameter]) -> Owner
    ensures { result ≡ function_owner (map parameter_shown parameters.now) }
{
    if has_shared(parameters) {
        Owner::SharingFunction
    } else {
        Owner::Function
    }
}

// The code of a function; none of what is no function.
fn function_code<'p>(
    alloc: Global,
    forms: Forms<'_, '_>,
    item: &Top<'p>,
) -> Result<Option<BlockCode<'p>>, NoMemory>
    ensures { (us : List Source) → AreTyped us forms.entry → IfOk result (λ o. Both IsBlockCode o (function_of us (top item.now))) }
{
    match item.what {
        What::Function {
            parameters,
            result,
            body,
        } => {
            let owner = owner_of(parameters);
            let has_result = result.is_some();
            let code = block_code(
                alloc, forms, item.by, owner, false, parameters, has_result, body,
            )?;
            Ok(Some(code))
        }
        _ => Ok(None),
    }
}

/// The code of the functions of a program, by their numbers at the top.
pub fn functions_of<'p>(
    alloc: Global,
    forms: Forms<'_, 'p>,
) -> Result<Vec<Option<BlockCode<'p>>>, NoMemory>
    ensures { (us : List Source) → AreTyped us forms.entry →
        IfOk result (λ v. Match (λ f t. Both IsBlockCode f (function_of us t)) v.items (top_names us)) }
{
    let mut all = Vec::new(alloc);
    let tops = forms.index.tops();
    'tops: for item in tops {
        let own = function_code(alloc, forms, item)?;
        all.push(own)?;
    }
    Ok(all)
}

// The code of a process; none of what is no process.
fn process_code<'p>(
    alloc: Global,
    forms: Forms<'_, '_>,
    item: &Top<'p>,
) -> Result<Option<BlockCode<'p>>, NoMemory>
    ensures { (us : List Source) → AreTyped us forms.entry → IfOk result (λ o. Both IsBlockCode o (process_of us (top item.now))) }
{
    match item.what {
        What::Process { parameters, body } => {
            let owner = Owner::Process;
            let code = block_code(alloc, forms, item.by, owner, true, parameters, false, body)?;
            Ok(Some(code))
        }
        _ => Ok(None),
    }
}

/// The code of these processes of a program, one by one.
pub fn processes_of<'p>(
    alloc: Global,
    forms: Forms<'_, '_>,
    processes: &[Top<'p>],
) -> Result<Vec<Option<BlockCode<'p>>>, NoMemory>
    ensures { (us : List Source) → AreTyped us forms.entry →
        IfOk result (λ v. Match (λ p t. Both IsBlockCode p (process_of us t)) v.items (map top processes.now)) }
{
    let mut all = Vec::new(alloc);
    'processes: for item in processes {
        let own = process_code(alloc, forms, item)?;
        all.push(own)?;
    }
    Ok(all)
}
