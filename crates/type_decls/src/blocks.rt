//! The rules of functions and processes.

ghost use Rattle.std.specs.Prelude.{◌≡◌, ◌++◌, ◌||◌, List, None, IfOk, flat_map, map, not, option_map};
ghost use Rattle.std.specs.List.{list_any};
ghost use Rattle.orca_syntax.specs.Shown.{block as block_shown, kind as kind_shown, parameter as parameter_shown, stmts, variables};
ghost use Rattle.link_rules.specs.Units.{Source};
ghost use Rattle.type_rules.specs.Rules.{asks as rule_asks};
ghost use Rattle.type_rules.specs.Constants.{View as RuleView};
ghost use Rattle.type_rules.specs.Scopes.{own_names as rule_own_names, view_of};
ghost use Rattle.type_rules.specs.Statements.{stmts_breaches};
ghost use Rattle.type_rules.specs.Declarations as rules;
ghost use Rattle.type_forms.specs.Finding.{FirstOf};
ghost use Rattle.type_forms.specs.Views.{IsView};
ghost use Rattle.type_decls.specs.Bodies.{variable_found};
ghost use Rattle.type_decls.specs.Contexts.{IsContext};

use crate::context::Context;
use crate::locals::{declare_parameters, declare_variables, result_breach};
use crate::names::{is_main, named_well};
use orca_base::NoMemory;
use orca_tree::{Block, Mode, Name, Parameter, TypePhrase};
use std::alloc::Global;
use std::collections::BTreeMap;
use type_forms::{View, asks, lesser, name_set};
use type_rules::{Breach, LocalRole, Owner};
use type_stmts::stmts_breach;
use type_tables::{own_names, result_type};

// The first breach of types and statements in a function or a process, where the names of its body are those of the view.
fn inside_breach<'p>(
    alloc: Global,
    context: Context<'_, 'p>,
    view: View<'_, 'p>,
    owner: Owner,
    objects: bool,
    parameters: &'p [Parameter],
    gives: &Option<TypePhrase>,
    body: &'p Block,
) -> Result<Option<Breach>, NoMemory>
    ensures { (us : List Source) → IsContext us context.entry → (w : RuleView) → IsView us view.entry w → IfOk result (λ o. FirstOf o
        (rules.parameters_breaches w (map parameter_shown parameters.now)
        ++ (rules.result_breaches w (option_map kind_shown gives.now)
        ++ (rules.variables_breaches (variable_found objects w) (map variables body.now.variables.items)
        ++ stmts_breaches (rules.block_scope us view.entry.home.now owner (variable_found objects w) w
        (map parameter_shown parameters.now) (option_map kind_shown gives.now) (block_shown body.now)) (stmts body.now.statements.items))))) }
{
    let forms = context.tables.forms;
    let mut locals = BTreeMap::new(alloc);
    let role = LocalRole::Variable;
    let groups = &body.variables;
    let own = declare_variables(alloc, forms, view, objects, role, groups, &mut locals)?;
    let given = declare_parameters(alloc, forms, view, parameters, &mut locals)?;
    let back = result_breach(alloc, forms, view, gives)?;
    let kind = result_type(alloc, forms, view, gives)?;
    let scope = context.body(view.home, &locals, owner, &kind);
    let code = stmts_breach(alloc, scope, &body.statements)?;
    Ok(lesser(given, lesser(back, lesser(own, code))))
}

// The first breach of a function or a process, whose variables may be objects or not.
fn block_breach<'p>(
    alloc: Global,
    context: Context<'_, 'p>,
    home: &str,
    owner: Owner,
    objects: bool,
    parameters: &'p [Parameter],
    gives: &Option<TypePhrase>,
    body: &'p Block,
) -> Result<Option<Breach>, NoMemory>
    ensures { (us : List Source) → IsContext us context.entry → (w : RuleView) →
        w ≡ view_of us home.now (rule_own_names (map parameter_shown parameters.now) (block_shown body.now)) →
        IfOk result (λ o. FirstOf o (rules.block_breaches us home.now owner (variable_found objects w) w
        (map parameter_shown parameters.now) (option_map kind_shown gives.now) (block_shown body.now))) }
{
    let names = own_names(alloc, parameters, body)?;
    let set = name_set(alloc, &names)?;
    let view = View { home, names: &set };
    let index = context.tables.forms.index;
    let named = named_well(alloc, index, home, context.none, &names)?;
    let inside = inside_breach(
        alloc, context, view, owner, objects, parameters, gives, body,
    )?;
    Ok(lesser(named, inside))
}

// Whether a parameter is `shared`, among these.
fn has_shared(parameters: &[Parameter]) -> bool
    ensures { result ≡ list_any (λ p. rules.is_shared p.mode) (map parameter_shown parameters.now) }
{
    'parameters: for parameter in parameters {
        if parameter.mode == Mode::Shared {
            return true;
        }
    }
    false
}

// What the body of a function with these parameters is of.
fn owner_of(parameters: &[Parameter]) -> Owner
    ensures { result ≡ rules.owner_of (map parameter_shown parameters.now)
        (list_any (λ p. rules.is_shared p.mode) (map parameter_shown parameters.now)) }
{
    if has_shared(parameters) {
        Owner::SharingFunction
    } else {
        Owner::Function
    }
}

/// The first breach of a function.
pub fn function_breach<'p>(
    alloc: Global,
    context: Context<'_, 'p>,
    home: &str,
    parameters: &'p [Parameter],
    gives: &Option<TypePhrase>,
    body: &'p Block,
) -> Result<Option<Breach>, NoMemory>
    ensures { (us : List Source) → IsContext us context.entry → IfOk result (λ o. FirstOf o (rules.function_breaches us home.now
        (map parameter_shown parameters.now) (option_map kind_shown gives.now) (block_shown body.now))) }
{
    let owner = owner_of(parameters);
    block_breach(alloc, context, home, owner, false, parameters, gives, body)
}

// Whether a parameter isn't for `out`.
fn is_not_out(mode: Mode) -> bool
    ensures { result ≡ rules.is_not_out mode }
{
    !matches!(mode, Mode::Out)
}

// The first parameter that is for `out`.
fn none_out(parameters: &[Parameter]) -> Option<Breach>
    ensures { FirstOf result (flat_map (λ p. rule_asks 16 p.name.at (rules.is_not_out p.mode)) (map parameter_shown parameters.now)) }
{
    let mut first = None;
    'parameters: for parameter in parameters {
        let own = asks(16, parameter.name.at, is_not_out(parameter.mode));
        first = lesser(first, own);
    }
    first
}

// Whether there are no parameters.
#[tactic(auto, using(crate::proofs::Rows::none_there))]
fn is_empty(parameters: &[Parameter]) -> bool
    ensures { result ≡ rules.is_empty (map parameter_shown parameters.now) }
{
    parameters.is_empty()
}

// Whether a process is another than `OrcaMain`, or has no parameters.
fn may_start(name: &Name, parameters: &[Parameter]) -> bool
    ensures { result ≡ (not (rules.is_main name.now) || rules.is_empty (map parameter_shown parameters.now)) }
{
    !is_main(name) || is_empty(parameters)
}

// The first breach of a process by its name and its parameters.
fn process_form(name: &Name, parameters: &[Parameter]) -> Option<Breach>
    ensures { FirstOf result (rules.process_form name.now (map parameter_shown parameters.now)) }
{
    lesser(
        asks(16, name.at, may_start(name, parameters)),
        none_out(parameters),
    )
}

/// The first breach of a process.
pub fn process_breach<'p>(
    alloc: Global,
    context: Context<'_, 'p>,
    home: &str,
    name: &Name,
    parameters: &'p [Parameter],
    body: &'p Block,
) -> Result<Option<Breach>, NoMemory>
    ensures { (us : List Source) → IsContext us context.entry → IfOk result (λ o. FirstOf o
        (rules.process_form name.now (map parameter_shown parameters.now)
        ++ rules.process_breaches us home.now (map parameter_shown parameters.now) (block_shown body.now))) }
{
    let owner = Owner::Process;
    let inside = block_breach(alloc, context, home, owner, true, parameters, &None, body)?;
    Ok(lesser(process_form(name, parameters), inside))
}
