//! What is declared in bodies, with its types.

ghost use Rattle.std.specs.Prelude.{◌≡◌, ◌++◌, ℕ, List, Some, IfOk, OnOk, if◌then◌else◌, bytes_eq, map, flat_map, option_map};
ghost use Rattle.orca_syntax.specs.Shown.{kind as kind_shown, parameter, typed_name, variables};
ghost use Rattle.link_rules.specs.Units.{Source};
ghost use Rattle.type_rules.specs.Constants.{View as RuleView};
ghost use Rattle.type_rules.specs.Scopes as scopes;
ghost use Rattle.type_rules.specs.Declarations as rules;
ghost use Rattle.type_forms.specs.Finding.{Finds, FirstOf};
ghost use Rattle.type_forms.specs.Forms.{AreTyped};
ghost use Rattle.type_forms.specs.Views.{IsView};
ghost use Rattle.type_tables.specs.Entries.{entry};
ghost use Rattle.type_decls.specs.Bodies.{AreLocals, variable_found as rule_variable_found};

use orca_base::{Items, NoMemory};
use orca_tree::{Mode, Name, Parameter, TypePhrase, TypedName, Variables};
use std::alloc::Global;
use std::collections::BTreeMap;
use type_exprs::Local;
use type_forms::{Forms, Found, View, data_found, kind_found, lesser};
use type_rules::{Breach, DataType, LocalRole, Measured};
use type_tables::{parameter_found, type_of};

/// The names of a body, of which the first counts where two are the same.
pub type Locals<'p> = BTreeMap<&'p str, Local>;

/// Puts a name in front of others: where it is one of them, it hides that.
pub fn put<'p>(locals: &mut Locals<'p>, name: &'p str, local: Local) -> Result<(), NoMemory>
    ensures { OnOk result ((n : List ℕ) →
        entry locals.new n ≡ (if bytes_eq name.now n then Some local else entry locals.old n)) }
{
    locals.insert(name, local)?;
    Ok(())
}

/// The same type once more, where it is known.
pub fn copy_known(alloc: Global, kind: &Option<DataType>) -> Result<Option<DataType>, NoMemory>
    ensures { IfOk result (λ t. t ≡ kind.now) }
{
    match kind {
        None => Ok(None),
        Some(kind) => {
            let layers = Vec::from_slice(alloc, kind.layers.as_slice())?;
            Ok(Some(DataType {
                layers: Items::new(layers),
                base: kind.base,
            }))
        }
    }
}

// Declares names of one type, where that is known, in front of others.
fn declare<'p>(
    alloc: Global,
    locals: &mut Locals<'p>,
    names: &'p [Name],
    role: LocalRole,
    kind: &Option<DataType>,
) -> Result<(), NoMemory>
    ensures { OnOk result ((ls : List scopes.Local) → AreLocals locals.old ls →
        AreLocals locals.new (map (λ n. record { name = n.text; role = role; type = kind.now }) names.now ++ ls)) }
{
    let mut left = names.len();
    'names: while left > 0 {
        left -= 1;
        let name = &names[left];
        let kind = copy_known(alloc, kind)?;
        put(locals, name.text.as_str(), Local { role, kind })?;
    }
    Ok(())
}

// What variables are of: those of a process may be objects.
fn variable_found(
    alloc: Global,
    forms: Forms<'_, '_>,
    view: View<'_, '_>,
    objects: bool,
    kind: &TypePhrase,
) -> Result<Found<Measured>, NoMemory>
    ensures { (us : List Source) → AreTyped us forms.entry → (w : RuleView) → IsView us view.entry w →
        IfOk result (λ f. Finds f (rule_variable_found objects w (kind_shown kind.now))) }
{
    if objects {
        Ok(kind_found(alloc, forms, view, kind)?)
    } else {
        Ok(data_found(alloc, forms, view, kind)?)
    }
}

/// Declares variables or fields in front of others, and gives the first breach of their types. Those of a process may be objects.
pub fn declare_variables<'p>(
    alloc: Global,
    forms: Forms<'_, '_>,
    view: View<'_, '_>,
    objects: bool,
    role: LocalRole,
    groups: &'p [Variables],
    locals: &mut Locals<'p>,
) -> Result<Option<Breach>, NoMemory>
    ensures breaches { (us : List Source) → AreTyped us forms.entry → (w : RuleView) → IsView us view.entry w →
        IfOk result (λ o. FirstOf o (rules.variables_breaches (rule_variable_found objects w) (map variables groups.now))) }
    ensures locals { (us : List Source) → AreTyped us forms.entry → (w : RuleView) → IsView us view.entry w →
        OnOk result ((ls : List scopes.Local) → AreLocals locals.old ls →
        AreLocals locals.new (flat_map (scopes.locals_of role (rule_variable_found objects w)) (map variables groups.now) ++ ls)) }
{
    let mut first = None;
    let mut left = groups.len();
    'groups: while left > 0 {
        left -= 1;
        let group = &groups[left];
        let found = variable_found(alloc, forms, view, objects, &group.kind)?;
        first = lesser(found.first, first);
        let kind = type_of(found);
        declare(alloc, locals, &group.names, role, &kind)?;
    }
    Ok(first)
}

// What a parameter is of the body.
fn role_of(mode: Mode) -> LocalRole
    ensures { result ≡ scopes.role_of mode }
{
    match mode {
        Mode::Value => LocalRole::ValueParameter,
        Mode::Out => LocalRole::OutParameter,
        Mode::Shared => LocalRole::SharedParameter,
    }
}

/// Declares the parameters of a function or a process in front of others, and gives the first breach of their types.
pub fn declare_parameters<'p>(
    alloc: Global,
    forms: Forms<'_, '_>,
    view: View<'_, '_>,
    parameters: &'p [Parameter],
    locals: &mut Locals<'p>,
) -> Result<Option<Breach>, NoMemory>
    ensures breaches { (us : List Source) → AreTyped us forms.entry → (w : RuleView) → IsView us view.entry w →
        IfOk result (λ o. FirstOf o (rules.parameters_breaches w (map parameter parameters.now))) }
    ensures locals { (us : List Source) → AreTyped us forms.entry → (w : RuleView) → IsView us view.entry w →
        OnOk result ((ls : List scopes.Local) → AreLocals locals.old ls →
        AreLocals locals.new (map (scopes.parameter_local w) (map parameter parameters.now) ++ ls)) }
{
    let mut first = None;
    let mut left = parameters.len();
    'parameters: while left > 0 {
        left -= 1;
        let own = &parameters[left];
        let found = parameter_found(alloc, forms, view, own.mode, &own.kind)?;
        first = lesser(found.first, first);
        let kind = type_of(found);
        let role = role_of(own.mode);
        put(locals, own.name.text.as_str(), Local { role, kind })?;
    }
    Ok(first)
}

/// Declares the parameters of an operation in front of others, and gives the first breach of their types.
pub fn declare_values<'p>(
    alloc: Global,
    forms: Forms<'_, '_>,
    view: View<'_, '_>,
    values: &'p [TypedName],
    locals: &mut Locals<'p>,
) -> Result<Option<Breach>, NoMemory>
    ensures breaches { (us : List Source) → AreTyped us forms.entry → (w : RuleView) → IsView us view.entry w →
        IfOk result (λ o. FirstOf o (rules.values_breaches w (map typed_name values.now))) }
    ensures locals { (us : List Source) → AreTyped us forms.entry → (w : RuleView) → IsView us view.entry w →
        OnOk result ((ls : List scopes.Local) → AreLocals locals.old ls →
        AreLocals locals.new (map (scopes.value_local w) (map typed_name values.now) ++ ls)) }
{
    let mut first = None;
    let mut left = values.len();
    'values: while left > 0 {
        left -= 1;
        let own = &values[left];
        let found = data_found(alloc, forms, view, &own.kind)?;
        first = lesser(found.first, first);
        let kind = type_of(found);
        let role = LocalRole::ValueParameter;
        put(locals, own.name.text.as_str(), Local { role, kind })?;
    }
    Ok(first)
}

/// The first breach of the types of values.
pub fn values_breach(
    alloc: Global,
    forms: Forms<'_, '_>,
    view: View<'_, '_>,
    values: &[TypedName],
) -> Result<Option<Breach>, NoMemory>
    ensures { (us : List Source) → AreTyped us forms.entry → (w : RuleView) → IsView us view.entry w →
        IfOk result (λ o. FirstOf o (rules.values_breaches w (map typed_name values.now))) }
{
    let mut first = None;
    'values: for value in values {
        let found = data_found(alloc, forms, view, &value.kind)?;
        first = lesser(first, found.first);
    }
    Ok(first)
}

/// The first breach of the type of a result, where there is one.
pub fn result_breach(
    alloc: Global,
    forms: Forms<'_, '_>,
    view: View<'_, '_>,
    gives: &Option<TypePhrase>,
) -> Result<Option<Breach>, NoMemory>
    ensures { (us : List Source) → AreTyped us forms.entry → (w : RuleView) → IsView us view.entry w →
        IfOk result (λ o. FirstOf o (rules.result_breaches w (option_map kind_shown gives.now))) }
{
    match gives {
        None => Ok(None),
        Some(kind) => {
            let found = data_found(alloc, forms, view, kind)?;
            Ok(found.first)
        }
    }
}
