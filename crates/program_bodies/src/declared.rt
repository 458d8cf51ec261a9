//! What is declared in bodies, as their names.

ghost use Rattle.std.specs.Prelude.{◌≡◌, ◌++◌, List, IfOk, OnOk, flat_map, map};
ghost use Rattle.orca_syntax.specs.Shown.{kind as kind_shown, parameter, typed_name, variables};
ghost use Rattle.link_rules.specs.Units.{Source};
ghost use Rattle.type_rules.specs.Constants.{View as RuleView};
ghost use Rattle.type_rules.specs.Scopes as scopes;
ghost use Rattle.type_forms.specs.Forms.{AreTyped};
ghost use Rattle.type_forms.specs.Views.{IsView};
ghost use Rattle.type_decls.specs.Bodies.{variable_found};
ghost use Rattle.program_bodies.specs.Bodies.{HasLocals};

use crate::bodies::{BodyNames, add_name, add_names};
use orca_base::NoMemory;
use orca_tree::{Mode, Parameter, TypePhrase, TypedName, Variables};
use std::alloc::Global;
use type_forms::{Forms, View, kind_found};
use type_rules::{DataType, LocalRole};
use type_tables::{parameter_found, type_of, value_type};

// The type of variables, where it is known: those of a process may be objects.
fn variable_type(
    alloc: Global,
    forms: Forms<'_, '_>,
    view: View<'_, '_>,
    objects: bool,
    kind: &TypePhrase,
) -> Result<Option<DataType>, NoMemory>
    ensures { (us : List Source) → AreTyped us forms.entry → (w : RuleView) → IsView us view.entry w →
        IfOk result (λ t. t ≡ scopes.type_of (variable_found objects w (kind_shown kind.now))) }
{
    if objects {
        let found = kind_found(alloc, forms, view, kind)?;
        Ok(type_of(found))
    } else {
        Ok(value_type(alloc, forms, view, kind)?)
    }
}

/// Puts variables or fields behind other names. Those of a process may be objects.
pub fn add_variables<'p>(
    alloc: Global,
    forms: Forms<'_, '_>,
    view: View<'_, '_>,
    objects: bool,
    role: LocalRole,
    groups: &'p [Variables],
    names: &mut BodyNames<'p>,
) -> Result<(), NoMemory>
    ensures { (us : List Source) → AreTyped us forms.entry → (w : RuleView) → IsView us view.entry w →
        OnOk result ((ls : List scopes.Local) → HasLocals names.old ls →
        HasLocals names.new (ls ++ flat_map (scopes.locals_of role (variable_found objects w)) (map variables groups.now))) }
{
    'groups: for group in groups {
        let kind = variable_type(alloc, forms, view, objects, &group.kind)?;
        add_names(alloc, names, &group.names, role, &kind)?;
    }
    Ok(())
}

// What a parameter is of the body.
fn role_of(mode: Mode) -> LocalRole
    ensures { result ≡ scopes.role_of mode }
{
    match mode {
        Mode::Value => LocalRole::ValueParameter,
        Mode::Out => LocalRole::OutParameter,
        Mode::Shared => LocalRole::SharedParameter,
    }
}

/// Puts the parameters of a function or a process behind other names.
pub fn add_parameters<'p>(
    alloc: Global,
    forms: Forms<'_, '_>,
    view: View<'_, '_>,
    parameters: &'p [Parameter],
    names: &mut BodyNames<'p>,
) -> Result<(), NoMemory>
    ensures { (us : List Source) → AreTyped us forms.entry → (w : RuleView) → IsView us view.entry w →
        OnOk result ((ls : List scopes.Local) → HasLocals names.old ls →
        HasLocals names.new (ls ++ map (scopes.parameter_local w) (map parameter parameters.now))) }
{
    'parameters: for own in parameters {
        let found = parameter_found(alloc, forms, view, own.mode, &own.kind)?;
        let kind = type_of(found);
        let role = role_of(own.mode);
        add_name(alloc, names, own.name.text.as_str(), role, kind)?;
    }
    Ok(())
}

/// Puts the parameters of an operation behind other names.
pub fn add_values<'p>(
    alloc: Global,
    forms: Forms<'_, '_>,
    view: View<'_, '_>,
    values: &'p [TypedName],
    names: &mut BodyNames<'p>,
) -> Result<(), NoMemory>
    ensures { (us : List Source) → AreTyped us forms.entry → (w : RuleView) → IsView us view.entry w →
        OnOk result ((ls : List scopes.Local) → HasLocals names.old ls →
        HasLocals names.new (ls ++ map (scopes.value_local w) (map typed_name values.now))) }
{
    'values: for own in values {
        let kind = value_type(alloc, forms, view, &own.kind)?;
        let role = LocalRole::ValueParameter;
        add_name(alloc, names, own.name.text.as_str(), role, kind)?;
    }
    Ok(())
}
