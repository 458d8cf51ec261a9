//! The names of operations and of their objects' fields.

ghost use Rattle.std.specs.Prelude.{◌≡◌, ◌++◌, List, IfOk, OnOk, flat_map, map};
ghost use Rattle.orca_syntax.specs.Shown.{operation as operation_shown, variables};
ghost use Rattle.link_rules.specs.Units.{Source};
ghost use Rattle.type_rules.specs.declared.names.LocalRole.TheVariants as roles;
ghost use Rattle.type_rules.specs.Scopes as scopes;
ghost use Rattle.type_rules.specs.Scopes.{locals_of};
ghost use Rattle.type_rules.specs.TypePhrases.{data_found};
ghost use Rattle.type_rules.specs.Declarations as rules;
ghost use Rattle.type_forms.specs.Forms.{AreTyped};
ghost use Rattle.type_forms.specs.Seen.{lent};
ghost use Rattle.program_bodies.specs.Bodies.{HasLocals};

use crate::bodies::BodyNames;
use crate::declared::{add_values, add_variables};
use orca_base::NoMemory;
use orca_tree::{Name, Operation, Variables};
use std::alloc::Global;
use type_forms::{Forms, View, name_set};
use type_rules::{DataType, LocalRole};
use type_tables::{add_variables as add_variable_names, value_names};

// Puts the fields of an implementation behind other names.
fn add_fields<'p>(
    alloc: Global,
    forms: Forms<'_, '_>,
    home: &str,
    fields: &'p [Variables],
    names: &mut BodyNames<'p>,
) -> Result<(), NoMemory>
    ensures { (us : List Source) → AreTyped us forms.entry → OnOk result ((ls : List scopes.Local) → HasLocals names.old ls →
        HasLocals names.new (ls ++ rules.field_locals us home.now (map variables fields.now))) }
{
    let mut own = Vec::new(alloc);
    add_variable_names(&mut own, fields)?;
    let set = name_set(alloc, &own)?;
    let view = View { home, names: &set };
    let role = LocalRole::ObjectField;
    add_variables(alloc, forms, view, false, role, fields, names)
}

/// The names of an implementation's fields.
pub fn field_names<'p>(
    alloc: Global,
    forms: Forms<'_, '_>,
    home: &str,
    fields: &'p [Variables],
) -> Result<BodyNames<'p>, NoMemory>
    ensures { (us : List Source) → AreTyped us forms.entry →
        IfOk result (λ v. HasLocals v (rules.field_locals us home.now (map variables fields.now))) }
{
    let mut names = BodyNames::new(alloc);
    add_fields(alloc, forms, home, fields, &mut names)?;
    Ok(names)
}

// The names that the head of an operation sees: those of the operation, and of its object's fields.
fn seen_names<'p>(
    alloc: Global,
    fields: &'p [Variables],
    operation: &'p Operation,
) -> Result<Vec<&'p Name>, NoMemory>
    ensures { IfOk result (λ v. lent v.items ≡
        rules.operation_names (operation_shown operation.now) ++ rules.field_names (map variables fields.now)) }
{
    let mut names = value_names(alloc, &operation.head.parameters)?;
    add_variable_names(&mut names, &operation.variables)?;
    add_variable_names(&mut names, fields)?;
    Ok(names)
}

/// The names of an operation: its parameters, its variables, and the fields of its object.
pub fn operation_names<'p>(
    alloc: Global,
    forms: Forms<'_, '_>,
    home: &str,
    fields: &'p [Variables],
    operation: &'p Operation,
) -> Result<BodyNames<'p>, NoMemory>
    ensures { (us : List Source) → AreTyped us forms.entry → IfOk result (λ v. HasLocals v
        (rules.operation_locals us home.now (map variables fields.now) (operation_shown operation.now))) }
{
    let seen = seen_names(alloc, fields, operation)?;
    let set = name_set(alloc, &seen)?;
    let view = View { home, names: &set };
    let mut names = BodyNames::new(alloc);
    add_values(alloc, forms, view, &operation.head.parameters, &mut names)?;
    let role = LocalRole::Variable;
    let groups = &operation.variables;
    add_variables(alloc, forms, view, false, role, groups, &mut names)?;
    add_fields(alloc, forms, home, fields, &mut names)?;
    Ok(names)
}

/// The types of an operation's variables.
pub fn variable_types(
    alloc: Global,
    forms: Forms<'_, '_>,
    home: &str,
    fields: &[Variables],
    operation: &Operation,
) -> Result<Vec<Option<DataType>>, NoMemory>
    ensures { (us : List Source) → AreTyped us forms.entry → IfOk result (λ v. v.items ≡ map (λ l. l.type)
        (flat_map (locals_of roles.Variable
        (data_found (rules.operation_view us home.now (map variables fields.now) (operation_shown operation.now))))
        (operation_shown operation.now).variables)) }
{
    let seen = seen_names(alloc, fields, operation)?;
    let set = name_set(alloc, &seen)?;
    let view = View { home, names: &set };
    let mut own = BodyNames::new(alloc);
    let role = LocalRole::Variable;
    let groups = &operation.variables;
    add_variables(alloc, forms, view, false, role, groups, &mut own)?;
    Ok(own.types)
}
