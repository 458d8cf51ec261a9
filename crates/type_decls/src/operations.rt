//! The rules of operations.

ghost use Rattle.std.specs.Prelude.{◌≡◌, ◌++◌, List, IfOk, OnOk, flat_map, map, slice_get};
ghost use Rattle.orca_syntax.specs.Shown.{head as head_shown, operation as operation_shown};
ghost use Rattle.orca_syntax.specs.Syntax.{Variables as VariablesRule};
ghost use Rattle.link_rules.specs.Units.{Source};
ghost use Rattle.type_rules.specs.TypePhrases.{data_found};
ghost use Rattle.type_rules.specs.Scopes.{texts};
ghost use Rattle.type_rules.specs.Declarations as rules;
ghost use Rattle.type_forms.specs.Finding.{FirstOf};
ghost use Rattle.type_forms.specs.Forms.{AreTyped};
ghost use Rattle.type_forms.specs.Seen.{lent};
ghost use Rattle.type_decls.specs.Bodies.{AreLocals, AreNames};
ghost use Rattle.type_decls.specs.Contexts.{IsContext};
ghost use Rattle.type_decls.specs.Fields.{AreFields};

use crate::context::Context;
use crate::fields::{Fields, enter, leave, leave_locals};
use crate::heads::{Specified, head_at, is_head_of};
use crate::locals::{Locals, declare_values, declare_variables, result_breach};
use crate::names::named_well;
use orca_base::NoMemory;
use orca_tree::{Name, Operation};
use std::alloc::Global;
use type_forms::{Forms, Names, View, asks, lesser};
use type_rules::{Breach, LocalRole, Owner};
use type_stmts::body_breach;
use type_tables::{add_variables, result_type, value_names};

// The names of an operation: of its parameters and its variables.
fn operation_names(alloc: Global, operation: &Operation) -> Result<Vec<&Name>, NoMemory>
    ensures { IfOk result (λ v. lent v.items ≡ rules.operation_names (operation_shown operation.now)) }
{
    let mut names = value_names(alloc, &operation.head.parameters)?;
    add_variables(&mut names, &operation.variables)?;
    Ok(names)
}

// Whether the head of an operation is one of its specification's, among these names and those of its own. Behind it the names are as
// before.
fn head_matches<'p>(
    alloc: Global,
    forms: Forms<'_, '_>,
    home: &str,
    fields: &Names<'p>,
    names: &mut Names<'p>,
    specified: Specified<'_>,
    place: usize,
    operation: &'p Operation,
) -> Result<bool, NoMemory>
    ensures matched { (us : List Source) → AreTyped us forms.entry → (fs : List VariablesRule) →
        AreNames fields.now (texts (rules.field_names fs)) → AreNames names.old (texts (rules.field_names fs)) →
        IfOk result (λ b. b ≡ rules.is_head_of us (rules.operation_view us home.now fs (operation_shown operation.now))
        specified.entry.home.now (operation_shown operation.now).head (slice_get (map head_shown specified.entry.heads.now) place)) }
    ensures names { (fs : List VariablesRule) →
        AreNames fields.now (texts (rules.field_names fs)) → AreNames names.old (texts (rules.field_names fs)) →
        OnOk result (AreNames names.new (texts (rules.field_names fs))) }
{
    let own = operation_names(alloc, operation)?;
    enter(names, &own)?;
    let ours = View { home, names };
    let head = head_at(specified.heads, place);
    let matches = is_head_of(alloc, forms, ours, specified.home, &operation.head, head)?;
    leave(names, fields, &own);
    Ok(matches)
}

/// The first operation whose head isn't the specification's at its place.
pub fn heads_match<'p>(
    alloc: Global,
    forms: Forms<'_, '_>,
    home: &str,
    fields: &Names<'p>,
    names: &mut Names<'p>,
    specified: Specified<'_>,
    operations: &'p [Operation],
) -> Result<Option<Breach>, NoMemory>
    ensures breaches { (us : List Source) → AreTyped us forms.entry → (fs : List VariablesRule) →
        AreNames fields.now (texts (rules.field_names fs)) → AreNames names.old (texts (rules.field_names fs)) →
        IfOk result (λ o. FirstOf o (rules.heads_match us home.now fs
        specified.entry.home.now (map head_shown specified.entry.heads.now) (map operation_shown operations.now))) }
    ensures names { (fs : List VariablesRule) →
        AreNames fields.now (texts (rules.field_names fs)) → AreNames names.old (texts (rules.field_names fs)) →
        OnOk result (AreNames names.new (texts (rules.field_names fs))) }
{
    let mut first = None;
    let mut left = operations.len();
    'operations: while left > 0 {
        left -= 1;
        let own = &operations[left];
        let matches = head_matches(alloc, forms, home, fields, names, specified, left, own)?;
        first = lesser(asks(12, own.head.at, matches), first);
    }
    Ok(first)
}

// The first breach of types and statements in an operation, among these names in front of which its own are put.
fn inside_breach<'p>(
    alloc: Global,
    context: Context<'_, 'p>,
    home: &str,
    names: &Names<'p>,
    locals: &mut Locals<'p>,
    operation: &'p Operation,
) -> Result<Option<Breach>, NoMemory>
    ensures breaches { (us : List Source) → IsContext us context.entry → (fs : List VariablesRule) →
        AreNames names.now (texts (rules.operation_names (operation_shown operation.now) ++ rules.field_names fs)) →
        AreLocals locals.old (rules.field_locals us home.now fs) → IfOk result (λ o. FirstOf o
        (rules.values_breaches (rules.operation_view us home.now fs (operation_shown operation.now)) (operation_shown operation.now).head.parameters
        ++ (rules.result_breaches (rules.operation_view us home.now fs (operation_shown operation.now)) (operation_shown operation.now).head.result
        ++ (rules.variables_breaches (data_found (rules.operation_view us home.now fs (operation_shown operation.now))) (operation_shown operation.now).variables
        ++ rules.body_breaches (rules.implementation_scope us home.now (rules.operation_locals us home.now fs (operation_shown operation.now))
        (rules.result_of (rules.operation_view us home.now fs (operation_shown operation.now)) (operation_shown operation.now).head.result))
        (operation_shown operation.now).body)))) }
    ensures locals { (us : List Source) → IsContext us context.entry → (fs : List VariablesRule) →
        AreNames names.now (texts (rules.operation_names (operation_shown operation.now) ++ rules.field_names fs)) →
        AreLocals locals.old (rules.field_locals us home.now fs) →
        OnOk result (AreLocals locals.new (rules.operation_locals us home.now fs (operation_shown operation.now))) }
{
    let forms = context.tables.forms;
    let view = View { home, names };
    let role = LocalRole::Variable;
    let groups = &operation.variables;
    let own = declare_variables(alloc, forms, view, false, role, groups, locals)?;
    let given = declare_values(alloc, forms, view, &operation.head.parameters, locals)?;
    let back = result_breach(alloc, forms, view, &operation.head.result)?;
    let kind = result_type(alloc, forms, view, &operation.head.result)?;
    let scope = context.body(home, locals, Owner::Implementation, &kind);
    let code = body_breach(alloc, scope, &operation.body)?;
    Ok(lesser(given, lesser(back, lesser(own, code))))
}

// The first breach of an operation, among the names of these fields. Behind it the names are as before.
fn operation_breach<'p>(
    alloc: Global,
    context: Context<'_, 'p>,
    home: &str,
    fields: &Fields<'p>,
    seen: &mut Fields<'p>,
    operation: &'p Operation,
) -> Result<Option<Breach>, NoMemory>
    ensures breaches { (us : List Source) → IsContext us context.entry → (fs : List VariablesRule) →
        AreFields us home.now fs fields.now → AreFields us home.now fs seen.old →
        IfOk result (λ o. FirstOf o (rules.operation_breaches us home.now fs (operation_shown operation.now))) }
    ensures fields { (us : List Source) → IsContext us context.entry → (fs : List VariablesRule) →
        AreFields us home.now fs fields.now → AreFields us home.now fs seen.old → OnOk result (AreFields us home.now fs seen.new) }
{
    let own = operation_names(alloc, operation)?;
    let index = context.tables.forms.index;
    let named = named_well(alloc, index, home, &fields.names, &own)?;
    enter(&mut seen.names, &own)?;
    let inside = inside_breach(
        alloc,
        context,
        home,
        &seen.names,
        &mut seen.locals,
        operation,
    )?;
    leave(&mut seen.names, &fields.names, &own);
    leave_locals(alloc, &mut seen.locals, &fields.locals, &own)?;
    Ok(lesser(named, inside))
}

/// The first breach of operations, among the names of these fields.
pub fn operations_breach<'p>(
    alloc: Global,
    context: Context<'_, 'p>,
    home: &str,
    fields: &Fields<'p>,
    seen: &mut Fields<'p>,
    operations: &'p [Operation],
) -> Result<Option<Breach>, NoMemory>
    ensures { (us : List Source) → IsContext us context.entry → (fs : List VariablesRule) →
        AreFields us home.now fs fields.now → AreFields us home.now fs seen.old →
        IfOk result (λ o. FirstOf o (flat_map (rules.operation_breaches us home.now fs) (map operation_shown operations.now))) }
{
    let mut first = None;
    'operations: for operation in operations {
        let own = operation_breach(alloc, context, home, fields, seen, operation)?;
        first = lesser(first, own);
    }
    Ok(first)
}
