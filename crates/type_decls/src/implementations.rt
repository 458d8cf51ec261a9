//! The rules of implementations.

ghost use Rattle.std.specs.Prelude.{◌≡◌, ◌++◌, List, None, false, IfOk, OnOk, flat_map, map, option_map};
ghost use Rattle.orca_syntax.specs.Shown.{operation as operation_shown, stmts, variables};
ghost use Rattle.orca_syntax.specs.Syntax.{Variables as VariablesRule};
ghost use Rattle.link_rules.specs.Units.{Source};
ghost use Rattle.type_rules.specs.Rules.{are_new};
ghost use Rattle.type_rules.specs.TypePhrases.{data_found};
ghost use Rattle.type_rules.specs.Scopes.{texts};
ghost use Rattle.type_rules.specs.Declarations as rules;
ghost use Rattle.type_forms.specs.Finding.{FirstOf};
ghost use Rattle.type_forms.specs.Forms.{AreTyped};
ghost use Rattle.type_forms.specs.Seen.{lent};
ghost use Rattle.type_decls.specs.Bodies.{AreLocals, AreNames};
ghost use Rattle.type_decls.specs.Contexts.{IsContext};
ghost use Rattle.type_decls.specs.Specifications.{heads_as};

use crate::context::Context;
use crate::fields::fields_of;
use crate::heads::{Specified, specification};
use crate::locals::Locals;
use crate::names::are_free;
use crate::operations::{heads_match, operations_breach};
use orca_base::NoMemory;
use orca_tree::{Name, Operation, Statement, Variables};
use std::alloc::Global;
use type_forms::{Forms, Names, asks, each_new, lesser};
use type_rules::{Breach, Owner};
use type_stmts::stmts_breach;
use type_tables::add_variables;

// Whether a specification stands in this module, if there is one.
fn is_specified_in(home: &str, specified: Option<Specified<'_>>) -> bool
    ensures { result ≡ rules.is_specified_in home.now (option_map heads_as specified.entry) }
{
    match specified {
        None => false,
        Some(own) => own.home == home,
    }
}

// The names of fields.
fn field_names(alloc: Global, groups: &[Variables]) -> Result<Vec<&Name>, NoMemory>
    ensures { IfOk result (λ v. lent v.items ≡ rules.field_names (map variables groups.now)) }
{
    let mut names = Vec::new(alloc);
    add_variables(&mut names, groups)?;
    Ok(names)
}

// The names of fields and of operations.
fn all_names<'p>(
    alloc: Global,
    groups: &'p [Variables],
    operations: &'p [Operation],
) -> Result<Vec<&'p Name>, NoMemory>
    ensures { IfOk result (λ v. lent v.items ≡
        rules.field_names (map variables groups.now) ++ map (λ o. o.head.name) (map operation_shown operations.now)) }
{
    let mut names = field_names(alloc, groups)?;
    'operations: for operation in operations {
        names.push(&operation.head.name)?;
    }
    Ok(names)
}

// The first field or operation that stands behind another of its name.
fn repeated_name(
    alloc: Global,
    groups: &[Variables],
    operations: &[Operation],
) -> Result<Option<Breach>, NoMemory>
    ensures { IfOk result (λ o. FirstOf o (are_new
        (rules.field_names (map variables groups.now) ++ map (λ o. o.head.name) (map operation_shown operations.now)))) }
{
    let names = all_names(alloc, groups, operations)?;
    Ok(each_new(alloc, 3, &names)?)
}

// The first operation whose head isn't the specification's at its place, where there is a specification.
fn heads_breach<'p>(
    alloc: Global,
    forms: Forms<'_, '_>,
    home: &str,
    fields: &Names<'p>,
    names: &mut Names<'p>,
    specified: Option<Specified<'_>>,
    operations: &'p [Operation],
) -> Result<Option<Breach>, NoMemory>
    ensures breaches { (us : List Source) → AreTyped us forms.entry → (fs : List VariablesRule) →
        AreNames fields.now (texts (rules.field_names fs)) → AreNames names.old (texts (rules.field_names fs)) →
        IfOk result (λ o. FirstOf o (rules.heads_of (option_map heads_as specified.entry) (map operation_shown operations.now)
        (rules.heads_match us home.now fs))) }
    ensures names { (fs : List VariablesRule) →
        AreNames fields.now (texts (rules.field_names fs)) → AreNames names.old (texts (rules.field_names fs)) →
        OnOk result (AreNames names.new (texts (rules.field_names fs))) }
{
    match specified {
        None => Ok(None),
        Some(own) => Ok(heads_match(alloc, forms, home, fields, names, own, operations)?),
    }
}

// The first breach of the statements that open an object, among its fields.
fn opening_breach<'p>(
    alloc: Global,
    context: Context<'_, 'p>,
    home: &str,
    locals: &Locals<'p>,
    opening: &'p Option<Vec<Statement>>,
) -> Result<Option<Breach>, NoMemory>
    ensures { (us : List Source) → IsContext us context.entry → (fs : List VariablesRule) →
        AreLocals locals.now (rules.field_locals us home.now fs) → IfOk result (λ o. FirstOf o
        (rules.opening_breaches (rules.implementation_scope us home.now (rules.field_locals us home.now fs) None false)
        (option_map (λ ss. stmts ss.items) opening.now))) }
{
    match opening {
        None => Ok(None),
        Some(statements) => {
            let gives = None;
            let scope = context.body(home, locals, Owner::Implementation, &gives);
            Ok(stmts_breach(alloc, scope, statements)?)
        }
    }
}

// The first breach of the bodies and heads of an implementation, and of the types of its fields.
fn inside_breach<'p>(
    alloc: Global,
    context: Context<'_, 'p>,
    home: &str,
    names: &[&'p Name],
    specified: Option<Specified<'_>>,
    groups: &'p [Variables],
    operations: &'p [Operation],
    opening: &'p Option<Vec<Statement>>,
) -> Result<Option<Breach>, NoMemory>
    ensures { (us : List Source) → IsContext us context.entry → lent names.now ≡ rules.field_names (map variables groups.now) →
        IfOk result (λ o. FirstOf o
        (rules.variables_breaches (data_found (rules.fields_view us home.now (map variables groups.now))) (map variables groups.now)
        ++ (rules.heads_of (option_map heads_as specified.entry) (map operation_shown operations.now)
        (rules.heads_match us home.now (map variables groups.now))
        ++ (flat_map (rules.operation_breaches us home.now (map variables groups.now)) (map operation_shown operations.now)
        ++ rules.opening_breaches (rules.implementation_scope us home.now (rules.field_locals us home.now (map variables groups.now)) None false)
        (option_map (λ ss. stmts ss.items) opening.now))))) }
{
    let forms = context.tables.forms;
    let (fields, types) = fields_of(alloc, forms, home, names, groups)?;
    let (mut seen, _) = fields_of(alloc, forms, home, names, groups)?;
    let all = &fields.names;
    let own = &mut seen.names;
    let heads = heads_breach(alloc, forms, home, all, own, specified, operations)?;
    let inside = operations_breach(alloc, context, home, &fields, &mut seen, operations)?;
    let opened = opening_breach(alloc, context, home, &fields.locals, opening)?;
    Ok(lesser(types, lesser(heads, lesser(inside, opened))))
}

/// The first breach of an implementation.
pub fn implementation_breach<'p>(
    alloc: Global,
    context: Context<'_, 'p>,
    home: &str,
    name: &Name,
    groups: &'p [Variables],
    operations: &'p [Operation],
    opening: &'p Option<Vec<Statement>>,
) -> Result<Option<Breach>, NoMemory>
    ensures { (us : List Source) → IsContext us context.entry → IfOk result (λ o. FirstOf o (rules.implementation_breaches us home.now
        name.now (map variables groups.now) (map operation_shown operations.now) (option_map (λ ss. stmts ss.items) opening.now))) }
{
    let index = context.tables.forms.index;
    let specified = specification(index, name.text.as_str());
    let known = asks(11, name.at, is_specified_in(home, specified));
    let again = repeated_name(alloc, groups, operations)?;
    let names = field_names(alloc, groups)?;
    let free = are_free(index, home, context.none, &names);
    let inside = inside_breach(
        alloc, context, home, &names, specified, groups, operations, opening,
    )?;
    Ok(lesser(known, lesser(again, lesser(free, inside))))
}
