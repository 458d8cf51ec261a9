//! The types of expressions, and the first of their breaches.

ghost use Rattle.std.specs.Prelude.{◌++◌, Some, IfOk};
ghost use Rattle.orca_syntax.specs.Shown.{expr, exprs, links as links_shown, path as path_shown, step as step_shown};
ghost use Rattle.orca_syntax.specs.Places.{expr_place};
ghost use Rattle.orca_syntax.specs.Syntax.{Expr};
ghost use Rattle.type_rules.specs.Rules.{Found as RuleFound, found as rule_found};
ghost use Rattle.type_rules.specs.declared.types.DataType.{DataType as DataTypeRule};
ghost use Rattle.type_rules.specs.Types.{plain as rule_plain};
ghost use Rattle.type_rules.specs.Scopes as scopes;
ghost use Rattle.type_rules.specs.Expressions as rules;
ghost use Rattle.type_forms.specs.Finding.{Finds, FirstOf};
ghost use Rattle.type_exprs.specs.Scoped.{IsScope, at_place};
ghost use Rattle.type_exprs.specs.Wanted.{test};

use crate::calls::{
    Use, called, formals_of, function_found, invoked, operation_formals, operation_found,
};
use crate::designators::{field_step, gathering, index_step, step_found, taken, written_root};
use crate::kinds::{Wanted, plain};
use crate::lending::suits;
use crate::operators::{joined, operand};
use crate::places::place_of;
use crate::scope::Scope;
use crate::values::named_value;
use orca_base::{NoMemory, Place};
use orca_tree::{Designator, Expression, Link, Name, Selector};
use std::alloc::Global;
use type_forms::{Found, lesser};
use type_rules::{Base, Breach, DataType, Formal};

// The type of a token that has one.
fn known(alloc: Global, base: Base) -> Found<DataType>
    ensures { Finds result (rule_found (Some (rule_plain base))) }
{
    Found::new(Some(plain(alloc, base)))
}

/// The type of an expression, and the first of its breaches.
#[cycle(expressions)]
pub fn typed(
    alloc: Global,
    scope: Scope<'_, '_>,
    e: &Expression,
) -> Result<Found<DataType>, NoMemory>
    ensures { (w : scopes.Scope) → IsScope scope.entry w → IfOk result (λ f. Finds f (rules.typed w (expr e.now))) }
{
    match e {
        Expression::Chain { first, links } => {
            let left = typed(alloc, scope, first)?;
            chained(alloc, scope, place_of(first), left, links)
        }
        Expression::Number { .. } => Ok(known(alloc, Base::Integer)),
        Expression::Char { .. } => Ok(known(alloc, Base::Character)),
        Expression::Text { .. } => Ok(known(alloc, Base::String)),
        Expression::Truth { .. } => Ok(known(alloc, Base::Boolean)),
        Expression::Not { operand, .. } => {
            operand_found(alloc, scope, 35, Wanted::Boolean, operand, Base::Boolean)
        }
        Expression::Negative { operand, .. } => {
            operand_found(alloc, scope, 36, Wanted::Integer, operand, Base::Integer)
        }
        Expression::Parentheses { inner, .. } => typed(alloc, scope, inner),
        Expression::From { at, source } => {
            let found = lent(alloc, scope, source)?;
            taken(alloc, scope, *at, found)
        }
        Expression::Size { of, .. } => {
            operand_found(alloc, scope, 39, Wanted::Counted, of, Base::Integer)
        }
        Expression::Ordinal { of, .. } => {
            operand_found(alloc, scope, 39, Wanted::Numbered, of, Base::Integer)
        }
        Expression::Get { from } => read(alloc, scope, from),
        Expression::Call {
            function,
            arguments,
        } => call(alloc, scope, function, arguments),
        Expression::Invoke {
            object,
            operation,
            arguments,
        } => invoke(alloc, scope, object, operation, arguments),
    }
}

// An operand that a rule wants to be of a type, and what comes of it.
#[cycle(expressions)]
fn operand_found(
    alloc: Global,
    scope: Scope<'_, '_>,
    rule: u8,
    wanted: Wanted,
    e: &Expression,
    gives: Base,
) -> Result<Found<DataType>, NoMemory>
    ensures { (w : scopes.Scope) → IsScope scope.entry w → IfOk result (λ f. Finds f
        (rules.operand rule (test wanted) (expr_place (expr e.now)) (rules.typed w (expr e.now)) (rule_plain gives))) }
{
    let found = typed(alloc, scope, e)?;
    Ok(operand(rule, wanted, place_of(e), found, plain(alloc, gives)))
}

// Operators from the left, behind a first operand that begins at this place.
#[cycle(expressions)]
fn chained(
    alloc: Global,
    scope: Scope<'_, '_>,
    at: Place,
    first: Found<DataType>,
    links: &[Link],
) -> Result<Found<DataType>, NoMemory>
    ensures { (w : scopes.Scope) → IsScope scope.entry w → (f : RuleFound DataTypeRule) → Finds first f →
        IfOk result (λ r. Finds r (rules.chained w at f (links_shown links.now))) }
{
    let mut left = first;
    'links: for link in links {
        let right = typed(alloc, scope, &link.right)?;
        let place = place_of(&link.right);
        let next = joined(alloc, link.operator, at, left, place, right)?;
        left = next;
    }
    Ok(left)
}

/// A path from what was found of its root.
#[cycle(expressions)]
pub fn walked(
    alloc: Global,
    scope: Scope<'_, '_>,
    root: Found<DataType>,
    path: &[Selector],
) -> Result<Found<DataType>, NoMemory>
    ensures { (w : scopes.Scope) → IsScope scope.entry w → (f : RuleFound DataTypeRule) → Finds root f →
        IfOk result (λ r. Finds r (rules.walked w f (path_shown path.now))) }
{
    let mut found = root;
    'path: for step in path {
        let next = stepped(alloc, scope, &found.is, step)?;
        found = step_found(found, next);
    }
    Ok(found)
}

// A step to a part of what has this type, where that is known.
#[cycle(expressions)]
fn stepped(
    alloc: Global,
    scope: Scope<'_, '_>,
    kind: &Option<DataType>,
    step: &Selector,
) -> Result<Found<DataType>, NoMemory>
    ensures { (w : scopes.Scope) → IsScope scope.entry w →
        IfOk result (λ r. Finds r (rules.stepped w kind.now (step_shown step.now))) }
{
    match step {
        Selector::Field { at, name } => field_step(alloc, scope, *at, name, kind),
        Selector::Index { at, index } => {
            let found = typed(alloc, scope, index)?;
            index_step(alloc, *at, found, kind)
        }
    }
}

// The value of a designator.
#[cycle(expressions)]
fn read(alloc: Global, scope: Scope<'_, '_>, from: &Designator) -> Result<Found<DataType>, NoMemory>
    ensures { (w : scopes.Scope) → IsScope scope.entry w →
        IfOk result (λ r. Finds r (rules.walked w (rules.named_value w from.now.name) (path_shown from.now.path.items))) }
{
    let root = named_value(alloc, scope, &from.name)?;
    walked(alloc, scope, root, &from.path)
}

// A designator of a set or bag that is to be written.
#[cycle(expressions)]
fn lent(alloc: Global, scope: Scope<'_, '_>, of: &Designator) -> Result<Found<DataType>, NoMemory>
    ensures { (w : scopes.Scope) → IsScope scope.entry w → IfOk result (λ r. Finds r
        (rules.gathering of.now.name.at (rules.walked w (rules.written_root w 38 of.now.name) (path_shown of.now.path.items)))) }
{
    let root = written_root(alloc, scope, 38, &of.name)?;
    let found = walked(alloc, scope, root, &of.path)?;
    Ok(gathering(of.name.at, found))
}

// The first breach of an argument, for its parameter where there is one.
#[cycle(expressions)]
fn argument(
    alloc: Global,
    scope: Scope<'_, '_>,
    formals: &[Formal],
    place: usize,
    e: &Expression,
) -> Result<Option<Breach>, NoMemory>
    ensures { (w : scopes.Scope) → IsScope scope.entry w → IfOk result (λ o. FirstOf o
        ((rules.typed w (expr e.now)).breaches
        ++ rules.suits_first w (at_place formals.now place) (expr e.now) (rules.typed w (expr e.now)).is)) }
{
    let found = typed(alloc, scope, e)?;
    Ok(lesser(found.first, suits_at(scope, formals, place, e, &found.is)))
}

// The first rule that an argument breaks for its parameter, where there is one.
fn suits_at(
    scope: Scope<'_, '_>,
    formals: &[Formal],
    place: usize,
    e: &Expression,
    kind: &Option<DataType>,
) -> Option<Breach>
    ensures { (w : scopes.Scope) → IsScope scope.entry w →
        FirstOf result (rules.suits_first w (at_place formals.now place) (expr e.now) kind.now) }
{
    match formals.get(place) {
        None => None,
        Some(formal) => suits(scope, formal, e, kind),
    }
}

/// The first breach of arguments, each for its parameter where there is one.
#[cycle(expressions)]
pub fn arguments(
    alloc: Global,
    scope: Scope<'_, '_>,
    formals: &[Formal],
    given: &[Expression],
) -> Result<Option<Breach>, NoMemory>
    ensures { (w : scopes.Scope) → IsScope scope.entry w →
        IfOk result (λ o. FirstOf o (rules.arguments w formals.now (exprs given.now))) }
{
    let mut first = None;
    'given: for (place, e) in given.iter().enumerate() {
        let own = argument(alloc, scope, formals, place, e)?;
        first = lesser(first, own);
    }
    Ok(first)
}

// A call of a function, for its value.
#[cycle(expressions)]
fn call(
    alloc: Global,
    scope: Scope<'_, '_>,
    function: &Name,
    given: &[Expression],
) -> Result<Found<DataType>, NoMemory>
    ensures { (w : scopes.Scope) → IsScope scope.entry w →
        IfOk result (λ f. Finds f (rules.typed w (Expr.Call function.now (exprs given.now)))) }
{
    let is = called(scope, function);
    let inside = arguments(alloc, scope, formals_of(is), given)?;
    function_found(alloc, scope, Use::AsValue, function, given, is, inside)
}

// A call of an operation, for its value.
#[cycle(expressions)]
fn invoke(
    alloc: Global,
    scope: Scope<'_, '_>,
    object: &Name,
    operation: &Name,
    given: &[Expression],
) -> Result<Found<DataType>, NoMemory>
    ensures { (w : scopes.Scope) → IsScope scope.entry w →
        IfOk result (λ f. Finds f (rules.typed w (Expr.Invoke object.now operation.now (exprs given.now)))) }
{
    let is = invoked(scope, object, operation);
    let inside = arguments(alloc, scope, operation_formals(is), given)?;
    operation_found(
        alloc,
        scope,
        Use::AsValue,
        object,
        operation,
        given,
        is,
        inside,
    )
}
