//! Designators: roots that are to be written, and steps to parts.

ghost use Rattle.std.specs.Prelude.{◌≡◌, IfOk, option_map};
ghost use Rattle.type_rules.specs.Rules.{Found as RuleFound};
ghost use Rattle.type_rules.specs.declared.types.DataType.{DataType as DataTypeRule};
ghost use Rattle.type_rules.specs.Types.{inside_of as rule_inside_of, outside_of};
ghost use Rattle.type_rules.specs.Scopes as scopes;
ghost use Rattle.type_rules.specs.Expressions as rules;
ghost use Rattle.type_forms.specs.Finding.{Finds};
ghost use Rattle.type_forms.specs.Indexed.{standing};
ghost use Rattle.type_exprs.specs.Scoped.{IsScope, lent_local};

use crate::kinds::{Wanted, copy_known, index_of, inside_of, is_indexed_by, meets};
use crate::scope::{Local, Scope, may_write};
use crate::values::outer;
use orca_base::{NoMemory, Place};
use orca_tree::Name;
use std::alloc::Global;
use type_forms::{Found, Standing, asks, lesser};
use type_rules::{Base, DataType};

// The root of a designator that is to be written, which is no name of the body.
fn outer_root(rule: u8, name: &Name, is: Standing<'_>) -> Found<DataType>
    ensures { Finds result (rules.outer_root rule name.now (standing is.entry)) }
{
    match is {
        Standing::Nothing => Found::broken(2, name.at),
        _ => Found::broken(rule, name.at),
    }
}

// The root of a designator that is to be written, where this is what it is of the body.
fn root_of(
    alloc: Global,
    scope: Scope<'_, '_>,
    rule: u8,
    name: &Name,
    local: Option<&Local>,
) -> Result<Found<DataType>, NoMemory>
    ensures { (w : scopes.Scope) → IsScope scope.entry w →
        IfOk result (λ f. Finds f (rules.root_of w rule name.now (lent_local name.now.text local.entry))) }
{
    match local {
        None => {
            let is = outer(scope, name.text.as_str());
            Ok(outer_root(rule, name, is))
        }
        Some(local) => {
            let breach = asks(rule, name.at, may_write(local));
            Ok(Found::unless(breach, copy_known(alloc, &local.kind)?))
        }
    }
}

/// The root of a designator that is to be written, for the rule that says so.
pub fn written_root(
    alloc: Global,
    scope: Scope<'_, '_>,
    rule: u8,
    name: &Name,
) -> Result<Found<DataType>, NoMemory>
    ensures { (w : scopes.Scope) → IsScope scope.entry w → IfOk result (λ f. Finds f (rules.written_root w rule name.now)) }
{
    let local = scope.local(name.text.as_str());
    root_of(alloc, scope, rule, name, local)
}

// Of a record, the type of the field with this name.
fn field_of<'a>(scope: Scope<'a, '_>, name: &str, kind: &DataType) -> Option<&'a Option<DataType>>
    ensures { (w : scopes.Scope) → IsScope scope.entry w →
        option_map (λ t. t.now) result ≡ rules.field_of w name.now (outside_of kind.now) }
{
    if !kind.layers.as_slice().is_empty() {
        return None;
    }
    match kind.base {
        Base::Record { number } => scope.tables.field(number, name),
        _ => None,
    }
}

// What was found of a field.
fn field_found(
    alloc: Global,
    at: Place,
    field: Option<&Option<DataType>>,
) -> Result<Found<DataType>, NoMemory>
    ensures { IfOk result (λ f. Finds f (rules.field_found at (option_map (λ t. t.now) field.entry))) }
{
    match field {
        None => Ok(Found::broken(40, at)),
        Some(kind) => Ok(Found::new(copy_known(alloc, kind)?)),
    }
}

/// A step to a field.
pub fn field_step(
    alloc: Global,
    scope: Scope<'_, '_>,
    at: Place,
    name: &Name,
    kind: &Option<DataType>,
) -> Result<Found<DataType>, NoMemory>
    ensures { (w : scopes.Scope) → IsScope scope.entry w → IfOk result (λ f. Finds f (rules.field_step w at name.now kind.now)) }
{
    match kind {
        None => Ok(Found::new(None)),
        Some(kind) => {
            let field = field_of(scope, name.text.as_str(), kind);
            field_found(alloc, at, field)
        }
    }
}

/// A step to an element, by what was found of its index.
pub fn index_step(
    alloc: Global,
    at: Place,
    index: Found<DataType>,
    kind: &Option<DataType>,
) -> Result<Found<DataType>, NoMemory>
    ensures { (g : RuleFound DataTypeRule) → Finds index g → IfOk result (λ f. Finds f (rules.index_step at g kind.now)) }
{
    match kind {
        None => Ok(Found::unless(index.first, None)),
        Some(kind) => {
            let wanted = index_of(alloc, kind);
            let breach = asks(40, at, is_indexed_by(&wanted, &index.is));
            let inside = inside_of(alloc, kind)?;
            Ok(Found::unless(lesser(breach, index.first), Some(inside)))
        }
    }
}

/// A step further from what was found before.
pub fn step_found(before: Found<DataType>, step: Found<DataType>) -> Found<DataType>
    ensures { (f g : RuleFound DataTypeRule) → Finds before f → Finds step g → Finds result (rules.step_found f g) }
{
    let first = lesser(before.first, step.first);
    Found::unless(first, step.is)
}

/// What is to be a set or a bag.
pub fn gathering(at: Place, found: Found<DataType>) -> Found<DataType>
    ensures { (f : RuleFound DataTypeRule) → Finds found f → Finds result (rules.gathering at f) }
{
    let breach = asks(38, at, meets(Wanted::Gathering, &found.is));
    found.with(breach)
}

// The element type of what was found, where it is known.
fn element_of(alloc: Global, kind: &Option<DataType>) -> Result<Option<DataType>, NoMemory>
    ensures { IfOk result (λ t. t ≡ option_map rule_inside_of kind.now) }
{
    match kind {
        None => Ok(None),
        Some(kind) => Ok(Some(inside_of(alloc, kind)?)),
    }
}

/// An element that is taken out of what was found.
pub fn taken(
    alloc: Global,
    scope: Scope<'_, '_>,
    at: Place,
    found: Found<DataType>,
) -> Result<Found<DataType>, NoMemory>
    ensures { (w : scopes.Scope) → IsScope scope.entry w → (f : RuleFound DataTypeRule) → Finds found f →
        IfOk result (λ r. Finds r (rules.taken w at f)) }
{
    let breach = asks(18, at, !scope.in_guard);
    let element = element_of(alloc, &found.is)?;
    Ok(Found::unless(lesser(breach, found.first), element))
}
