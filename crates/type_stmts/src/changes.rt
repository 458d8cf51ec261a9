//! The rules of statements that change a variable.

ghost use Rattle.std.specs.Prelude.{◌≡◌, IfOk};
ghost use Rattle.orca_syntax.specs.Places.{expr_place};
ghost use Rattle.orca_syntax.specs.Shown.{expr, path as path_shown};
ghost use Rattle.type_rules.specs.Rules.{Found as RuleFound};
ghost use Rattle.type_rules.specs.declared.types.DataType.{DataType as DataTypeRule};
ghost use Rattle.type_rules.specs.Types.{inside_of as rule_inside_of, same_type as rule_same_type};
ghost use Rattle.type_rules.specs.Scopes as scopes;
ghost use Rattle.type_rules.specs.Expressions as phrases;
ghost use Rattle.type_rules.specs.Statements as rules;
ghost use Rattle.type_forms.specs.Finding.{Finds, FirstOf};
ghost use Rattle.type_exprs.specs.Scoped.{IsScope};

use orca_base::{NoMemory, Place};
use orca_tree::{Designator, Expression};
use std::alloc::Global;
use type_exprs::{
    Scope, agree, gathering, inside_of, place_of, same_type, typed, walked, written_root,
};
use type_forms::{Found, asks, lesser};
use type_rules::{Breach, DataType};

// A designator that is to be written, for the rule that says so.
fn written(
    alloc: Global,
    scope: Scope<'_, '_>,
    rule: u8,
    to: &Designator,
) -> Result<Found<DataType>, NoMemory>
    ensures { (w : scopes.Scope) → IsScope scope.entry w → IfOk result (λ f. Finds f
        (phrases.walked w (phrases.written_root w rule to.now.name) (path_shown to.now.path.items))) }
{
    let root = written_root(alloc, scope, rule, &to.name)?;
    walked(alloc, scope, root, &to.path)
}

// The first breach of an assignment at a place.
fn assigns(at: Place, left: Found<DataType>, right: Found<DataType>) -> Option<Breach>
    ensures { (f g : RuleFound DataTypeRule) → Finds left f → Finds right g → FirstOf result (rules.assigns at f g) }
{
    let one_type = asks(20, at, agree(&left.is, &right.is));
    lesser(left.first, lesser(right.first, one_type))
}

/// The first breach of an assignment.
pub fn assign_breach(
    alloc: Global,
    scope: Scope<'_, '_>,
    to: &Designator,
    value: &Expression,
) -> Result<Option<Breach>, NoMemory>
    ensures { (w : scopes.Scope) → IsScope scope.entry w → IfOk result (λ o. FirstOf o (rules.assigns to.now.name.at
        (phrases.walked w (phrases.written_root w 19 to.now.name) (path_shown to.now.path.items))
        (phrases.typed w (expr value.now)))) }
{
    let left = written(alloc, scope, 19, to)?;
    let right = typed(alloc, scope, value)?;
    Ok(assigns(to.name.at, left, right))
}

// Whether a type is what a set or bag of this type is of.
fn is_held(alloc: Global, element: &DataType, all: &DataType) -> Result<bool, NoMemory>
    ensures { IfOk result (λ b. b ≡ rule_same_type element.now (rule_inside_of all.now)) }
{
    let inside = inside_of(alloc, all)?;
    Ok(same_type(element, &inside))
}

// Whether a type is what a set or bag is of, as far as both are known.
fn is_element(
    alloc: Global,
    element: &Option<DataType>,
    all: &Option<DataType>,
) -> Result<bool, NoMemory>
    ensures { IfOk result (λ b. b ≡ phrases.is_element element.now all.now) }
{
    match element {
        None => Ok(true),
        Some(element) => match all {
            None => Ok(true),
            Some(all) => Ok(is_held(alloc, element, all)?),
        },
    }
}

// The first breach of `insert` and `delete`, by what was found of the element at a place, and of the set or bag.
fn changes(
    alloc: Global,
    at: Place,
    element: Found<DataType>,
    all: Found<DataType>,
) -> Result<Option<Breach>, NoMemory>
    ensures { (f g : RuleFound DataTypeRule) → Finds element f → Finds all g →
        IfOk result (λ o. FirstOf o (rules.changes at f g)) }
{
    let holds = is_element(alloc, &element.is, &all.is)?;
    Ok(lesser(element.first, lesser(all.first, asks(38, at, holds))))
}

/// The first breach of `insert` and `delete`.
pub fn change_breach(
    alloc: Global,
    scope: Scope<'_, '_>,
    element: &Expression,
    of: &Designator,
) -> Result<Option<Breach>, NoMemory>
    ensures { (w : scopes.Scope) → IsScope scope.entry w → IfOk result (λ o. FirstOf o (rules.changes
        (expr_place (expr element.now)) (phrases.typed w (expr element.now)) (phrases.gathering of.now.name.at
        (phrases.walked w (phrases.written_root w 38 of.now.name) (path_shown of.now.path.items))))) }
{
    let found = typed(alloc, scope, element)?;
    let all = written(alloc, scope, 38, of)?;
    changes(alloc, place_of(element), found, gathering(of.name.at, all))
}
