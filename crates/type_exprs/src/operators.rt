//! The rules of operators.

ghost use Rattle.std.specs.Prelude.{◌≡◌, ◌++◌, ◌&&◌, IfOk};
ghost use Rattle.type_rules.specs.Rules.{Found as RuleFound, asks as rule_asks, fits};
ghost use Rattle.type_rules.specs.declared.types.DataType.{DataType as DataTypeRule};
ghost use Rattle.type_rules.specs.Types.{inside_of as rule_inside_of, is_gathering, same_type as rule_same_type};
ghost use Rattle.type_rules.specs.Expressions as rules;
ghost use Rattle.type_forms.specs.Finding.{Finds, FirstOf};
ghost use Rattle.type_exprs.specs.Wanted.{test};

use crate::kinds::{Wanted, are_compared, inside_of, is_met, meets, plain, same_type};
use orca_base::{NoMemory, Place};
use orca_tree::Operator;
use std::alloc::Global;
use type_forms::{Found, asks, lesser};
use type_rules::{Base, Breach, DataType};

/// The breach of a rule that wants a type at a place, behind those inside.
pub fn wanting(rule: u8, wanted: Wanted, at: Place, found: &Found<DataType>) -> Option<Breach>
    ensures { (f : RuleFound DataTypeRule) → Finds found.now f →
        FirstOf result (f.breaches ++ rule_asks rule at (fits (test wanted) f.is)) }
{
    lesser(found.first, asks(rule, at, meets(wanted, &found.is)))
}

/// An operand that a rule wants to be of a type, and what comes of it.
pub fn operand(
    rule: u8,
    wanted: Wanted,
    at: Place,
    e: Found<DataType>,
    gives: DataType,
) -> Found<DataType>
    ensures { (f : RuleFound DataTypeRule) → Finds e f → Finds result (rules.operand rule (test wanted) at f gives) }
{
    Found::unless(wanting(rule, wanted, at, &e), Some(gives))
}

// Two operands that a rule wants to be of a type, and what comes of them.
fn operands(
    rule: u8,
    wanted: Wanted,
    at: Place,
    left: Found<DataType>,
    place: Place,
    right: Found<DataType>,
    gives: DataType,
) -> Found<DataType>
    ensures { (f g : RuleFound DataTypeRule) → Finds left f → Finds right g →
        Finds result (rules.operands rule (test wanted) at f place g gives) }
{
    let first = lesser(
        left.first,
        lesser(
            asks(rule, at, meets(wanted, &left.is)),
            wanting(rule, wanted, place, &right),
        ),
    );
    Found::unless(first, Some(gives))
}

// A relation, at the place of its first operand.
fn relation(
    alloc: Global,
    at: Place,
    left: Found<DataType>,
    right: Found<DataType>,
) -> Found<DataType>
    ensures { (f g : RuleFound DataTypeRule) → Finds left f → Finds right g → Finds result (rules.relation at f g) }
{
    let order = asks(37, at, are_compared(&left.is, &right.is));
    let first = lesser(left.first, lesser(right.first, order));
    Found::unless(first, Some(plain(alloc, Base::Boolean)))
}

// Whether a type is a set or a bag, and what it holds is of a type.
fn is_of(element: &DataType, all: &DataType, inside: &DataType) -> bool
    ensures { result ≡ (is_gathering all.now && rule_same_type element.now inside.now) }
{
    is_met(Wanted::Gathering, all) && same_type(element, inside)
}

// Whether a set or bag holds elements of a type.
fn gathers(alloc: Global, element: &DataType, all: &DataType) -> Result<bool, NoMemory>
    ensures { IfOk result (λ b. b ≡ (is_gathering all.now && rule_same_type element.now (rule_inside_of all.now))) }
{
    let inside = inside_of(alloc, all)?;
    Ok(is_of(element, all, &inside))
}

// Whether what stands behind `in` holds elements of the type in front, as far as both are known.
fn holds_element(
    alloc: Global,
    element: &Option<DataType>,
    all: &Option<DataType>,
) -> Result<bool, NoMemory>
    ensures { IfOk result (λ b. b ≡ rules.holds_element element.now all.now) }
{
    match element {
        None => Ok(meets(Wanted::Gathering, all)),
        Some(element) => match all {
            None => Ok(true),
            Some(all) => Ok(gathers(alloc, element, all)?),
        },
    }
}

// The test of `in`, at the place of its right side.
fn membership(
    alloc: Global,
    left: Found<DataType>,
    place: Place,
    right: Found<DataType>,
) -> Result<Found<DataType>, NoMemory>
    ensures { (f g : RuleFound DataTypeRule) → Finds left f → Finds right g →
        IfOk result (λ r. Finds r (rules.membership f place g)) }
{
    let holds = holds_element(alloc, &left.is, &right.is)?;
    let first = lesser(left.first, lesser(right.first, asks(37, place, holds)));
    Ok(Found::unless(first, Some(plain(alloc, Base::Boolean))))
}

/// Two operands with their places, and what an operator gives of them.
pub fn joined(
    alloc: Global,
    operator: Operator,
    at: Place,
    left: Found<DataType>,
    place: Place,
    right: Found<DataType>,
) -> Result<Found<DataType>, NoMemory>
    ensures { (f g : RuleFound DataTypeRule) → Finds left f → Finds right g →
        IfOk result (λ r. Finds r (rules.joined operator at f place g)) }
{
    match operator {
        Operator::Or | Operator::And => {
            let gives = plain(alloc, Base::Boolean);
            Ok(operands(35, Wanted::Boolean, at, left, place, right, gives))
        }
        Operator::Equal
        | Operator::Different
        | Operator::Less
        | Operator::AtMost
        | Operator::Greater
        | Operator::AtLeast => Ok(relation(alloc, at, left, right)),
        Operator::In => Ok(membership(alloc, left, place, right)?),
        Operator::Join => {
            let gives = plain(alloc, Base::String);
            Ok(operands(36, Wanted::Text, at, left, place, right, gives))
        }
        Operator::Add
        | Operator::Subtract
        | Operator::Multiply
        | Operator::Divide
        | Operator::Remainder => {
            let gives = plain(alloc, Base::Integer);
            Ok(operands(36, Wanted::Integer, at, left, place, right, gives))
        }
    }
}
