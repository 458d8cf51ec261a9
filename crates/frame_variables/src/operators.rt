//! Operators, of any values.

ghost use Rattle.std.specs.Prelude.{◌≡◌, MatchOption, Ok, false};
ghost use Rattle.value_core.specs.Datum as datum;
ghost use Rattle.value_core.specs.History.{string_in};
ghost use Rattle.value_core.specs.View.{datum_of};
ghost use Rattle.value_ops.specs.Texts.{joined};
ghost use Rattle.meaning_rules.specs.Operators as rules;
ghost use Rattle.meaning_rules.specs.States.{State, gives};
ghost use Rattle.frame_variables.specs.Gives.{Gives};
ghost use Rattle.frame_variables.specs.Relations.{is_relation};

use crate::elements::is_in;
use crate::stop::Stop;
use orca_base::{FaultKind, TEXT_LENGTH, Text};
use orca_tree::Operator;
use std::alloc::Global;
use value_core::{TextValue, Value};
use value_ops::{add, divide, multiply, remainder, subtract};

/// The integer that a value is, and 0 of any other value.
pub fn integer_in(value: &Value) -> i64
    ensures { result ≡ rules.integer_in (datum_of value.now) }
{
    match value {
        Value::Int(number) => *number,
        _ => 0,
    }
}

/// Whether a value is true.
pub fn truth_in(value: &Value) -> bool
    ensures { result ≡ rules.truth_in (datum_of value.now) }
{
    match value {
        Value::Truth(truth) => *truth,
        _ => false,
    }
}

// The characters of a string, and none of any other value.
fn string_in(value: &Value) -> &str
    ensures { result.now ≡ string_in (datum_of value.now) }
{
    match value {
        Value::Text(text) => text.as_str(),
        _ => "",
    }
}

/// Whether the left operand alone decides: of `or` a true one, of `and` a false one.
pub fn decides(operator: Operator, left: &Value) -> bool
    ensures { result ≡ rules.decides operator (datum_of left.now) }
{
    match operator {
        Operator::Or => truth_in(left),
        Operator::And => !truth_in(left),
        _ => false,
    }
}

// `&`: one string behind the other, where that is no longer than a string may be.
fn join(alloc: Global, left: &Value, right: &Value) -> Result<Value, Stop>
    ensures { (s : State) → Gives datum_of result s
        (gives (rules.of_string (joined (string_in (datum_of left.now)) (string_in (datum_of right.now)))) s) }
{
    let front = string_in(left);
    let back = string_in(right);
    if front.len().saturating_add(back.len()) > TEXT_LENGTH as usize {
        return Err(Stop::Faults {
            fault: FaultKind::TooLarge,
        });
    }
    let mut text = String::from_str(alloc, front)?;
    text.push_str(back)?;
    Ok(Value::Text(TextValue::new(alloc, Text::new(text))?))
}

// What an operator on integers gives.
fn calculated(sum: Result<i64, FaultKind>) -> Result<Value, Stop>
    ensures { (s : State) → Gives datum_of result s (gives (rules.of_integer sum) s) }
{
    Ok(Value::Int(sum?))
}

// Whether two values stand in a relation, or a set or bag has an element: what an operator gives that compares its operands, with
// nothing copied. Of another operator `None`.
fn related(operator: Operator, left: &Value, right: &Value) -> Option<bool>
    ensures { MatchOption result (is_relation operator ≡ false)
        (λ truth. rules.applied operator (datum_of left.now) (datum_of right.now) ≡ Ok (datum.truth truth)) }
{
    match operator {
        Operator::Equal => Some(left.compare(right).is_eq()),
        Operator::Different => Some(!left.compare(right).is_eq()),
        Operator::Less => Some(left.compare(right).is_lt()),
        Operator::AtMost => Some(!left.compare(right).is_gt()),
        Operator::Greater => Some(left.compare(right).is_gt()),
        Operator::AtLeast => Some(!left.compare(right).is_lt()),
        Operator::In => Some(is_in(left, right)),
        Operator::Or
        | Operator::And
        | Operator::Join
        | Operator::Add
        | Operator::Subtract
        | Operator::Multiply
        | Operator::Divide
        | Operator::Remainder => None,
    }
}

// What an operator that compares nothing gives.
fn combined(alloc: Global, operator: Operator, left: &Value, right: Value) -> Result<Value, Stop>
    requires { is_relation operator ≡ false }
    ensures { (s : State) → Gives datum_of result s (gives (rules.applied operator (datum_of left.now) (datum_of right)) s) }
{
    match operator {
        Operator::Join => join(alloc, left, &right),
        Operator::Add => calculated(add(integer_in(left), integer_in(&right))),
        Operator::Subtract => calculated(subtract(integer_in(left), integer_in(&right))),
        Operator::Multiply => calculated(multiply(integer_in(left), integer_in(&right))),
        Operator::Divide => calculated(divide(integer_in(left), integer_in(&right))),
        Operator::Remainder => calculated(remainder(integer_in(left), integer_in(&right))),
        _ => Ok(right),
    }
}

/// What an operator gives of both operands, where the left one doesn't decide alone.
pub fn applied(alloc: Global, operator: Operator, left: &Value, right: Value) -> Result<Value, Stop>
    ensures { (s : State) → Gives datum_of result s (gives (rules.applied operator (datum_of left.now) (datum_of right)) s) }
{
    match related(operator, left, &right) {
        Some(truth) => Ok(Value::Truth(truth)),
        None => combined(alloc, operator, left, right),
    }
}
