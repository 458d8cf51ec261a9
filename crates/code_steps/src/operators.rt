//! Operators, and the ways on that truths choose.

ghost use Rattle.std.specs.Prelude.{◌≡◌, IfOk, IfSome, List, Ok};
ghost use Rattle.value_core.specs.Datum as datum;
ghost use Rattle.value_core.specs.Datum.{Datum};
ghost use Rattle.value_core.specs.View.{datum_of};
ghost use Rattle.meaning_rules.specs.Operators.{applied as rule_applied};
ghost use Rattle.meaning_rules.specs.States.{State, gives};
ghost use Rattle.frame_variables.specs.Gives.{Gives};
ghost use Rattle.code_rules.specs.Instructions as rules;
ghost use Rattle.code_rules.specs.Machine.{prefixed as rule_prefixed};
ghost use Rattle.emitted_code.specs.Views.{prefix_of};
ghost use Rattle.code_steps.specs.Moves.{Moves};
ghost use Rattle.code_steps.specs.Passing.{Decides};

use crate::advance::Advance;
use crate::operands::Operands;
use crate::pushing::push_made;
use emitted_code::Prefix;
use frame_variables::{Stop, applied, decides, integer_in, truth_in};
use orca_base::{FaultKind, NoMemory};
use orca_tree::Operator;
use std::alloc::Global;
use value_core::Value;
use value_ops::{add, count, divide, multiply, negate, ordinal, remainder, subtract};

// What an operator before one operand gives.
fn prefixed(prefix: Prefix, operand: &Value) -> Result<Value, Stop>
    ensures { (s : State) → Gives datum_of result s (gives (rule_prefixed (prefix_of prefix) (datum_of operand.now)) s) }
{
    match prefix {
        Prefix::Not => Ok(Value::Truth(!truth_in(operand))),
        Prefix::Neg => Ok(Value::Int(negate(integer_in(operand))?)),
        Prefix::Size => Ok(Value::Int(count(operand))),
        Prefix::Ord => Ok(Value::Int(ordinal(operand))),
    }
}

/// An operator before one operand.
pub fn apply_before(prefix: Prefix, stack: &mut Operands) -> Result<Advance, NoMemory>
    ensures { IfOk result (λ a. (locals : List Datum) → Moves (rules.Before (prefix_of prefix)) stack.old locals a stack.new locals) }
{
    let Some(operand) = stack.pop() else {
        return Ok(Advance::Stuck);
    };
    push_made(prefixed(prefix, &operand), stack)
}

// The integer that came of one, or none where it faulted.
#[inline(always)]
fn calculated(outcome: Result<i64, FaultKind>) -> Option<i64>
    ensures { IfSome result (λ z. outcome ≡ Ok z) }
{
    match outcome {
        Ok(number) => Some(number),
        Err(_) => None,
    }
}

// What an operator gives of two integers, where that is an integer. It is left open where it faults.
#[inline(always)]
fn integer_of(operator: Operator, left: i64, right: i64) -> Option<i64>
    ensures { IfSome result (λ z. rule_applied operator (datum.int left) (datum.int right) ≡ Ok (datum.int z)) }
{
    match operator {
        Operator::Add => calculated(add(left, right)),
        Operator::Subtract => calculated(subtract(left, right)),
        Operator::Multiply => calculated(multiply(left, right)),
        Operator::Divide => calculated(divide(left, right)),
        Operator::Remainder => calculated(remainder(left, right)),
        _ => None,
    }
}

// Whether two integers stand in a relation.
#[inline(always)]
fn truth_of(operator: Operator, left: i64, right: i64) -> Option<bool>
    ensures { IfSome result (λ b. rule_applied operator (datum.int left) (datum.int right) ≡ Ok (datum.truth b)) }
{
    match operator {
        Operator::Equal => Some(left.cmp(&right).is_eq()),
        Operator::Different => Some(!left.cmp(&right).is_eq()),
        Operator::Less => Some(left.cmp(&right).is_lt()),
        Operator::AtMost => Some(!left.cmp(&right).is_gt()),
        Operator::Greater => Some(left.cmp(&right).is_gt()),
        Operator::AtLeast => Some(!left.cmp(&right).is_lt()),
        _ => None,
    }
}

// What an operator gives of two integers, as far as that is known without a fault.
#[inline(always)]
fn of_integers(operator: Operator, left: i64, right: i64) -> Option<Value>
    ensures { IfSome result (λ v. rule_applied operator (datum.int left) (datum.int right) ≡ Ok (datum_of v)) }
{
    match integer_of(operator, left, right) {
        Some(number) => Some(Value::Int(number)),
        None => match truth_of(operator, left, right) {
            Some(truth) => Some(Value::Truth(truth)),
            None => None,
        },
    }
}

// The same of any operands.
#[inline(always)]
fn of_plain(operator: Operator, left: &Value, right: &Value) -> Option<Value>
    ensures { IfSome result (λ v. rule_applied operator (datum_of left.now) (datum_of right.now) ≡ Ok (datum_of v)) }
{
    match (left, right) {
        (Value::Int(left), Value::Int(right)) => of_integers(operator, *left, *right),
        _ => None,
    }
}

// What an operator gives of two operands.
#[inline(always)]
fn outcome(alloc: Global, operator: Operator, left: &Value, right: Value) -> Result<Value, Stop>
    ensures { (s : State) → Gives datum_of result s (gives (rule_applied operator (datum_of left.now) (datum_of right)) s) }
{
    match of_plain(operator, left, &right) {
        Some(value) => Ok(value),
        None => applied(alloc, operator, left, right),
    }
}

/// An operator between two operands.
#[inline(always)]
pub fn apply(alloc: Global, operator: Operator, stack: &mut Operands) -> Result<Advance, NoMemory>
    ensures { IfOk result (λ a. (locals : List Datum) → Moves (rules.Apply operator) stack.old locals a stack.new locals) }
{
    let Some(right) = stack.pop() else {
        return Ok(Advance::Stuck);
    };
    let Some(left) = stack.pop() else {
        return Ok(Advance::Stuck);
    };
    push_made(outcome(alloc, operator, &left, right), stack)
}

/// `and` and `or`: where the left operand decides it stays, and the run goes to an address; else it is popped.
pub fn decide(operator: Operator, address: usize, stack: &mut Operands) -> Result<Advance, NoMemory>
    ensures { IfOk result (λ a. (locals : List Datum) → Decides operator address stack.old locals a stack.new) }
{
    let Some(left) = stack.pop() else {
        return Ok(Advance::Stuck);
    };
    if decides(operator, &left) {
        stack.push(left)?;
        return Ok(Advance::To { address });
    }
    Ok(Advance::Next)
}

/// The run goes to an address where false is popped.
#[inline(always)]
pub fn unless(address: usize, stack: &mut Operands) -> Advance
    ensures { (locals : List Datum) → Moves (rules.Unless address) stack.old locals result stack.new locals }
{
    let Some(truth) = stack.pop() else {
        return Advance::Stuck;
    };
    if truth_in(&truth) {
        return Advance::Next;
    }
    Advance::To { address }
}

/// The operand on top goes.
pub fn pop(stack: &mut Operands) -> Advance
    ensures { (locals : List Datum) → Moves rules.Pop stack.old locals result stack.new locals }
{
    match stack.pop() {
        Some(_value) => Advance::Next,
        None => Advance::Stuck,
    }
}

/// A guard's test is popped.
pub fn guard(otherwise: usize, stack: &mut Operands) -> Advance
    ensures { (locals : List Datum) → Moves (rules.Guard otherwise) stack.old locals result stack.new locals }
{
    let Some(test) = stack.pop() else {
        return Advance::Stuck;
    };
    let truth = truth_in(&test);
    Advance::Tests { truth, otherwise }
}
