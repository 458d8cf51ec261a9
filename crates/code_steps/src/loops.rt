//! Counted loops, and slots that get a small value.

ghost use Rattle.std.specs.Prelude.{◌≡◌, ◌+ℤ◌, IfOk, MatchBool, MatchOption, None, OnOk, Some, false, true};
ghost use Rattle.std.specs.Prelude.{int_le, int_lt, pos, slice_get, slice_set};
ghost use Rattle.value_core.specs.Datum as datum;
ghost use Rattle.value_core.specs.Datum.{Datum};
ghost use Rattle.value_core.specs.Size.{size_of};
ghost use Rattle.value_core.specs.View.{datum_of};
ghost use Rattle.meaning_rules.specs.Operators.{integer_in as rule_integer};
ghost use Rattle.code_rules.specs.Instructions as rules;
ghost use Rattle.code_steps.specs.Moves.{Moves};

use crate::advance::Advance;
use crate::operands::Operands;
use crate::variables::clear_run;
use frame_variables::{Run, Target, integer_in, store};
use orca_base::NoMemory;
use std::alloc::Global;
use value_core::Value;

// The integer that a value is, as a value.
fn int_of(value: &Value) -> Value
    ensures { datum_of result ≡ datum.int (rule_integer (datum_of value.now)) }
{
    Value::Int(integer_in(value))
}

// Whether an integer is no greater than another.
fn is_at_most(low: &Value, high: &Value) -> bool
    ensures { result ≡ int_le (rule_integer (datum_of low.now)) (rule_integer (datum_of high.now)) }
{
    integer_in(low) <= integer_in(high)
}

// The next integer, where one is less than the last one.
fn next_up(number: &Value, high: &Value) -> Option<Value>
    ensures { MatchOption result (int_lt (rule_integer (datum_of number.now)) (rule_integer (datum_of high.now)) ≡ false)
        (λ v. (int_lt (rule_integer (datum_of number.now)) (rule_integer (datum_of high.now)) ≡ true)
        × (datum_of v ≡ datum.int (rule_integer (datum_of number.now) +ℤ pos 1))) }
{
    let last = integer_in(number);
    if last < integer_in(high) {
        Some(Value::Int(last + 1))
    } else {
        None
    }
}

// Whether there is a slot of this number.
fn has_slot(slot: usize, run: &Run<'_>) -> bool
    ensures { MatchBool result ((x : Datum) × (slice_get run.now.frame slot ≡ Some x)) (slice_get run.now.frame slot ≡ None) }
{
    match run.frame.get(slot) {
        Some(_) => true,
        None => false,
    }
}

/// A slot gets a value, where there is one of this number.
///
/// # Errors
/// Want of memory.
pub fn set_slot(alloc: Global, slot: usize, value: Value, run: &mut Run<'_>) -> Result<(), NoMemory>
    requires { size_of (datum_of value) ≡ 1 }
    ensures { OnOk result (run.new.frame ≡ slice_set run.old.frame slot (datum_of value)) }
{
    if !has_slot(slot, run) {
        return Ok(());
    }
    let to = Target {
        slot,
        path: Vec::new(alloc),
    };
    clear_run(run);
    match store(alloc, &to, value, run) {
        Ok(()) => Ok(()),
        // Nothing but memory can lack, since the slot is there and a value of one part fits.
        Err(_) => Err(NoMemory),
    }
}

/// A counted loop begins: the low bound goes into its slot, or where that is above the high one both are popped.
pub fn count(
    alloc: Global,
    slot: usize,
    address: usize,
    stack: &mut Operands,
    run: &mut Run<'_>,
) -> Result<Advance, NoMemory>
    ensures { IfOk result (λ a. Moves (rules.Count slot address) stack.old run.old.frame a stack.new run.new.frame) }
{
    let Some(high) = stack.pop() else {
        return Ok(Advance::Stuck);
    };
    let Some(low) = stack.pop() else {
        return Ok(Advance::Stuck);
    };
    if !is_at_most(&low, &high) {
        return Ok(Advance::To { address });
    }
    let first = int_of(&low);
    let last = int_of(&high);
    let number = int_of(&low);
    stack.push(first)?;
    stack.push(last)?;
    set_slot(alloc, slot, number, run)?;
    Ok(Advance::Next)
}

/// A counted loop goes on with the next number, back at an address, or both bounds are popped.
#[inline(always)]
pub fn count_up(
    alloc: Global,
    slot: usize,
    address: usize,
    stack: &mut Operands,
    run: &mut Run<'_>,
) -> Result<Advance, NoMemory>
    ensures { IfOk result (λ a. Moves (rules.Upto slot address) stack.old run.old.frame a stack.new run.new.frame) }
{
    let Some(high) = stack.pop() else {
        return Ok(Advance::Stuck);
    };
    let Some(number) = stack.pop() else {
        return Ok(Advance::Stuck);
    };
    let Some(next) = next_up(&number, &high) else {
        return Ok(Advance::Next);
    };
    let kept = int_of(&next);
    stack.push(kept)?;
    stack.push(high)?;
    set_slot(alloc, slot, next, run)?;
    Ok(Advance::To { address })
}
