//! Actions that are asked for.

ghost use Rattle.std.specs.Prelude.{◌≡◌, ◌<◌, ◌^◌, IfOk, List, Ok, Some, ok_or, slice_get};
ghost use Rattle.orca_base.specs.declared.fault.FaultKind.TheVariants.{IndexOutside};
ghost use Rattle.value_core.specs.Datum.{Datum};
ghost use Rattle.value_core.specs.View.{datum_of};
ghost use Rattle.meaning_rules.specs.Calls.{id_in};
ghost use Rattle.meaning_rules.specs.Operators.{integer_in as rule_integer};
ghost use Rattle.code_rules.specs.Instructions as rules;
ghost use Rattle.code_rules.specs.Machine as machine;
ghost use Rattle.code_rules.specs.Machine.{object_at};
ghost use Rattle.code_steps.specs.Moves.{Moves};
ghost use Rattle.code_steps.specs.Passing.{Makes};

use crate::advance::{Advance, stopped};
use crate::loops::set_slot;
use crate::operands::Operands;
use frame_variables::{Run, fitting_all, integer_in};
use orca_base::{KindNo, NoMemory, ObjectId, OpNo, ProcessNo, TextNo};
use std::alloc::Global;
use value_core::{Action, Value};

// An object's number, in 32 bits.
fn object_number(count: usize) -> u32
    ensures { count < 2 ^ 32 → result ≡ count }
{
    u32::try_from(count).unwrap_or(u32::MAX)
}

/// A process makes the object of this number of its own, which goes into a slot.
pub fn make(
    alloc: Global,
    process: ProcessNo,
    kind: KindNo,
    count: usize,
    slot: usize,
    run: &mut Run<'_>,
) -> Result<Advance, NoMemory>
    ensures { count < 2 ^ 32 → IfOk result (λ a. (stack : List Datum) →
        Makes process kind count slot stack run.old.frame a run.new.frame) }
{
    let object = ObjectId::of(process, object_number(count));
    set_slot(alloc, slot, Value::Object(object), run)?;
    let action = Action::Make { kind, object };
    Ok(Advance::Asks { action })
}

// The object that a value names, and the output object where it names none.
fn object_of(value: &Value) -> ObjectId
    ensures { result ≡ id_in (Ok (datum_of value.now)) }
{
    match value {
        Value::Object(object) => *object,
        _ => ObjectId::OUTPUT,
    }
}

// The object that stands in a slot.
fn object_there(slot: usize, run: &Run<'_>) -> ObjectId
    ensures { result ≡ id_in (ok_or (slice_get run.now.frame slot) IndexOutside) }
{
    match run.frame.get(slot) {
        Some(value) => object_of(value),
        None => ObjectId::OUTPUT,
    }
}

// The same for an object type; of type 0 there is the output object alone.
fn object_in(kind: KindNo, slot: usize, run: &Run<'_>) -> ObjectId
    ensures { result ≡ object_at kind.0 slot run.now.frame }
{
    if kind.0 == 0 {
        return ObjectId::OUTPUT;
    }
    object_there(slot, run)
}

/// A call of an operation, of the object in a slot.
pub fn invoke(
    alloc: Global,
    kind: KindNo,
    op: OpNo,
    slot: usize,
    count: usize,
    stack: &mut Operands,
    run: &Run<'_>,
) -> Result<Advance, NoMemory>
    ensures { IfOk result (λ a. Moves (rules.Invoke kind op slot count) stack.old run.now.frame a stack.new run.now.frame) }
{
    let Some(args) = stack.pop_many(alloc, count)? else {
        return Ok(Advance::Stuck);
    };
    match fitting_all(&args) {
        Ok(()) => {
            let object = object_in(kind, slot, run);
            let action = Action::Call {
                kind,
                op,
                object,
                args,
            };
            Ok(Advance::Asks { action })
        }
        Err(stop) => stopped(stop),
    }
}

/// A fork, on the process's own member.
pub fn fork(
    alloc: Global,
    process: TextNo,
    count: usize,
    stack: &mut Operands,
) -> Result<Advance, NoMemory>
    ensures { IfOk result (λ a. (locals : List Datum) → Moves (rules.Fork process count) stack.old locals a stack.new locals) }
{
    let Some(args) = stack.pop_many(alloc, count)? else {
        return Ok(Advance::Stuck);
    };
    match fitting_all(&args) {
        Ok(()) => {
            let action = Action::Fork {
                process,
                args,
                place_on: None,
            };
            Ok(Advance::Asks { action })
        }
        Err(stop) => stopped(stop),
    }
}

// The member that an operand names.
fn named_by(member: &Value) -> Option<i64>
    ensures { result ≡ Some (rule_integer (datum_of member.now)) }
{
    Some(integer_in(member))
}

/// A fork, on the member that the operand on top names.
pub fn fork_on(
    alloc: Global,
    process: TextNo,
    count: usize,
    stack: &mut Operands,
) -> Result<Advance, NoMemory>
    ensures { IfOk result (λ a. (locals : List Datum) → Moves (rules.ForkOn process count) stack.old locals a stack.new locals) }
{
    let Some(member) = stack.pop() else {
        return Ok(Advance::Stuck);
    };
    let place_on = named_by(&member);
    let Some(args) = stack.pop_many(alloc, count)? else {
        return Ok(Advance::Stuck);
    };
    match fitting_all(&args) {
        Ok(()) => {
            let action = Action::Fork {
                process,
                args,
                place_on,
            };
            Ok(Advance::Asks { action })
        }
        Err(stop) => stopped(stop),
    }
}
