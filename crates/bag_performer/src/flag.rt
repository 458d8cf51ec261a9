//! Operations on a flag.

ghost use Rattle.std.specs.Prelude.{◌≡◌, IfOk};
ghost use Rattle.bag_performer.specs.Bags.{assigns, await_of, first, flag_tries, number_of, set_of, spoil_of, step_of};

use crate::pool::{number_in, one};
use orca_base::{FaultKind, NoMemory, OpNo};
use std::alloc::Global;
use value_core::{Parts, Reply, Tried, Value};

// A try of an operation of a flag.
pub(crate) fn try_op(
    alloc: Global,
    op: OpNo,
    state: &Parts,
    args: &Parts,
) -> Result<Tried, NoMemory>
    ensures { IfOk result (λ t. t ≡ flag_tries op state.now args.now) }
{
    if op.0 == 0 {
        wait(alloc, state, args)
    } else if op.0 == 1 {
        set(alloc, args)
    } else if op.0 == 2 {
        spoil(alloc, args)
    } else if op.0 == 3 {
        step(alloc, state)
    } else {
        Ok(Tried::Blocked)
    }
}

// Where the integer is the argument, nothing is done.
fn wait(alloc: Global, state: &Parts, args: &Parts) -> Result<Tried, NoMemory>
    ensures { IfOk result (λ t. t ≡ await_of state.now (number_of (first state.now)) (number_of (first args.now))) }
{
    match (number_in(state), number_in(args)) {
        (Some(number), Some(wanted)) if number == wanted => Ok(Tried::Did {
            guard: 1,
            state: state.copy(alloc)?,
            reply: Reply::Done,
        }),
        _ => Ok(Tried::Blocked),
    }
}

// The integer becomes the argument.
fn set(alloc: Global, args: &Parts) -> Result<Tried, NoMemory>
    ensures { IfOk result (λ t. t ≡ set_of (number_of (first args.now))) }
{
    match number_in(args) {
        Some(number) => assigned(alloc, 0, number),
        None => Ok(Tried::Blocked),
    }
}

// The integer becomes the argument, and then the body divides by zero: nothing stays of it.
fn spoil(alloc: Global, args: &Parts) -> Result<Tried, NoMemory>
    ensures { IfOk result (λ t. t ≡ spoil_of (number_of (first args.now))) }
{
    match number_in(args) {
        Some(number) => {
            let _assigned = one(alloc, Value::Int(number))?;
            Ok(Tried::Broke {
                guard: 0,
                fault: FaultKind::DivideByZero,
            })
        }
        None => Ok(Tried::Blocked),
    }
}

// The first guard in text order decides: where the integer is 0 it becomes 1; where it is at most 1 it becomes 2.
fn step(alloc: Global, state: &Parts) -> Result<Tried, NoMemory>
    ensures { IfOk result (λ t. t ≡ step_of (number_of (first state.now))) }
{
    match number_in(state) {
        Some(0) => assigned(alloc, 1, 1),
        Some(number) if number <= 1 => assigned(alloc, 2, 2),
        _ => Ok(Tried::Blocked),
    }
}

// The operation ran by this guard, and left this integer.
fn assigned(alloc: Global, guard: u16, number: i64) -> Result<Tried, NoMemory>
    ensures { IfOk result (λ t. t ≡ assigns guard number) }
{
    Ok(Tried::Did {
        guard,
        state: one(alloc, Value::Int(number))?,
        reply: Reply::Done,
    })
}
