//! What is pushed where it was made or found.

ghost use Rattle.std.specs.Prelude.{◌≡◌, IfOk};
ghost use Rattle.code_steps.specs.Passing.{Pushes, PushesFound};

use crate::advance::{Advance, stopped};
use crate::operands::Operands;
use frame_variables::Stop;
use orca_base::{FaultKind, NoMemory};
use std::alloc::Global;
use value_core::Value;

/// A value once more, whose lists are shared.
///
/// # Errors
/// Want of memory.
#[inline(always)]
pub fn copied(alloc: Global, value: &Value) -> Result<Value, NoMemory>
    ensures { IfOk result (λ v. v ≡ value.now) }
{
    match value {
        Value::Int(number) => Ok(Value::Int(*number)),
        Value::Truth(truth) => Ok(Value::Truth(*truth)),
        _ => value.copy(alloc),
    }
}

/// A value that was made is pushed, or it is why none was.
///
/// # Errors
/// Want of memory.
#[inline(always)]
pub fn push_made(made: Result<Value, Stop>, stack: &mut Operands) -> Result<Advance, NoMemory>
    ensures { IfOk result (λ a. Pushes made stack.old a stack.new) }
{
    match made {
        Ok(value) => {
            stack.push(value)?;
            Ok(Advance::Next)
        }
        Err(stop) => stopped(stop),
    }
}

/// A value that was found is pushed once more, or it is the fault for which none was.
///
/// # Errors
/// Want of memory.
pub fn push_found(
    alloc: Global,
    found: Result<&Value, FaultKind>,
    stack: &mut Operands,
) -> Result<Advance, NoMemory>
    ensures { IfOk result (λ a. PushesFound found.entry stack.old a stack.new) }
{
    match found {
        Ok(value) => {
            stack.push(value.copy(alloc)?)?;
            Ok(Advance::Next)
        }
        Err(fault) => Ok(Advance::Fails { fault }),
    }
}
