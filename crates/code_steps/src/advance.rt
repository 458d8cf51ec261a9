//! What an instruction does inside of its body.

ghost use Rattle.std.specs.Prelude.{◌≡◌, IfOk, Some};
ghost use Rattle.code_steps.specs.Moves.{told};
ghost use Rattle.code_steps.specs.Passing.{Changes};

use frame_variables::Stop;
use orca_base::{FaultKind, NoMemory};
use value_core::Action;

/// What an instruction did that neither calls a body nor leaves one: where its body goes on, or why it doesn't.
#[derive(Drop)]
pub enum Advance {
    /// Behind the instruction.
    Next,
    /// At an address.
    To { address: usize },
    /// A turn was begun; it goes on behind the instruction.
    Turned,
    /// An action is asked for; it goes on behind the instruction.
    Asks { action: Action },
    /// It faulted.
    Fails { fault: FaultKind },
    /// A guard came out so: it goes on behind it, or at another address.
    Tests { truth: bool, otherwise: usize },
    /// All guards were false.
    Blocks,
    /// There weren't so many operands, or something else that no code has that is made of a program.
    Stuck,
}

/// What a stop of variables or values is.
///
/// # Errors
/// Want of memory, where that is why it stopped.
pub fn stopped(stop: Stop) -> Result<Advance, NoMemory>
    ensures { IfOk result (λ a. told stop ≡ Some a) }
{
    match stop {
        Stop::Faults { fault } => Ok(Advance::Fails { fault }),
        Stop::Needs { .. } | Stop::Busy => Ok(Advance::Stuck),
        Stop::NoMemory => Err(NoMemory),
    }
}

/// What a change of variables comes to: the body goes on behind the instruction, or it is why the change stopped.
///
/// # Errors
/// Want of memory, where that is why it stopped.
pub fn changed(change: Result<(), Stop>) -> Result<Advance, NoMemory>
    ensures { IfOk result (λ a. Changes change a) }
{
    match change {
        Ok(()) => Ok(Advance::Next),
        Err(stop) => stopped(stop),
    }
}
