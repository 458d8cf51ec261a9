//! Where a run of compiled code stands.

ghost use Rattle.std.specs.Prelude.{◌≡◌, ◌+◌, ◌<◌, ◌^◌, IfOk, Some};
ghost use Rattle.code_steps.specs.Bodies.{config_of, effect_in, told_effect};
ghost use Rattle.code_steps.specs.Moves.{effect_of};

use crate::advance::Advance;
use crate::operands::Operands;
use frame_variables::{Frame, Passed, Run, Stop};
use orca_base::{FaultKind, NoMemory, ProcessNo};
use value_core::{Action, Value};

/// Which body: a function, a process by its text, the making of an object by its type, and an operation by its type and its own number.
#[derive(Clone, Copy)]
pub enum BodyNo {
    Function { number: usize },
    Process { text: usize },
    Making { kind: usize },
    Operation { kind: usize, number: usize },
}

/// A body that waits for the return of one that it called: where it goes on, its operands and its variables; where each argument that it
/// lent stands (of what it gave nothing is read again), and how many names the called body has.
#[derive(Drop)]
pub struct Caller<'a> {
    pub body: BodyNo,
    pub pc: usize,
    pub stack: Operands,
    pub frame: Frame<'a>,
    pub given: Vec<Passed>,
    pub names: usize,
}

/// Where a run stands: the process whose number its objects get; the body that runs, the address of its next instruction, its operands, and
/// its slots; and who waits for it, the last one at the end. Of `run` the variables alone are used: its replies
/// and the turns that are left are lost where a body is called or left.
#[derive(Drop)]
pub struct Config<'a> {
    pub process: ProcessNo,
    pub body: BodyNo,
    pub pc: usize,
    pub stack: Operands,
    pub run: Run<'a>,
    pub callers: Vec<Caller<'a>>,
}

/// What one instruction did.
#[derive(Drop)]
pub enum Effect {
    /// The run goes on.
    Steps,
    /// A turn was begun, and the run goes on.
    Turns,
    /// An action is asked for; its reply is to be pushed.
    Asks { action: Action },
    /// It faulted.
    Fails { fault: FaultKind },
    /// The body that the run began in ended, with this value, and with the variables that it left.
    Ends { value: Option<Value> },
    /// A guard came out so, and the attempt goes on at this address.
    Tests { truth: bool, address: usize },
    /// All guards were false.
    Blocks,
    /// There is no such instruction, or it lacks operands.
    Stuck,
}

/// What a stop of variables or values is.
///
/// # Errors
/// Want of memory, where that is why it stopped.
pub fn failed(stop: Stop) -> Result<Effect, NoMemory>
    ensures { IfOk result (λ e. told_effect stop ≡ Some e) }
{
    match stop {
        Stop::Faults { fault } => Ok(Effect::Fails { fault }),
        Stop::Needs { .. } | Stop::Busy => Ok(Effect::Stuck),
        Stop::NoMemory => Err(NoMemory),
    }
}

/// The run goes on where an instruction inside of its body leads.
#[inline(always)]
pub fn follow(advance: Advance, config: &mut Config<'_>) -> Effect
    requires { config.old.pc + 1 < 2 ^ 64 }
    ensures { effect_in result (config_of config.new) ≡
        effect_of (config_of config.old) advance (config_of config.old).stack (config_of config.old).locals }
{
    match advance {
        Advance::Next => {
            config.pc += 1;
            Effect::Steps
        }
        Advance::To { address } => {
            config.pc = address;
            Effect::Steps
        }
        Advance::Turned => {
            config.pc += 1;
            Effect::Turns
        }
        Advance::Asks { action } => {
            config.pc += 1;
            Effect::Asks { action }
        }
        Advance::Fails { fault } => Effect::Fails { fault },
        Advance::Tests { truth, otherwise } => {
            let address = if truth { config.pc + 1 } else { otherwise };
            Effect::Tests { truth, address }
        }
        Advance::Blocks => Effect::Blocks,
        Advance::Stuck => Effect::Stuck,
    }
}
