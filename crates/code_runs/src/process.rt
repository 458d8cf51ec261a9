//! What is kept of a process, and how far it goes.

ghost use Rattle.std.specs.Prelude.{◌≡◌, ◌<◌, ◌^◌, ◌+◌, ◌≤◌, IfOk, OnOk};
ghost use Rattle.orca_base.specs.declared.ids.ProcessNo.{ProcessNo};
ghost use Rattle.value_core.specs.Datum.{list_of};
ghost use Rattle.value_core.specs.Goes.{IfAt};
ghost use Rattle.value_core.specs.declared.processor.Halt.TheVariants.{At, Paused};
ghost use Rattle.code_rules.specs.Machine as machine;
ghost use Rattle.code_rules.specs.Machine.{OfProcess, in_phase};
ghost use Rattle.code_rules.specs.Performing.{begun, first_of, process_slots};
ghost use Rattle.code_rules.specs.Resuming as rules;
ghost use Rattle.code_rules.specs.Resuming.{halt_by, halted as is_halted};
ghost use Rattle.emitted_code.specs.Views.{body_seen, program_seen};
ghost use Rattle.code_steps.specs.Bodies.{config_of, effect_in};
ghost use Rattle.code_runs.specs.Processes.{phase_of, process_of, with_reply};
ghost use Rattle.code_runs.specs.Runs.{Gives, HasRoomThroughout, IsCame, come_to};

use crate::beginnings::{begin, values_behind};
use crate::runs::run;
use code_steps::{BodyNo, Config, Effect, add_copies, add_spare, body_at};
use emitted_code::{Emitted, EmittedBody};
use orca_base::{NoMemory, ProcessNo, TextNo};
use std::alloc::Global;
use value_core::{Action, Halt, Parts, Reply, Value};

/// Where a process stands: it runs, with a reply that isn't pushed yet; it asks for the reply to an action; or it is over.
#[derive(Drop)]
pub enum Phase<'a> {
    Running {
        config: Config<'a>,
        reply: Option<Value>,
    },
    Asking {
        action: Action,
        config: Config<'a>,
    },
    Finished {
        action: Action,
    },
}

/// Where a process stands, and how many turns it took.
#[derive(Drop)]
pub struct CodeProcess<'a> {
    pub phase: Phase<'a>,
    pub turns: u64,
}

// What the slots of a process's body hold where it begins: its arguments, behind them what its other names open with, and zeros.
fn slots_for(alloc: Global, part: &EmittedBody<'_>, args: &Parts) -> Result<Parts, NoMemory>
    ensures { IfOk result (λ p. list_of p ≡ process_slots (body_seen part.now) args.now) }
{
    let mut slots = args.copy(alloc)?;
    add_copies(alloc, values_behind(&part.opens, args.len()), &mut slots)?;
    add_spare(part.spare, &mut slots)?;
    Ok(slots)
}

// The same of the text of a number; where there is none, nothing.
fn first_slots(
    alloc: Global,
    code: &Emitted<'_>,
    text: TextNo,
    args: &Parts,
) -> Result<Parts, NoMemory>
    ensures { IfOk result (λ p. (number : ProcessNo) →
        first_of (program_seen code.now) text number args.now ≡ begun number (OfProcess text.0) 0 (list_of p)) }
{
    let text = usize::from(text.0);
    match body_at(code, BodyNo::Process { text }) {
        Some(part) => slots_for(alloc, part, args),
        None => Ok(Parts::new(alloc)),
    }
}

/// A process of this text, before its first reply (`start` of code_rules).
///
/// # Errors
/// Want of memory.
pub fn start<'a>(
    alloc: Global,
    code: &Emitted<'_>,
    text: TextNo,
    number: ProcessNo,
    args: &Parts,
) -> Result<CodeProcess<'a>, NoMemory>
    ensures { IfOk result (λ p. process_of p ≡ rules.start (program_seen code.now) text number args.now) }
{
    let slots = first_slots(alloc, code, text, args)?;
    let body = BodyNo::Process {
        text: usize::from(text.0),
    };
    let config = begin(alloc, number, body, 0, slots)?;
    Ok(CodeProcess {
        phase: Phase::Running {
            config,
            reply: None,
        },
        turns: 0,
    })
}

// The reply is pushed.
fn push_reply(config: &mut Config<'_>, reply: Option<Value>) -> Result<(), NoMemory>
    ensures { OnOk result (config_of config.new ≡ with_reply reply (config_of config.old)) }
{
    match reply {
        Some(value) => config.stack.push(value),
        None => Ok(()),
    }
}

// A process that asks for the reply to an action.
fn asking<'a>(
    alloc: Global,
    action: Action,
    config: Config<'a>,
    turns: u64,
) -> Result<(CodeProcess<'a>, Halt), NoMemory>
    ensures { IfOk result (λ r. (process_of r.0 ≡ in_phase (machine.Asking action (config_of config.entry)) turns) × (r.1 ≡ At action)) }
{
    let halt = Halt::At {
        action: action.copy(alloc)?,
    };
    let phase = Phase::Asking { action, config };
    Ok((CodeProcess { phase, turns }, halt))
}

// A process that is over, by this action.
fn over<'a>(alloc: Global, action: Action, turns: u64) -> Result<(CodeProcess<'a>, Halt), NoMemory>
    ensures { IfOk result (λ r. (process_of r.0 ≡ in_phase (machine.Finished action) turns) × (r.1 ≡ At action)) }
{
    let halt = Halt::At {
        action: action.copy(alloc)?,
    };
    let phase = Phase::Finished { action };
    Ok((CodeProcess { phase, turns }, halt))
}

// A process that is to run on later.
fn paused(config: Config<'_>, turns: u64) -> (CodeProcess<'_>, Halt)
    ensures { (process_of result.0 ≡ in_phase (machine.Running (config_of config.entry)) turns) × (result.1 ≡ Paused) }
{
    let phase = Phase::Running {
        config,
        reply: None,
    };
    (CodeProcess { phase, turns }, Halt::Paused)
}

// Where a process then stands, and why it halted, that halted so after so many turns. Where it is stuck it is paused.
fn halted<'a>(
    alloc: Global,
    effect: Effect,
    config: Config<'a>,
    turns: u64,
) -> Result<(CodeProcess<'a>, Halt), NoMemory>
    ensures came { turns + 1 < 2 ^ 64 → IfOk result (λ r.
        IsCame (halt_by (come_to (effect_in effect (config_of config.entry)) turns)) (process_of r.0, r.1)) }
    ensures left { IfOk result (λ r. IfAt r.1 (is_halted (process_of r.0))) }
{
    match effect {
        Effect::Asks { action } => asking(alloc, action, config, turns),
        Effect::Fails { fault } => over(alloc, Action::Faulted { fault }, turns),
        Effect::Ends { .. } => over(alloc, Action::Ended, turns),
        Effect::Turns => Ok(paused(config, turns.saturating_add(1))),
        _ => Ok(paused(config, turns)),
    }
}

// A process runs on, with this budget of turns, of which the last one may not be begun.
fn run_on<'a>(
    alloc: Global,
    code: &Emitted<'_>,
    config: Config<'a>,
    turns: u64,
    budget: u64,
) -> Result<(CodeProcess<'a>, Halt), NoMemory>
    ensures came { HasRoomThroughout (program_seen code.now) → 1 ≤ budget → turns + budget < 2 ^ 64 → IfOk result (λ r.
        Gives (rules.goes_from (program_seen code.now) (machine.Running (config_of config.entry)) turns budget) (process_of r.0, r.1)) }
    ensures left { IfOk result (λ r. IfAt r.1 (is_halted (process_of r.0))) }
{
    let mut config = config;
    let mut left = budget;
    let effect = run(alloc, code, &mut config, &mut left)?;
    let taken = budget.saturating_sub(left);
    halted(alloc, effect, config, turns.saturating_add(taken))
}

/// A process goes on up to its next action, or until the budget's last turn is begun: to what the code comes to with some number of
/// instructions (`go` of code_rules; docs/LANGUAGE.md, Code). Where it comes to an action it is left at it. Where its code is stuck
/// nothing more is said: code that means a program is never stuck. It is asked that the objects which the code makes have numbers of 32
/// bits, that the budget has a turn, and that the turns and the budget together fit 64 bits; without these only `left` is said.
///
/// # Errors
/// Want of memory, which is also answered after 2^64 - 1 instructions. The process is gone then; whoever would go on keeps a copy.
pub fn go<'a>(
    alloc: Global,
    code: &Emitted<'_>,
    process: CodeProcess<'a>,
    budget: u32,
) -> Result<(CodeProcess<'a>, Halt), NoMemory>
    ensures came { HasRoomThroughout (program_seen code.now) → 1 ≤ budget → process.entry.turns + budget < 2 ^ 64 → IfOk result (λ r.
        Gives (rules.go (program_seen code.now) (process_of process.entry) budget) (process_of r.0, r.1)) }
    ensures left { IfOk result (λ r. IfAt r.1 (is_halted (process_of r.0))) }
{
    let CodeProcess { phase, turns } = process;
    match phase {
        Phase::Running { config, reply } => {
            let mut config = config;
            push_reply(&mut config, reply)?;
            run_on(alloc, code, config, turns, u64::from(budget))
        }
        Phase::Asking { action, config } => asking(alloc, action, config, turns),
        Phase::Finished { action } => over(alloc, action, turns),
    }
}

// Where a process stands that was at an action, behind the reply to it.
fn phase_after<'a>(phase: Phase<'a>, reply: Reply) -> Phase<'a>
    ensures { phase_of result ≡ rules.answered (phase_of phase.entry) reply }
{
    match phase {
        Phase::Asking { config, .. } => match reply {
            Reply::Done => Phase::Running {
                config,
                reply: Some(Value::Int(0)),
            },
            Reply::Gave { value } => Phase::Running {
                config,
                reply: Some(value),
            },
            Reply::Broke { fault } => Phase::Finished {
                action: Action::Faulted { fault },
            },
        },
        phase => phase,
    }
}

/// A process receives the reply to the action at which it was left (`answer` of code_rules). It takes no memory.
pub fn answer(process: CodeProcess<'_>, reply: Reply) -> CodeProcess<'_>
    ensures { process_of result ≡ rules.answer (process_of process.entry) reply }
{
    let CodeProcess { phase, turns } = process;
    CodeProcess {
        phase: phase_after(phase, reply),
        turns,
    }
}
