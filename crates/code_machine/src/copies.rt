//! Copies of where a process stands. The lists that values hold are shared.

ghost use Rattle.std.specs.Prelude.{◌≡◌, IfOk, map};
ghost use Rattle.frame_variables.specs.Gives.{passed_of};
ghost use Rattle.code_rules.specs.Machine.{lent};
ghost use Rattle.code_runs.specs.Processes.{phase_of};
ghost use Rattle.code_steps.specs.Bodies.{caller_of, config_of};

use code_runs::Phase;
use code_steps::{Caller, Config, Operands, add_copies};
use frame_variables::{Frame, Passed, Run, Step, Target};
use orca_base::NoMemory;
use std::alloc::Global;
use value_core::{Parts, Value};

// Equal variables.
fn copy_frame<'a>(alloc: Global, frame: &Frame<'_>) -> Result<Frame<'a>, NoMemory>
    ensures { IfOk result (λ f. f ≡ frame.now) }
{
    let mut values = Parts::new(alloc);
    'slots: for slot in 0..usize::MAX {
        match frame.get(slot) {
            Some(value) => values.push(value.copy(alloc)?)?,
            None => return Frame::new(alloc, values),
        }
    }
    Err(NoMemory)
}

// Equal operands.
fn copy_operands(alloc: Global, operands: &Operands) -> Result<Operands, NoMemory>
    ensures { IfOk result (λ o. o ≡ operands.now) }
{
    let mut values = Parts::new(alloc);
    add_copies(alloc, operands.as_slice(), &mut values)?;
    Ok(Operands::from_vec(values.into_vec()))
}

// An equal path.
fn copy_path(alloc: Global, path: &[Step]) -> Result<Vec<Step>, NoMemory>
    ensures { IfOk result (λ p. p.items ≡ path.now) }
{
    Ok(Vec::from_slice(alloc, path)?)
}

// What an argument lends; of one that it gives nothing is kept.
fn copy_passed(alloc: Global, passed: &Passed) -> Result<Passed, NoMemory>
    ensures { IfOk result (λ p. lent (passed_of p) ≡ lent (passed_of passed.now)) }
{
    match passed {
        Passed::Given { .. } => Ok(Passed::Given {
            value: Value::Int(0),
        }),
        Passed::Lent { to } => {
            let path = copy_path(alloc, &to.path)?;
            let to = Target {
                slot: to.slot,
                path,
            };
            Ok(Passed::Lent { to })
        }
    }
}

// The same of all arguments.
fn copy_given(alloc: Global, given: &[Passed]) -> Result<Vec<Passed>, NoMemory>
    ensures { IfOk result (λ all. map lent (map passed_of all.items) ≡ map lent (map passed_of given.now)) }
{
    let mut all = Vec::new(alloc);
    'given: for passed in given {
        all.push(copy_passed(alloc, passed)?)?;
    }
    Ok(all)
}

// A body that waits as another does.
fn copy_caller<'a>(alloc: Global, caller: &Caller<'_>) -> Result<Caller<'a>, NoMemory>
    ensures { IfOk result (λ w. caller_of w ≡ caller_of caller.now) }
{
    Ok(Caller {
        body: caller.body,
        pc: caller.pc,
        stack: copy_operands(alloc, &caller.stack)?,
        frame: copy_frame(alloc, &caller.frame)?,
        given: copy_given(alloc, &caller.given)?,
        names: caller.names,
    })
}

// All that wait.
fn copy_callers<'a>(alloc: Global, callers: &[Caller<'_>]) -> Result<Vec<Caller<'a>>, NoMemory>
    ensures { IfOk result (λ all. map caller_of all.items ≡ map caller_of callers.now) }
{
    let mut all = Vec::new(alloc);
    'callers: for caller in callers {
        all.push(copy_caller(alloc, caller)?)?;
    }
    Ok(all)
}

// A run that stands where another does.
fn copy_config<'a>(alloc: Global, config: &Config<'_>) -> Result<Config<'a>, NoMemory>
    ensures { IfOk result (λ c. config_of c ≡ config_of config.now) }
{
    let frame = copy_frame(alloc, &config.run.frame)?;
    let run = Run {
        frame,
        replies: &[],
        left: 0,
    };
    Ok(Config {
        process: config.process,
        body: config.body,
        pc: config.pc,
        stack: copy_operands(alloc, &config.stack)?,
        run,
        callers: copy_callers(alloc, &config.callers)?,
    })
}

// An equal reply, where there is one.
fn copy_reply(alloc: Global, reply: &Option<Value>) -> Result<Option<Value>, NoMemory>
    ensures { IfOk result (λ r. r ≡ reply.now) }
{
    match reply {
        None => Ok(None),
        Some(value) => Ok(Some(value.copy(alloc)?)),
    }
}

/// A process that stands where another does.
///
/// # Errors
/// Want of memory.
pub fn copy_phase<'a>(alloc: Global, phase: &Phase<'_>) -> Result<Phase<'a>, NoMemory>
    ensures { IfOk result (λ p. phase_of p ≡ phase_of phase.now) }
{
    match phase {
        Phase::Running { config, reply } => Ok(Phase::Running {
            config: copy_config(alloc, config)?,
            reply: copy_reply(alloc, reply)?,
        }),
        Phase::Asking { action, config } => Ok(Phase::Asking {
            action: action.copy(alloc)?,
            config: copy_config(alloc, config)?,
        }),
        Phase::Finished { action } => Ok(Phase::Finished {
            action: action.copy(alloc)?,
        }),
    }
}
