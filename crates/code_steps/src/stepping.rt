//! One instruction, wherever a run stands.

ghost use Rattle.std.specs.Prelude.{◌≡◌, ◌+◌, ◌<◌, ◌^◌, IfOk, List, Some, true};
ghost use Rattle.code_rules.specs.Instructions as rules;
ghost use Rattle.code_rules.specs.Machine as machine;
ghost use Rattle.emitted_code.specs.Views.{instr_of, program_seen};
ghost use Rattle.code_steps.specs.Bodies.{config_of, effect_in};
ghost use Rattle.code_steps.specs.Moves.{HasRoom, HasRoomAt, leaves_body};

use crate::bodies::instr_at;
use crate::calls::{call, give, leave};
use crate::config::{Config, Effect, follow};
use crate::inner::advance;
use emitted_code::{Emitted, Instr};
use orca_base::NoMemory;
use std::alloc::Global;

// Whether an instruction calls a body, or leaves one.
#[inline(always)]
fn leaves_body(instr: &Instr<'_>) -> bool
    ensures { result ≡ leaves_body (instr_of instr.now) }
{
    matches!(
        instr,
        Instr::Call { .. } | Instr::Return | Instr::Result | Instr::End
    )
}

// An instruction that calls a body, or leaves one.
fn transfer(
    alloc: Global,
    code: &Emitted<'_>,
    instr: &Instr<'_>,
    config: &mut Config<'_>,
) -> Result<Effect, NoMemory>
    requires leaves { leaves_body (instr_of instr.now) ≡ true }
    requires room { config.old.pc + 1 < 2 ^ 64 }
    ensures { IfOk result (λ e. machine.act (program_seen code.now) (Some (instr_of instr.now)) (config_of config.old) ≡
        effect_in e (config_of config.new)) }
{
    match instr {
        Instr::Call { function, shapes } => call(alloc, code, *function, shapes, config),
        Instr::Result => give(alloc, config),
        Instr::Return => leave(alloc, None, config),
        Instr::End => leave(alloc, None, config),
        _ => unreachable!(),
    }
}

// An instruction.
#[inline(always)]
fn act(
    alloc: Global,
    code: &Emitted<'_>,
    instr: &Instr<'_>,
    config: &mut Config<'_>,
) -> Result<Effect, NoMemory>
    requires { config.old.pc + 1 < 2 ^ 64 }
    ensures { HasRoom (instr_of instr.now) → IfOk result (λ e.
        machine.act (program_seen code.now) (Some (instr_of instr.now)) (config_of config.old) ≡ effect_in e (config_of config.new)) }
{
    if leaves_body(instr) {
        return transfer(alloc, code, instr, config);
    }
    let done = advance(
        alloc,
        instr,
        config.process,
        &mut config.stack,
        &mut config.run,
    )?;
    Ok(follow(done, config))
}

/// Does the instruction at which a run stands. What it does, and where the run then stands, is what `step` of code_rules says
/// (docs/LANGUAGE.md, Code). After a fault, after the test of a guard, where no guard is left and where it is stuck nothing is said of
/// where it stands, and after the end of its variables alone.
///
/// # Errors
/// Want of memory.
#[inline(always)]
pub fn step(alloc: Global, code: &Emitted<'_>, config: &mut Config<'_>) -> Result<Effect, NoMemory>
    ensures { HasRoomAt (program_seen code.now) (config_of config.old) → IfOk result (λ e.
        machine.step (program_seen code.now) (config_of config.old) ≡ effect_in e (config_of config.new)) }
{
    match instr_at(code, config.body, config.pc) {
        Some(instr) => act(alloc, code, instr, config),
        None => Ok(Effect::Stuck),
    }
}
