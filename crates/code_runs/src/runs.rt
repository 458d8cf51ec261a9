//! Runs, up to where they halt.

ghost use Rattle.std.specs.Prelude.{◌≡◌, IfOk, ℕ, false, true};
ghost use Rattle.code_rules.specs.Machine as machine;
ghost use Rattle.emitted_code.specs.Views.{program_seen};
ghost use Rattle.code_steps.specs.Bodies.{config_of, effect_in};
ghost use Rattle.code_runs.specs.Runs.{HaltsSo, HasRoomThroughout, IsHalt};

use code_steps::{Config, Effect, step};
use emitted_code::Emitted;
use orca_base::NoMemory;
use std::alloc::Global;

// Whether an instruction that did this ends a run with so many turns left: all but a step, and a turn with which another one is left.
// That one is counted.
#[inline(always)]
fn halts(effect: &Effect, left: &mut u64) -> bool
    ensures halts { result ≡ true → (left.new ≡ left.old) × ((c : machine.Config) → IsHalt (effect_in effect.now c) left.old) }
    ensures goes { result ≡ false → (code : machine.Code) (c d : machine.Config) (e : machine.Effect) (left' : ℕ) →
        machine.step code c ≡ effect_in effect.now d → HaltsSo code d left.new e left' → HaltsSo code c left.old e left' }
{
    match effect {
        Effect::Steps => false,
        Effect::Turns => {
            if *left <= 1 {
                return true;
            }
            *left -= 1;
            false
        }
        _ => true,
    }
}

/// Does instructions until one halts the run, with so many turns left, of which the last one may not be begun: what that one did, and
/// how many turns are left.
///
/// # Errors
/// Want of memory, which is also answered after 2^64 - 1 instructions. Nothing is said then of where the run stands.
pub fn run(
    alloc: Global,
    code: &Emitted<'_>,
    config: &mut Config<'_>,
    left: &mut u64,
) -> Result<Effect, NoMemory>
    ensures { HasRoomThroughout (program_seen code.now) → IfOk result (λ e.
        HaltsSo (program_seen code.now) (config_of config.old) left.old (effect_in e (config_of config.new)) left.new) }
{
    'steps: for _ in 0..u64::MAX {
        let effect = step(alloc, code, config)?;
        if halts(&effect, left) {
            return Ok(effect);
        }
    }
    Err(NoMemory)
}
