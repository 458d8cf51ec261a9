//! The code of a checked program.

ghost use Rattle.std.specs.Prelude.{◌≡◌, ◌≤◌, IfOk};
ghost use Rattle.std.specs.List.{sum_by};
ghost use Rattle.orca_base.specs.Refusal.{IfBecause};
ghost use Rattle.accepted_law.specs.Limits.{IsWithinLimits};
ghost use Rattle.program_limits.specs.Passed.{Passes};
ghost use Rattle.program_bodies.specs.Codes.{sources};
ghost use Rattle.code_rules.specs.Correct.{Means};
ghost use Rattle.code_rules.specs.Program.{program_code};
ghost use Rattle.code_lengths.specs.Lengths.{program_length, tokens_in};
ghost use Rattle.emitted_code.specs.Views.{program_seen};
ghost use Rattle.stack_code.specs.Packed.{HasGreat};
ghost use Rattle.stack_code.specs.Shown.{shown};
ghost use Rattle.stack_code.specs.Sound.{IsWholeCode};
ghost use Rattle.stack_code.specs.Text.{bodies_of};

use accepted_law::accepted_law;
use code_lengths::length_law;
use code_rules::code_law;
use emitted_code::Emitted;
use orca_base::{NoMemory, Refusal};
use program_bodies::Code as ProgramTables;
use program_limits::{PassedLimit, within_limits};
use stack_code::{Code, compiled_code_is_sound, pack};
use std::alloc::Global;
use type_decls::Checked;

// The code of a program within the limits, as it is emitted.
fn emitted<'p>(alloc: Global, checked: Checked<'p>) -> Result<Emitted<'p>, NoMemory>
    requires { IsWithinLimits (sources checked) }
    ensures { IfOk result (λ p. program_seen p ≡ program_code (sources checked.entry)) }
{
    accepted_law();
    let tables = ProgramTables::new(alloc, checked)?;
    code_units::compile(alloc, &tables)
}

// The same in words, where no body is too long for them.
fn packed<'p>(alloc: Global, emitted: Emitted<'p>) -> Result<Code<'p>, NoMemory>
    requires whole { IsWholeCode (program_seen emitted) }
    requires fits { HasGreat (bodies_of (program_seen emitted)) → ⊥ }
    ensures { IfOk result (λ code. shown code ≡ program_seen emitted.entry) }
{
    match pack(alloc, emitted) {
        Ok(code) => Ok(code),
        Err(Refusal::NoMemory) => Err(NoMemory),
        Err(Refusal::Because { .. }) => unreachable!(),
    }
}

/// The code of a checked program (docs/LANGUAGE.md, Code). It is exactly that of the definitions, and so means the program's sources
/// (`code_law`). All of it together has at most one instruction for each token of the program's texts (`length_law`).
///
/// # Errors
/// The limit that the program passes, that of parameters first: a function, process or operation has more than 255, or else the units have
/// more than 100,000 tokens and declared names together (`CodeLength`). And want of memory.
pub fn compile<'p>(alloc: Global, checked: Checked<'p>) -> Result<Code<'p>, Refusal<PassedLimit>>
    ensures code { IfOk result (λ code. shown code ≡ program_code (sources checked.entry)) }
    ensures means { IfOk result (λ code. Means (sources checked.entry) (shown code)) }
    ensures short { IfOk result (λ code. program_length (shown code) ≤ sum_by tokens_in (sources checked.entry)) }
    ensures within { IfOk result (λ _. IsWithinLimits (sources checked.entry)) }

    // The limit that is passed.
    ensures passed { IfBecause result (Passes (sources checked.entry)) }
{
    within_limits(alloc, checked.program)?;
    let emitted = emitted(alloc, checked)?;
    accepted_law();
    code_law();
    compiled_code_is_sound();
    length_law();
    let code = packed(alloc, emitted)?;
    Ok(code)
}
