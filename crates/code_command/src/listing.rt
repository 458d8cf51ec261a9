//! What `code` prints of a checked program.

ghost use Rattle.std.specs.Prelude.{◌≡◌, string_bytes, true, IfOk};
ghost use Rattle.orca_base.specs.Refusal.{IfBecause};
ghost use Rattle.accepted_law.specs.Limits.{IsWithinLimits};
ghost use Rattle.program_limits.specs.Passed.{Passes};
ghost use Rattle.program_bodies.specs.Codes.{sources};
ghost use Rattle.code_rules.specs.Program.{program_code};
ghost use Rattle.stack_code.specs.Shown.{shown};
ghost use Rattle.code_command.specs.Listings.{IsListing};

use crate::notes::notes_of;
use code_programs::compile;
use link_rules::NamedUnit;
use orca_base::{NoMemory, Refusal};
use orca_front::SourceFile;
use program_limits::PassedLimit;
use stack_code::{Code, print_code, print_noted};
use std::alloc::Global;
use type_decls::Checked;

// The listing of code, with the lines of the sources before their code.
fn noted(
    alloc: Global,
    units: &[NamedUnit],
    files: &[SourceFile<'_>],
    code: &Code<'_>,
) -> Result<String, NoMemory>
    ensures { IfOk result (λ text. IsListing true (shown code.now) (string_bytes text)) }
{
    let notes = notes_of(alloc, units, files, code)?;
    print_noted(alloc, code, &notes)
}

// The listing of code, with these lines or not.
fn printed(
    alloc: Global,
    with_source: bool,
    units: &[NamedUnit],
    files: &[SourceFile<'_>],
    code: &Code<'_>,
) -> Result<String, NoMemory>
    ensures { IfOk result (λ text. IsListing with_source (shown code.now) (string_bytes text)) }
{
    if with_source {
        noted(alloc, units, files, code)
    } else {
        print_code(alloc, code)
    }
}

/// The listing of a checked program's code, in UTF-8, with the lines of its sources before their code, where these are asked for. The files
/// are those with its texts.
///
/// # Errors
/// The limit that the program passes, as `compile` of code_programs has it; and want of memory.
pub fn listing_of(
    alloc: Global,
    with_source: bool,
    checked: Checked<'_>,
    files: &[SourceFile<'_>],
) -> Result<Vec<u8>, Refusal<PassedLimit>>
    ensures listed { IfOk result (λ text. IsListing with_source (program_code (sources checked.entry)) text.items) }
    ensures within { IfOk result (λ _. IsWithinLimits (sources checked.entry)) }
    ensures passed { IfBecause result (Passes (sources checked.entry)) }
{
    let program = checked.program;
    let code = compile(alloc, checked)?;
    let text = printed(alloc, with_source, &program.units, files, &code)?;
    Ok(text.into_bytes())
}
