//! The note on files that are no accepted program.

ghost use Rattle.std.specs.Prelude.{◌≡◌, [], IfNone, IfOk, IfSome, List, None, map, option_map};
ghost use Rattle.orca_base.specs.Refusal.{IfBecause};
ghost use Rattle.orca_io.specs.Files.{File, content_of};
ghost use Rattle.link_rules.specs.Units.{Source, source};
ghost use Rattle.accepted_law.specs.Limits.{IsWithinLimits};
ghost use Rattle.orca_front.specs.Sources.{AreUnits, IsAccepted, IsFault, file_of};
ghost use Rattle.refusal_notes.specs.Notes.{note_of};
ghost use Rattle.refusal_notes.specs.declared.cause.Cause.TheVariants.{Limit};
ghost use Rattle.ending_notes.specs.Programs.{IsFaultNote, IsProgramNote, passed_note, text_named};

use orca_base::{NoMemory, Refusal, What};
use orca_front::{FrontFault, SourceFile, accepted, linked};
use orca_modules::Program;
use program_limits::{PassedLimit, within_limits};
use program_notes::{link_note, text_note, type_note};
use refusal_notes::{Cause, note};
use std::alloc::Global;

// The text of the first file of this name.
fn content<'a>(files: &'a [SourceFile<'_>], name: &str) -> Option<&'a [u8]>
    ensures { option_map (λ s. s.now) result ≡ content_of (map file_of files.now) name.now }
{
    for file in files {
        if file.name == name {
            return Some(file.text.as_slice());
        }
    }
    None
}

// The same, or none.
fn text_in<'a>(files: &'a [SourceFile<'_>], name: &str) -> &'a [u8]
    ensures { result.now ≡ text_named (map file_of files.now) name.now }
{
    match content(files, name) {
        Some(text) => text,
        None => &[],
    }
}

/// The note on a limit.
pub fn limit_note(alloc: Global, what: What) -> Result<Vec<u8>, NoMemory>
    ensures { IfOk result (λ v. v.items ≡ note_of (Limit what) [] None) }
{
    note(alloc, Cause::Limit { what }, &[], None)
}

// The note on a fault of the front end.
fn fault_note(
    alloc: Global,
    fault: &FrontFault,
    files: &[SourceFile<'_>],
) -> Result<Vec<u8>, NoMemory>
    ensures { IfOk result (λ v. IsFaultNote (map file_of files.now) fault.now v.items) }
{
    match fault {
        FrontFault::Faulty { file, at, said } => {
            let text = text_in(files, file.as_str());
            text_note(alloc, file.as_str(), text, *at, said)
        }
        FrontFault::TooNested => limit_note(alloc, What::Nesting),
        FrontFault::Unlinked { error } => {
            link_note(alloc, error, text_in(files, error.file.as_str()))
        }
        FrontFault::Mistyped { error } => {
            type_note(alloc, error, text_in(files, error.file.as_str()))
        }
    }
}

// The note on a limit that a program passes.
fn passed_note(alloc: Global, passed: PassedLimit) -> Result<Vec<u8>, NoMemory>
    ensures { IfOk result (λ v. v.items ≡ passed_note passed) }
{
    match passed {
        PassedLimit::Parameters => note(alloc, Cause::Parameters, &[], None),
        PassedLimit::CodeLength => limit_note(alloc, What::CodeLength),
    }
}

// Why a program within the rules of linking isn't accepted; none where it is.
fn linked_note(
    alloc: Global,
    program: &Program,
    files: &[SourceFile<'_>],
) -> Result<Option<Vec<u8>>, NoMemory>
    requires { AreUnits (map file_of files.now) (map source program.now.units.items) }
    ensures told { IfOk result (λ o. IfSome o (λ v. IsProgramNote (map file_of files.now) v.items)) }
    ensures none { IfOk result (λ o. IfNone o (
        IsAccepted (map file_of files.now) (map source program.now.units.items) × IsWithinLimits (map source program.now.units.items))) }
{
    match accepted(alloc, program) {
        Ok(_checked) => {}
        Err(Refusal::Because { cause }) => return Ok(Some(fault_note(alloc, &cause, files)?)),
        Err(Refusal::NoMemory) => return Err(NoMemory),
    }
    match within_limits(alloc, program) {
        Ok(()) => Ok(None),
        Err(Refusal::Because { cause }) => Ok(Some(passed_note(alloc, cause)?)),
        Err(Refusal::NoMemory) => Err(NoMemory),
    }
}

/// Why sources are no accepted program within the limits; none where they are one.
pub fn program_note(alloc: Global, files: &[SourceFile<'_>]) -> Result<Option<Vec<u8>>, NoMemory>
    ensures told { IfOk result (λ o. IfSome o (λ v. IsProgramNote (map file_of files.now) v.items)) }
    ensures none { IfOk result (λ o. IfNone o ((units : List Source) × IsAccepted (map file_of files.now) units × IsWithinLimits units)) }
{
    match linked(alloc, files) {
        Ok(program) => linked_note(alloc, &program, files),
        Err(Refusal::Because { cause }) => Ok(Some(fault_note(alloc, &cause, files)?)),
        Err(Refusal::NoMemory) => Err(NoMemory),
    }
}
