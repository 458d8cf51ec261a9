//! What is listed of the program in the files.

ghost use Rattle.std.specs.Prelude.{◌≡◌, ◌⊎◌, ◌<◌, ◌≤◌, List, Some, map, IfOk};
ghost use Rattle.orca_base.specs.Refusal.{IfBecause};
ghost use Rattle.orca_io.specs.Causes.{Rose};
ghost use Rattle.orca_io.specs.Files.{File};
ghost use Rattle.orca_io.specs.Reading.{HasAsked};
ghost use Rattle.command_files.specs.Stopped.{StoppedAt};
ghost use Rattle.link_rules.specs.Units.{Source, source};
ghost use Rattle.accepted_law.specs.Limits.{IsWithinLimits};
ghost use Rattle.orca_front.specs.Sources.{AreUnits, IsAccepted, file_of};
ghost use Rattle.program_bodies.specs.Codes.{sources};
ghost use Rattle.code_rules.specs.Program.{program_code};
ghost use Rattle.code_command.specs.Listings.{IsListing};
ghost use Rattle.command_files.specs.Sources.{Word};
ghost use Rattle.command_output.specs.Printed.{HasStopped};
ghost use Rattle.orca_answers.specs.Choosing.{Chooser};
ghost use Rattle.orca_answers.specs.Endings.{IsAnswer};
ghost use Rattle.orca_answers.specs.Job.{deed_in, lists};
ghost use Rattle.orca_answers.specs.Listings.{IsListed};
ghost use Rattle.orca_answers.specs.Programs.{IsProgramFault};

use crate::ending::{said_refused, said_unread};
use crate::program::{ProgramFault, linked_program, typed};
use code_command::listing_of;
use command_files::sources;
use command_output::{FINISHED, NO_MEMORY, READ_FAULT, WRITE_FAULT, print_ending};
use orca_base::{Refusal, refuse};
use orca_front::SourceFile;
use orca_io::{Shelf, Sink};
use orca_modules::Program;
use std::alloc::Global;
use type_decls::Checked;

/// What is listed of a program.
#[derive(Clone, Copy, Debug)]
pub enum Listed {
    /// The code that it is compiled to, with the lines of its sources before their code or without.
    Code { with_source: bool },
}

// The listing of a checked program's code, where it keeps within the limits.
fn code_listing(
    alloc: Global,
    with_source: bool,
    checked: Checked<'_>,
    files: &[SourceFile<'_>],
) -> Result<Vec<u8>, Refusal<ProgramFault>>
    ensures listed { IfOk result (λ text. IsListing with_source (program_code (sources checked.entry)) text.items) }
    ensures within { IfOk result (λ _. IsWithinLimits (sources checked.entry)) }
    ensures refused { (told : List File) → IsAccepted told (sources checked.entry) → IfBecause result (IsProgramFault told) }
{
    match listing_of(alloc, with_source, checked, files) {
        Ok(text) => Ok(text),
        Err(Refusal::Because { cause }) => refuse(ProgramFault::Limited { passed: cause }),
        Err(Refusal::NoMemory) => Err(Refusal::NoMemory),
    }
}

// This of a checked program, where it keeps within the limits.
fn checked_listing(
    alloc: Global,
    what: Listed,
    checked: Checked<'_>,
    files: &[SourceFile<'_>],
) -> Result<Vec<u8>, Refusal<ProgramFault>>
    ensures listed { IfOk result (λ text. IsListed what (sources checked.entry) text.items) }
    ensures within { IfOk result (λ _. IsWithinLimits (sources checked.entry)) }
    ensures refused { (told : List File) → IsAccepted told (sources checked.entry) → IfBecause result (IsProgramFault told) }
{
    match what {
        Listed::Code { with_source } => code_listing(alloc, with_source, checked, files),
    }
}

// This of the program that sources link to, where it is accepted, or why it isn't.
fn linked_listing(
    alloc: Global,
    what: Listed,
    program: &Program,
    files: &[SourceFile<'_>],
) -> Result<Vec<u8>, Refusal<ProgramFault>>
    ensures listed { IfOk result (λ text. IsListed what (map source program.now.units.items) text.items) }
    ensures within { IfOk result (λ _. IsWithinLimits (map source program.now.units.items)) }
    ensures accepted { (told : List File) → AreUnits told (map source program.now.units.items) →
        IfOk result (λ _. IsAccepted told (map source program.now.units.items)) }
    ensures refused { (told : List File) → AreUnits told (map source program.now.units.items) → IfBecause result (IsProgramFault told) }
{
    match typed(alloc, program) {
        Ok(checked) => checked_listing(alloc, what, checked, files),
        Err(refusal) => Err(refusal),
    }
}

// This of the program that sources are, where it is accepted, or why it isn't.
fn program_listing(
    alloc: Global,
    what: Listed,
    files: &[SourceFile<'_>],
) -> Result<Vec<u8>, Refusal<ProgramFault>>
    ensures listed { IfOk result (λ text. (units : List Source) × IsAccepted (map file_of files.now) units × IsWithinLimits units ×
        IsListed what units text.items) }
    ensures refused { IfBecause result (IsProgramFault (map file_of files.now)) }
{
    match linked_program(alloc, files) {
        Ok(program) => linked_listing(alloc, what, &program, files),
        Err(refusal) => Err(refusal),
    }
}

/// Lists this of the program in the files, or says why there is none, as `check` does. Nothing is kept.
pub fn list_program<F: Shelf, K: Sink>(
    alloc: Global,
    what: Listed,
    files: &[&str],
    shelf: &mut F,
    out: &mut K,
) -> u8
    ensures said { (policy : Chooser) (words : List Word) → deed_in words ≡ Some (lists what (map (λ f. f.now) files.now)) →
        IsAnswer policy words (F.told shelf.old) (F.reads shelf.old) (F.reads shelf.new)
        (StoppedAt (F.faults shelf.old) (F.faults shelf.new) (F.reads shelf.old) (F.reads shelf.new))
        (K.told out.old) (K.told out.new) result policy.told }
    ensures same { F.told shelf.new ≡ F.told shelf.old }
    ensures read { F.faults shelf.old ≤ F.faults shelf.new }
    ensures asked { HasAsked (F.may_fail shelf.old) (map (λ f. f.now) files.now) (F.reads shelf.old) (F.reads shelf.new) }
    ensures may { F.may_fail shelf.new ≡ F.may_fail shelf.old }
    ensures read_fault { F.faults shelf.old < F.faults shelf.new → (result ≡ READ_FAULT) ⊎ HasStopped result }
    ensures later { K.faults out.old ≤ K.faults out.new }
    ensures failed { result ≡ WRITE_FAULT → Rose (K.faults out.old) (K.faults out.new) }
    ensures stopped { K.faults out.old < K.faults out.new → HasStopped result }
{
    let sources = match sources(alloc, shelf, files) {
        Ok(sources) => sources,
        Err(Refusal::Because { cause }) => return said_unread(alloc, out, cause),
        Err(Refusal::NoMemory) => return NO_MEMORY,
    };
    match program_listing(alloc, what, &sources) {
        Ok(text) => print_ending(out, Ok(text), FINISHED),
        Err(Refusal::Because { cause }) => said_refused(alloc, out, &cause),
        Err(Refusal::NoMemory) => NO_MEMORY,
    }
}
