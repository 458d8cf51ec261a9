//! Whether the program in the files is accepted.

ghost use Rattle.std.specs.Prelude.{◌≡◌, ◌⊎◌, ◌<◌, ◌≤◌, List, OnOk, Some, map};
ghost use Rattle.orca_base.specs.Refusal.{IfBecause};
ghost use Rattle.orca_io.specs.Causes.{Rose};
ghost use Rattle.orca_io.specs.Reading.{HasAsked};
ghost use Rattle.command_files.specs.Stopped.{StoppedAt};
ghost use Rattle.link_rules.specs.Units.{Source};
ghost use Rattle.accepted_law.specs.Limits.{IsWithinLimits};
ghost use Rattle.orca_front.specs.Sources.{IsAccepted, file_of};
ghost use Rattle.command_files.specs.Sources.{Word};
ghost use Rattle.command_output.specs.Printed.{HasStopped};
ghost use Rattle.orca_answers.specs.Choosing.{Chooser};
ghost use Rattle.orca_answers.specs.Endings.{IsAnswer};
ghost use Rattle.orca_answers.specs.Job.{checks, deed_in};
ghost use Rattle.orca_answers.specs.Programs.{IsProgramFault};

use crate::ending::{said_refused, said_unread};
use crate::lines::ok_line;
use crate::program::{ProgramFault, judged, linked_program};
use command_files::sources;
use command_output::{FINISHED, NO_MEMORY, READ_FAULT, WRITE_FAULT, print_ending};
use orca_base::Refusal;
use orca_front::SourceFile;
use orca_io::{Shelf, Sink};
use std::alloc::Global;

// Whether sources are an accepted program, or why not.
fn judged_sources(alloc: Global, files: &[SourceFile<'_>]) -> Result<(), Refusal<ProgramFault>>
    ensures accepted { OnOk result ((units : List Source) × IsAccepted (map file_of files.now) units × IsWithinLimits units) }
    ensures refused { IfBecause result (IsProgramFault (map file_of files.now)) }
{
    match linked_program(alloc, files) {
        Ok(program) => judged(alloc, &program),
        Err(refusal) => Err(refusal),
    }
}

/// Says whether the program in the files is accepted, or why not. Nothing is kept.
pub fn check_files<F: Shelf, K: Sink>(
    alloc: Global,
    files: &[&str],
    shelf: &mut F,
    out: &mut K,
) -> u8
    ensures said { (policy : Chooser) (words : List Word) → deed_in words ≡ Some (checks (map (λ f. f.now) files.now)) →
        IsAnswer policy words (F.told shelf.old) (F.reads shelf.old) (F.reads shelf.new)
        (StoppedAt (F.faults shelf.old) (F.faults shelf.new) (F.reads shelf.old) (F.reads shelf.new))
        (K.told out.old) (K.told out.new) result policy.told }
    ensures same { F.told shelf.new ≡ F.told shelf.old }
    ensures read { F.faults shelf.old ≤ F.faults shelf.new }
    ensures asked { HasAsked (F.may_fail shelf.old) (map (λ f. f.now) files.now) (F.reads shelf.old) (F.reads shelf.new) }
    ensures may { F.may_fail shelf.new ≡ F.may_fail shelf.old }
    ensures read_fault { F.faults shelf.old < F.faults shelf.new → (result ≡ READ_FAULT) ⊎ HasStopped result }
    ensures later { K.faults out.old ≤ K.faults out.new }
    ensures failed { result ≡ WRITE_FAULT → Rose (K.faults out.old) (K.faults out.new) }
    ensures stopped { K.faults out.old < K.faults out.new → HasStopped result }
{
    let sources = match sources(alloc, shelf, files) {
        Ok(sources) => sources,
        Err(Refusal::Because { cause }) => return said_unread(alloc, out, cause),
        Err(Refusal::NoMemory) => return NO_MEMORY,
    };
    match judged_sources(alloc, &sources) {
        Ok(()) => print_ending(out, ok_line(alloc), FINISHED),
        Err(Refusal::Because { cause }) => said_refused(alloc, out, &cause),
        Err(Refusal::NoMemory) => NO_MEMORY,
    }
}
