//! What is said of a history.

ghost use Rattle.std.specs.Prelude.{◌≡◌, ◌⊎◌, ◌<◌, ◌≤◌, ◌∷◌, ◌++◌, [], ℕ, List, Option, Some, map};
ghost use Rattle.orca_io.specs.Causes.{Rose};
ghost use Rattle.orca_io.specs.Files.{File};
ghost use Rattle.orca_io.specs.Reading.{FileRead, HasAsked};
ghost use Rattle.command_files.specs.Stopped.{StoppedAt};
ghost use Rattle.command_files.specs.Replays.{HasRead};
ghost use Rattle.command_files.specs.Sources.{Word};
ghost use Rattle.command_output.specs.Printed.{HasStopped};
ghost use Rattle.replay_command.specs.Endings.{IsReplayAnswer};
ghost use Rattle.orca_answers.specs.Choosing.{Chooser};
ghost use Rattle.orca_answers.specs.Endings.{IsAnswer};
ghost use Rattle.orca_answers.specs.Job.{deed_in, replays};
ghost use Rattle.orca_answers.specs.Programs.{IsProgramFault};

use crate::program::{ProgramFault, linked_program, machine_of};
use command_files::replay_files;
use command_output::{NO_MEMORY, READ_FAULT, WRITE_FAULT};
use orca_base::Refusal;
use orca_io::{Shelf, Sink};
use replay_command::{judge, say_limited, say_refused, say_unread};
use std::alloc::Global;

// Says why texts are no accepted program, and gives the status.
fn say_unfit<K: Sink>(alloc: Global, out: &mut K, fault: &ProgramFault) -> u8
    ensures said { (told : Option (List File)) (before now : ℕ) (old new : List FileRead) (history : Word) (files : List Word)
        (sources : List File) (text : List ℕ) → HasRead told history files sources text → IsProgramFault sources fault.now →
        IsReplayAnswer told (StoppedAt before now old new) history files (K.told out.old) (K.told out.new) result }
    ensures later { K.faults out.old ≤ K.faults out.new }
    ensures failed { result ≡ WRITE_FAULT → Rose (K.faults out.old) (K.faults out.new) }
    ensures stopped { K.faults out.old < K.faults out.new → HasStopped result }
{
    match fault {
        ProgramFault::Refused { fault } => say_refused(alloc, out, fault),
        ProgramFault::Limited { passed } => say_limited(alloc, out, *passed),
    }
}

// Says whether the history in a file is one of the program in others, or why that can't be said, and gives the status.
fn replayed<F: Shelf, K: Sink>(
    alloc: Global,
    history: &str,
    files: &[&str],
    shelf: &mut F,
    out: &mut K,
) -> u8
    ensures said { IsReplayAnswer (F.told shelf.old)
        (StoppedAt (F.faults shelf.old) (F.faults shelf.new) (F.reads shelf.old) (F.reads shelf.new))
        history.now (map (λ f. f.now) files.now) (K.told out.old) (K.told out.new) result }
    ensures same { F.told shelf.new ≡ F.told shelf.old }
    ensures read { F.faults shelf.old ≤ F.faults shelf.new }
    ensures asked { HasAsked (F.may_fail shelf.old) (map (λ f. f.now) files.now ++ history.now ∷ [])
        (F.reads shelf.old) (F.reads shelf.new) }
    ensures may { F.may_fail shelf.new ≡ F.may_fail shelf.old }
    ensures read_fault { F.faults shelf.old < F.faults shelf.new → (result ≡ READ_FAULT) ⊎ HasStopped result }
    ensures later { K.faults out.old ≤ K.faults out.new }
    ensures failed { result ≡ WRITE_FAULT → Rose (K.faults out.old) (K.faults out.new) }
    ensures stopped { K.faults out.old < K.faults out.new → HasStopped result }
{
    let read = match replay_files(alloc, shelf, history, files) {
        Ok(read) => read,
        Err(Refusal::Because { cause }) => return say_unread(alloc, out, cause),
        Err(Refusal::NoMemory) => return NO_MEMORY,
    };
    let program = match linked_program(alloc, &read.sources) {
        Ok(program) => program,
        Err(Refusal::Because { cause }) => return say_unfit(alloc, out, &cause),
        Err(Refusal::NoMemory) => return NO_MEMORY,
    };
    let machine = match machine_of(alloc, &program) {
        Ok(machine) => machine,
        Err(Refusal::Because { cause }) => return say_unfit(alloc, out, &cause),
        Err(Refusal::NoMemory) => return NO_MEMORY,
    };
    judge(
        alloc,
        out,
        &machine,
        machine.tables.checked(),
        &read.history,
    )
}

/// Says whether the history in a file is one of the program in others, or why that can't be said. Nothing is kept.
pub fn replay_history<F: Shelf, K: Sink>(
    alloc: Global,
    history: &str,
    files: &[&str],
    shelf: &mut F,
    out: &mut K,
) -> u8
    ensures said { (policy : Chooser) (words : List Word) → deed_in words ≡ Some (replays history.now (map (λ f. f.now) files.now)) →
        IsAnswer policy words (F.told shelf.old) (F.reads shelf.old) (F.reads shelf.new)
        (StoppedAt (F.faults shelf.old) (F.faults shelf.new) (F.reads shelf.old) (F.reads shelf.new))
        (K.told out.old) (K.told out.new) result policy.told }
    ensures same { F.told shelf.new ≡ F.told shelf.old }
    ensures read { F.faults shelf.old ≤ F.faults shelf.new }
    ensures asked { HasAsked (F.may_fail shelf.old) (map (λ f. f.now) files.now ++ history.now ∷ [])
        (F.reads shelf.old) (F.reads shelf.new) }
    ensures may { F.may_fail shelf.new ≡ F.may_fail shelf.old }
    ensures read_fault { F.faults shelf.old < F.faults shelf.new → (result ≡ READ_FAULT) ⊎ HasStopped result }
    ensures later { K.faults out.old ≤ K.faults out.new }
    ensures failed { result ≡ WRITE_FAULT → Rose (K.faults out.old) (K.faults out.new) }
    ensures stopped { K.faults out.old < K.faults out.new → HasStopped result }
{
    replayed(alloc, history, files, shelf, out)
}
