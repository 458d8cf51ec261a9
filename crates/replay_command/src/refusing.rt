//! The ends of `replay` before a history is judged.

ghost use Rattle.std.specs.Prelude.{◌≡◌, ◌⊎◌, ◌<◌, ◌≤◌, ℕ, List, Option};
ghost use Rattle.orca_io.specs.Causes.{Rose};
ghost use Rattle.orca_io.specs.Files.{File};
ghost use Rattle.orca_io.specs.Reading.{FileRead};
ghost use Rattle.command_files.specs.Stopped.{StoppedAt};
ghost use Rattle.link_rules.specs.Units.{Source};
ghost use Rattle.orca_front.specs.Sources.{IsAccepted, IsFault};
ghost use Rattle.program_limits.specs.Passed.{Passes};
ghost use Rattle.command_output.specs.Printed.{HasStopped};
ghost use Rattle.command_files.specs.Replays.{HasRead, IsReplayFault, IsUnreadable};
ghost use Rattle.command_files.specs.Sources.{Word};
ghost use Rattle.replay_command.specs.Endings.{IsReplayAnswer};

use crate::lines::passed_line;
use command_files::{ReplayFault, front_status};
use command_output::{LIMIT, READ_FAULT, WRITE_FAULT, print_ending};
use orca_front::{FrontFault, fault_line};
use orca_io::Sink;
use program_limits::PassedLimit;
use std::alloc::Global;

/// Says why the files weren't read, and gives the status.
pub fn say_unread<K: Sink>(alloc: Global, out: &mut K, fault: ReplayFault<'_>) -> u8
    ensures said { (told : Option (List File)) (before now : ℕ) (old new : List FileRead) (history : Word) (files : List Word) →
        IsReplayFault told (StoppedAt before now old new) history files fault.entry →
        IsReplayAnswer told (StoppedAt before now old new) history files (K.told out.old) (K.told out.new) result }

    // A read fault is told, unless its line couldn't be.
    ensures status { IsUnreadable fault.entry → (result ≡ READ_FAULT) ⊎ HasStopped result }
    ensures later { K.faults out.old ≤ K.faults out.new }
    ensures failed { result ≡ WRITE_FAULT → Rose (K.faults out.old) (K.faults out.new) }
    ensures stopped { K.faults out.old < K.faults out.new → HasStopped result }
{
    print_ending(out, fault.line(alloc), fault.status())
}

/// Says why the texts, all of which were read, are no program that is accepted, and gives the status.
pub fn say_refused<K: Sink>(alloc: Global, out: &mut K, fault: &FrontFault) -> u8
    ensures said { (told : Option (List File)) (before now : ℕ) (old new : List FileRead) (history : Word) (files : List Word)
        (sources : List File) (text : List ℕ) → HasRead told history files sources text → IsFault sources fault.now →
        IsReplayAnswer told (StoppedAt before now old new) history files (K.told out.old) (K.told out.new) result }
    ensures later { K.faults out.old ≤ K.faults out.new }
    ensures failed { result ≡ WRITE_FAULT → Rose (K.faults out.old) (K.faults out.new) }
    ensures stopped { K.faults out.old < K.faults out.new → HasStopped result }
{
    print_ending(out, fault_line(alloc, fault), front_status(fault))
}

/// Says which limit the program passes, which is accepted else, and gives the status.
pub fn say_limited<K: Sink>(alloc: Global, out: &mut K, passed: PassedLimit) -> u8
    ensures said { (told : Option (List File)) (before now : ℕ) (old new : List FileRead) (history : Word) (files : List Word)
        (sources : List File) (text : List ℕ) (units : List Source) → HasRead told history files sources text → IsAccepted sources units → Passes units passed →
        IsReplayAnswer told (StoppedAt before now old new) history files (K.told out.old) (K.told out.new) result }
    ensures later { K.faults out.old ≤ K.faults out.new }
    ensures failed { result ≡ WRITE_FAULT → Rose (K.faults out.old) (K.faults out.new) }
    ensures stopped { K.faults out.old < K.faults out.new → HasStopped result }
{
    print_ending(out, passed_line(alloc, passed), LIMIT)
}
