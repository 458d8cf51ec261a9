//! How the program ends where it says a line, and runs nothing.

ghost use Rattle.std.specs.Prelude.{◌≡◌, ◌≢◌, ◌⊎◌, ◌<◌, ◌≤◌, ℕ, List, Option, Some, map};
ghost use Rattle.orca_io.specs.Causes.{Rose};
ghost use Rattle.orca_io.specs.Files.{File};
ghost use Rattle.orca_io.specs.Reading.{FileRead, ReadSince, had};
ghost use Rattle.command_files.specs.Stopped.{StoppedAt};
ghost use Rattle.command_files.specs.Loaded.{IsFailed, IsLoadFault};
ghost use Rattle.command_files.specs.Sources.{AreRead, Word};
ghost use Rattle.command_output.specs.Printed.{HasStopped};
ghost use Rattle.orca_answers.specs.Choosing.{Chooser};
ghost use Rattle.orca_answers.specs.Endings.{IsAnswer};
ghost use Rattle.orca_answers.specs.Job.{files_in, script_in};
ghost use Rattle.orca_answers.specs.Programs.{IsProgramFault};
ghost use Rattle.orca_answers.specs.Scripts.{HasScriptSince, IsScriptFault, IsUnreadable};

use crate::program::ProgramFault;
use crate::script::ScriptFault;
use command_files::LoadFault;
use command_output::{FINISHED, READ_FAULT, WRITE_FAULT, print_ending};
use orca_io::Sink;
use std::alloc::Global;

/// Prints why files weren't read.
pub fn said_unread<K: Sink>(alloc: Global, out: &mut K, fault: LoadFault<'_>) -> u8
    ensures said { (policy : Chooser) (words : List Word) (told : Option (List File)) (before now : ℕ) (old new : List FileRead)
        (files : List Word) → files_in words ≡ Some files →
        IsLoadFault told (StoppedAt before now old new) files fault.entry →
        IsAnswer policy words told old new (StoppedAt before now old new) (K.told out.old) (K.told out.new) result policy.told }
    ensures unfinished { result ≢ FINISHED }
    ensures status { IsFailed fault.entry → (result ≡ READ_FAULT) ⊎ HasStopped result }
    ensures later { K.faults out.old ≤ K.faults out.new }
    ensures failed { result ≡ WRITE_FAULT → Rose (K.faults out.old) (K.faults out.new) }
    ensures stopped { K.faults out.old < K.faults out.new → HasStopped result }
{
    print_ending(out, fault.line(alloc), fault.status())
}

/// Prints why texts are no accepted program.
pub fn said_refused<K: Sink>(alloc: Global, out: &mut K, fault: &ProgramFault) -> u8
    ensures said { (policy : Chooser) (words : List Word) (told : Option (List File)) (before now : ℕ) (old new : List FileRead)
        (files : List Word) (sources : List File) →
        files_in words ≡ Some files → AreRead told files sources → HasScriptSince told words old new sources →
        IsProgramFault sources fault.now →
        IsAnswer policy words told old new (StoppedAt before now old new) (K.told out.old) (K.told out.new) result policy.told }
    ensures unfinished { result ≢ FINISHED }
    ensures later { K.faults out.old ≤ K.faults out.new }
    ensures failed { result ≡ WRITE_FAULT → Rose (K.faults out.old) (K.faults out.new) }
    ensures stopped { K.faults out.old < K.faults out.new → HasStopped result }
{
    print_ending(out, fault.line(alloc), fault.status())
}

/// Prints why the script of a run wasn't had.
pub fn said_unscripted<K: Sink>(alloc: Global, out: &mut K, fault: ScriptFault<'_>) -> u8
    ensures said { (policy : Chooser) (words : List Word) (told : Option (List File)) (before now : ℕ) (old new : List FileRead)
        (between : List FileRead) (files : List Word) (sources : List File) (script : Word) →
        files_in words ≡ Some files → AreRead told files sources → ReadSince old between (map had sources) →
        script_in words ≡ Some script → IsScriptFault told between new (StoppedAt before now old new) script fault.entry →
        IsAnswer policy words told old new (StoppedAt before now old new) (K.told out.old) (K.told out.new) result policy.told }
    ensures status { IsUnreadable fault.entry → (result ≡ READ_FAULT) ⊎ HasStopped result }
    ensures later { K.faults out.old ≤ K.faults out.new }
    ensures failed { result ≡ WRITE_FAULT → Rose (K.faults out.old) (K.faults out.new) }
    ensures stopped { K.faults out.old < K.faults out.new → HasStopped result }
{
    print_ending(out, fault.line(alloc), fault.status())
}
