//! The end of `replay` where there is a program: what is said of the history.

ghost use Rattle.std.specs.Prelude.{◌≡◌, ◌<◌, ◌≤◌, ℕ, List, Option, length, map};
ghost use Rattle.orca_base.specs.declared.limits.TheConstants.{HISTORY_BYTES};
ghost use Rattle.orca_io.specs.Causes.{Rose};
ghost use Rattle.orca_io.specs.Files.{File};
ghost use Rattle.orca_io.specs.Reading.{FileRead};
ghost use Rattle.command_files.specs.Stopped.{StoppedAt};
ghost use Rattle.link_rules.specs.Units.{source};
ghost use Rattle.accepted_law.specs.Limits.{IsWithinLimits};
ghost use Rattle.orca_front.specs.Sources.{IsAccepted};
ghost use Rattle.meaning_rules.specs.Meanings.{computes_of, performs_of};
ghost use Rattle.command_output.specs.Printed.{HasStopped};
ghost use Rattle.command_files.specs.Replays.{HasRead};
ghost use Rattle.command_files.specs.Sources.{Word};
ghost use Rattle.replay_command.specs.Endings.{IsReplayAnswer};

use command_output::{NO_MEMORY, WRITE_FAULT};
use history_commands::say_answer;
use orca_io::Sink;
use program_names::names;
use std::alloc::Global;
use type_decls::Checked;
use value_core::Processor;

/// Says what the text is as a history of the checked program, and gives the status: it is one, or the first line that isn't is told, with the
/// first part of it that differs.
///
/// The machine performs and computes the program in the source's meaning; the program keeps within the limits, and the text within that of a
/// history. There is no limit of lines.
pub fn judge<P: Processor, K: Sink>(
    alloc: Global,
    out: &mut K,
    machine: &P,
    checked: &Checked<'_>,
    text: &[u8],
) -> u8
    requires performs { P.performs machine.now ≡ performs_of (map source checked.now.program.now.units.items) }
    requires computes { P.computes machine.now ≡ computes_of (map source checked.now.program.now.units.items) }
    requires within { IsWithinLimits (map source checked.now.program.now.units.items) }
    requires fits { length text.now ≤ HISTORY_BYTES }
    ensures said { (told : Option (List File)) (before now : ℕ) (old new : List FileRead) (history : Word) (files : List Word)
        (sources : List File) → HasRead told history files sources text.now → IsAccepted sources (map source checked.now.program.now.units.items) →
        IsReplayAnswer told (StoppedAt before now old new) history files (K.told out.old) (K.told out.new) result }
    ensures later { K.faults out.old ≤ K.faults out.new }
    ensures failed { result ≡ WRITE_FAULT → Rose (K.faults out.old) (K.faults out.new) }
    ensures stopped { K.faults out.old < K.faults out.new → HasStopped result }
{
    match names(alloc, checked) {
        Ok(table) => say_answer(alloc, out, machine, &table, text),
        Err(_) => NO_MEMORY,
    }
}
