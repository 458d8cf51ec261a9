//! The text of a run's book.

ghost use Rattle.std.specs.Prelude.{◌≡◌, ◌≤◌, All, IsErrOf, OnOk};
ghost use Rattle.orca_io.specs.Causes.{Rose};
ghost use Rattle.history_text.specs.Sound.{AreLines, AreTables, IsPrintable};
ghost use Rattle.history_text.specs.Spelling.{history_text};
ghost use Rattle.command_output.specs.Printed.{Grew, WroteOf};

use history_text::{Names, print_line};
use orca_io::{Sink, SinkFault};
use std::alloc::Global;
use value_core::Line;

/// Prints the text of lines, one put a line, up to the first put that fails (docs/FORMATS.md, Histories). The lines are sound, and their names
/// are known.
///
/// After a put that failed the lines in front of its line stand there, and a front of that. Where all were printed they are lines that are read
/// back (`answer_law`).
pub fn print_lines<K: Sink>(
    alloc: Global,
    out: &mut K,
    names: &Names,
    lines: &[Line],
) -> Result<(), SinkFault>
    requires tables { AreTables names.now }
    requires lines { All (IsPrintable names.now) lines.now }
    ensures wrote { Grew (K.told out.old) (K.told out.new) (WroteOf result (history_text names.now lines.now)) }
    ensures are { OnOk result (AreLines names.now lines.now) }
    ensures later { K.faults out.old ≤ K.faults out.new }
    ensures failed { IsErrOf result SinkFault.Failed → Rose (K.faults out.old) (K.faults out.new) }
    ensures quiet { OnOk result (K.faults out.new ≡ K.faults out.old) }
{
    'lines: for line in lines {
        let text = print_line(alloc, names, line)?;
        out.put(text.as_bytes())?;
    }
    Ok(())
}
