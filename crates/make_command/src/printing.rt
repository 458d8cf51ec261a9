//! What `make` prints: the program for `make --source`, and the line of its run.

ghost use Rattle.std.specs.Prelude.{◌≡◌, ◌≤◌, IfOk, IsErrOf, OnOk, map, string_bytes};
ghost use Rattle.orca_io.specs.Causes.{Rose};
ghost use Rattle.command_output.specs.Printed.{Grew, WroteOf};
ghost use Rattle.generated_program.specs.Program.{ended, program_text, text_of};
ghost use Rattle.make_command.specs.Summary.{made_line, summary_line};

use crate::summary::{Summary, made_line};
use generated_program::program_lines;
use orca_base::NoMemory;
use orca_io::{Sink, SinkFault};
use std::alloc::Global;
use world_rules::Standing;

// A line with its line feed.
fn ended(alloc: Global, line: &str) -> Result<Vec<u8>, NoMemory>
    ensures { IfOk result (λ text. text.items ≡ ended line.now) }
{
    let mut text = Vec::from_slice(alloc, line.as_bytes())?;
    text.push(b'\n')?;
    Ok(text)
}

// Prints lines, each with its line feed in one put, up to the first put that fails.
fn print_lines<K: Sink>(alloc: Global, out: &mut K, lines: &[String]) -> Result<(), SinkFault>
    ensures wrote { Grew (K.told out.old) (K.told out.new) (WroteOf result (text_of (map string_bytes lines.now))) }
    ensures later { K.faults out.old ≤ K.faults out.new }
    ensures failed { IsErrOf result SinkFault.Failed → Rose (K.faults out.old) (K.faults out.new) }
    ensures quiet { OnOk result (K.faults out.new ≡ K.faults out.old) }
{
    'lines: for line in lines {
        let text = ended(alloc, line.as_str())?;
        out.put(&text)?;
    }
    Ok(())
}

/// Prints the program of a number (docs/FORMATS.md, The generated program), one put a line, up to the first put that fails.
pub fn print_program<K: Sink>(alloc: Global, out: &mut K, number: u64) -> Result<(), SinkFault>
    ensures wrote { Grew (K.told out.old) (K.told out.new) (WroteOf result (program_text number)) }
    ensures later { K.faults out.old ≤ K.faults out.new }
    ensures failed { IsErrOf result SinkFault.Failed → Rose (K.faults out.old) (K.faults out.new) }
    ensures quiet { OnOk result (K.faults out.new ≡ K.faults out.old) }
{
    let lines = program_lines(alloc, number)?;
    print_lines(alloc, out, &lines)
}

/// Prints the line of a run that stands so, where there is one, in one put: the summary where it has finished, and else the line of its
/// ending (docs/FORMATS.md, The generated program).
pub fn print_made<K: Sink>(
    alloc: Global,
    out: &mut K,
    standing: Standing,
    summary: &Summary<'_>,
    ending: Vec<u8>,
) -> Result<(), SinkFault>
    ensures wrote { Grew (K.told out.old) (K.told out.new) (WroteOf result (made_line standing
        (summary_line summary.now.number summary.now.processes summary.now.entries summary.now.book.now) ending.items)) }
    ensures later { K.faults out.old ≤ K.faults out.new }
    ensures failed { IsErrOf result SinkFault.Failed → Rose (K.faults out.old) (K.faults out.new) }
    ensures quiet { OnOk result (K.faults out.new ≡ K.faults out.old) }
{
    let line = made_line(alloc, standing, summary, ending)?;
    put_some(out, &line)
}

// Puts a text, unless it is empty.
fn put_some<K: Sink>(out: &mut K, text: &[u8]) -> Result<(), SinkFault>
    ensures wrote { Grew (K.told out.old) (K.told out.new) (WroteOf result text.now) }
    ensures later { K.faults out.old ≤ K.faults out.new }
    ensures failed { IsErrOf result SinkFault.Failed → Rose (K.faults out.old) (K.faults out.new) }
    ensures quiet { OnOk result (K.faults out.new ≡ K.faults out.old) }
{
    if text.is_empty() {
        return Ok(());
    }
    out.put(text)
}
