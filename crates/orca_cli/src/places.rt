//! The places of a history's lines.

ghost use Rattle.std.specs.Prelude.{◌≡◌, ◌<◌, ◌≤◌, IfOk, IsErrOf, OnOk, Some, length, slice_get, string_bytes};
ghost use Rattle.orca_io.specs.Causes.{Rose};
ghost use Rattle.command_output.specs.Printed.{Grew, WroteOf};
ghost use Rattle.world_places.specs.Text.{place_text, placed_text, places_text};
ghost use Rattle.orca_cli.specs.Standings.{places_said};

use orca_base::NoMemory;
use orca_io::{Sink, SinkFault};
use run_loop::PlaceNote;
use std::alloc::Global;
use value_core::Line;

/// Prints the places of these lines, one put a line, up to the first put that fails, where they are asked for.
pub fn print_places<K: Sink>(
    alloc: Global,
    out: &mut K,
    asked: bool,
    book: &[Line],
    notes: &[PlaceNote],
) -> Result<(), SinkFault>
    ensures wrote { Grew (K.told out.old) (K.told out.new) (WroteOf result (places_said asked book.now notes.now)) }
    ensures later { K.faults out.old ≤ K.faults out.new }
    ensures failed { IsErrOf result SinkFault.Failed → Rose (K.faults out.old) (K.faults out.new) }
    ensures quiet { OnOk result (K.faults out.new ≡ K.faults out.old) }
{
    if asked {
        return print_all(alloc, out, book, notes);
    }
    Ok(())
}

// Prints them.
fn print_all<K: Sink>(
    alloc: Global,
    out: &mut K,
    book: &[Line],
    notes: &[PlaceNote],
) -> Result<(), SinkFault>
    ensures wrote { Grew (K.told out.old) (K.told out.new) (WroteOf result (places_text book.now notes.now)) }
    ensures later { K.faults out.old ≤ K.faults out.new }
    ensures failed { IsErrOf result SinkFault.Failed → Rose (K.faults out.old) (K.faults out.new) }
    ensures quiet { OnOk result (K.faults out.new ≡ K.faults out.old) }
{
    let count = book.len().min(notes.len());
    'lines: for at in 0..count {
        let note = note_at(notes, at);
        let text = place_line(alloc, &book[at], note)?;
        out.put(&text)?;
    }
    Ok(())
}

// The place of this number, which there is.
fn note_at(notes: &[PlaceNote], at: usize) -> PlaceNote
    requires { at < length notes.now }
    ensures { Some result ≡ slice_get notes.now at }
{
    notes[at]
}

// The line of one, by its place.
fn place_line(alloc: Global, line: &Line, note: PlaceNote) -> Result<Vec<u8>, NoMemory>
    ensures { IfOk result (λ text. text.items ≡ placed_text line.now note) }
{
    let process = line.process.0;
    let call = line.call.0;
    let place = place_text(alloc, note)?;
    let said = place.as_str();
    let text = format!(in alloc; "{process} {call} {said}\n")?;
    Ok(text.into_bytes())
}

// What is said of a place.
fn place_text(alloc: Global, note: PlaceNote) -> Result<String, NoMemory>
    ensures { IfOk result (λ text. string_bytes text ≡ place_text note) }
{
    match note {
        PlaceNote::Entry { number } => Ok(format!(in alloc; "entry {number}")?),
        PlaceNote::Read { number } => Ok(format!(in alloc; "read at {number}")?),
        PlaceNote::Single { number } => Ok(format!(in alloc; "single at {number}")?),
    }
}
