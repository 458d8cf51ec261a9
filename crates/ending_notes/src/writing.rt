//! The note on an ending, written.

ghost use Rattle.std.specs.Prelude.{map, string_bytes};
ghost use Rattle.command_output.specs.Printed.{Grew};
ghost use Rattle.kept_files.specs.Kept.{kept_of};
ghost use Rattle.ending_notes.specs.Endings.{IsNoted, IsWritten};

use crate::ending::ending_note;
use crate::usage::not_text_note;
use command_output::USAGE;
use kept_files::KeptFile;
use orca_io::{Sink, SinkFault};
use std::alloc::Global;

/// Writes the note on an ending (`ending_note`) behind what the sink has, in one put; nothing where none is owed. Where the words weren't all
/// UTF-8 there are none, and the note on a wrong command says so.
///
/// After `Failed` a front of the note was written, and after `NoMemory` nothing.
pub fn write_note<K: Sink>(
    alloc: Global,
    status: u8,
    words: &[String],
    are_text: bool,
    files: &[KeptFile],
    errors: &mut K,
) -> Result<(), SinkFault>
    // All of it, unless that failed.
    ensures written { Grew (K.told errors.old) (K.told errors.new) (IsWritten status (map string_bytes words.now) (map kept_of files.now) result) }

    // In any case a front of it, or nothing.
    ensures noted { Grew (K.told errors.old) (K.told errors.new) (IsNoted status (map string_bytes words.now) (map kept_of files.now)) }
{
    if status == USAGE && !are_text {
        return errors.put(&not_text_note(alloc)?);
    }
    match ending_note(alloc, status, words, files)? {
        Some(note) => errors.put(&note),
        None => Ok(()),
    }
}
