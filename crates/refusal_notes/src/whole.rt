//! A note.

ghost use Rattle.std.specs.Prelude.{◌≡◌, ◌++◌, IfOk, OnOk};
ghost use Rattle.refusal_notes.specs.Notes as notes;

use crate::cause::Cause;
use crate::excerpt::excerpt;
use crate::spot::Spot;
use crate::texts::text_of;
use orca_base::NoMemory;
use std::alloc::Global;

// How the sentences speak of a subject.
fn spoken(alloc: Global, subject: &[u8]) -> Result<Vec<u8>, NoMemory>
    ensures { IfOk result (λ v. v.items ≡ notes.spoken subject.now) }
{
    if subject.is_empty() {
        return Ok(Vec::from_slice(alloc, b"this")?);
    }
    let mut text = Vec::from_slice(alloc, b"`")?;
    text.extend_from_slice(subject)?;
    text.push(b'`')?;
    Ok(text)
}

// Adds what stands for a byte of a text.
fn put_byte(out: &mut Vec<u8>, spoken: &[u8], byte: u8) -> Result<(), NoMemory>
    ensures { OnOk result (out.new.items ≡ out.old.items ++ notes.fill spoken.now byte) }
{
    if byte == b'@' {
        out.extend_from_slice(spoken)?;
    } else {
        out.push(byte)?;
    }
    Ok(())
}

// Adds a text with this in place of each `@`.
fn put_text(out: &mut Vec<u8>, spoken: &[u8], text: &[u8]) -> Result<(), NoMemory>
    ensures { OnOk result (out.new.items ≡ out.old.items ++ notes.filled spoken.now text.now) }
{
    'bytes: for byte in text {
        put_byte(out, spoken, *byte)?;
    }
    Ok(())
}

// The place in front of the sentences, where there is one.
fn place(alloc: Global, spot: Option<Spot<'_>>) -> Result<Vec<u8>, NoMemory>
    ensures { IfOk result (λ v. v.items ≡ notes.place_of spot.entry) }
{
    match spot {
        Some(spot) => {
            let mut lines = excerpt(alloc, &spot)?;
            lines.extend_from_slice(b"  ")?;
            Ok(lines)
        }
        None => Ok(Vec::new(alloc)),
    }
}

/// The note on a cause (docs/FORMATS.md, Notes): where there is a place, that, with its line and a mark under it, and then the
/// sentences of the cause.
///
/// `subject` is the name, word or token that the sentences speak of; where it is empty, they say `this`.
pub fn note(
    alloc: Global,
    cause: Cause,
    subject: &[u8],
    spot: Option<Spot<'_>>,
) -> Result<Vec<u8>, NoMemory>
    // Exactly the file and the place, the line of the text, the mark under the place, and the text of the cause.
    ensures { IfOk result (λ v. v.items ≡ notes.note_of cause subject.now spot.entry) }
{
    let mut note = Vec::from_slice(alloc, b"note: ")?;
    note.extend_from_slice(&place(alloc, spot)?)?;
    let spoken = spoken(alloc, subject)?;
    put_text(&mut note, &spoken, text_of(cause).as_bytes())?;
    note.push(b'\n')?;
    Ok(note)
}
