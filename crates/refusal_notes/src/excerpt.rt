//! The line of a place, and what stands under it.

ghost use Rattle.std.specs.Prelude.{◌≡◌, ◌≤◌, IfOk, drop, length, map, take};
ghost use Rattle.std.specs.List.{prefix_len};
ghost use Rattle.orca_lexer.specs.Shapes.{is_name_byte};
ghost use Rattle.refusal_notes.specs.Excerpts as excerpts;

use crate::spot::Spot;
use orca_base::NoMemory;
use std::alloc::Global;

/// The longest line that is shown, in bytes: what is longer tells a reader nothing.
pub const LONGEST_SHOWN: usize = 200;

// So many bytes, or all.
fn front(line: &[u8], count: usize) -> &[u8]
    ensures { result.now ≡ take count line.now }
{
    if count < line.len() {
        &line[..count]
    } else {
        line
    }
}

// What stands behind so many bytes.
fn behind(line: &[u8], count: usize) -> &[u8]
    ensures { result.now ≡ drop count line.now }
{
    if count < line.len() {
        &line[count..]
    } else {
        &[]
    }
}

// How many bytes stand in front of the first line feed.
fn line_length(text: &[u8]) -> usize
    ensures length { result ≡ excerpts.line_length text.now }
    ensures within { result ≤ length text.now }
{
    text.iter().take_while(|byte| **byte != b'\n').count()
}

// What stands in front of the first line feed.
fn first_line(text: &[u8]) -> &[u8]
    ensures { result.now ≡ excerpts.first_line text.now }
{
    front(text, line_length(text))
}

// What stands behind the first line feed.
fn behind_line(text: &[u8]) -> &[u8]
    ensures { result.now ≡ excerpts.behind_line text.now }
{
    behind(text, line_length(text) + 1)
}

/// The line with this number, counted from 1, without its line feed; an empty one where there is none.
#[tactic(auto, using(crate::proofs::Lines::behind_next))]
pub fn line_at(text: &[u8], number: u32) -> &[u8]
    ensures { result.now ≡ excerpts.line_at number text.now }
{
    let lines_before = number.saturating_sub(1);
    let mut rest = text;
    'lines: for _line in 0..lines_before {
        rest = behind_line(rest);
    }
    first_line(rest)
}

// Whether a character begins with the byte, where the text is UTF-8.
fn begins_character(byte: u8) -> bool
    ensures { result ≡ excerpts.begins_character byte }
{
    byte < 128 || 192 <= byte
}

// What stands under a character that begins so.
fn blank(byte: u8) -> u8
    ensures { result ≡ excerpts.blank byte }
{
    if byte == b'\t' { b'\t' } else { b' ' }
}

// How a byte of a text is shown.
fn shown(byte: u8) -> u8
    ensures { result ≡ excerpts.shown byte }
{
    if byte == b'\t' || 32 <= byte && byte != 127 {
        byte
    } else {
        b'?'
    }
}

// What stands under these bytes.
fn under(alloc: Global, line: &[u8]) -> Result<Vec<u8>, NoMemory>
    ensures { IfOk result (λ v. v.items ≡ excerpts.under line.now) }
{
    let blanks = line
        .iter()
        .filter(|byte| begins_character(**byte))
        .map(|byte| blank(*byte))
        .collect(alloc)?;
    Ok(blanks)
}

// How a line is shown.
fn shown_line(alloc: Global, line: &[u8]) -> Result<Vec<u8>, NoMemory>
    ensures { IfOk result (λ v. v.items ≡ map excerpts.shown line.now) }
{
    let bytes = line.iter().map(|byte| shown(*byte)).collect(alloc)?;
    Ok(bytes)
}

// Whether the byte is one of a word.
fn is_word_byte(byte: u8) -> bool
    ensures { result ≡ is_name_byte byte }
{
    byte.is_ascii_alphanumeric() || byte == b'_'
}

// How long the word in front is.
fn word_length(text: &[u8]) -> usize
    ensures length { result ≡ prefix_len is_name_byte text.now }
    ensures within { result ≤ length text.now }
{
    text.iter().take_while(|byte| is_word_byte(**byte)).count()
}

/// The word at a place: the letters, digits and `_` from there on, which may be none.
pub fn word_at<'a>(spot: &Spot<'a>) -> &'a [u8]
    ensures { result.now ≡ excerpts.word_at spot.now }
{
    let line = line_at(spot.text, spot.at.line);
    let rest = behind(line, spot.at.column.saturating_sub(1) as usize);
    front(rest, word_length(rest))
}

// The line of this number, and under it the mark of what stands behind so many bytes; or nothing where the line is too long to be shown.
fn marked(alloc: Global, number: &str, line: &[u8], before: usize) -> Result<Vec<u8>, NoMemory>
    ensures { IfOk result (λ v. v.items ≡ excerpts.marked number.now line.now before) }
{
    let mut lines = Vec::new(alloc);
    if line.len() > LONGEST_SHOWN {
        return Ok(lines);
    }
    lines.extend_from_slice(b"  ")?;
    lines.extend_from_slice(number.as_bytes())?;
    lines.extend_from_slice(b" | ")?;
    lines.extend_from_slice(&shown_line(alloc, line)?)?;
    lines.extend_from_slice(b"\n  ")?;
    lines.extend_from_slice(&under(alloc, number.as_bytes())?)?;
    lines.extend_from_slice(b" | ")?;
    lines.extend_from_slice(&under(alloc, front(line, before))?)?;
    lines.extend_from_slice(b"^\n")?;
    Ok(lines)
}

// The file, line and column of a place.
fn head(alloc: Global, spot: &Spot<'_>) -> Result<Vec<u8>, NoMemory>
    ensures { IfOk result (λ v. v.items ≡ excerpts.head spot.now) }
{
    let file = spot.file;
    let head = format!(in alloc; "{file}:{}:{}\n", spot.at.line, spot.at.column)?;
    Ok(head.into_bytes())
}

/// The place, its line, and the mark under it.
pub fn excerpt(alloc: Global, spot: &Spot<'_>) -> Result<Vec<u8>, NoMemory>
    ensures { IfOk result (λ v. v.items ≡ excerpts.excerpt spot.now) }
{
    let mut lines = head(alloc, spot)?;
    let number = format!(in alloc; "{}", spot.at.line)?;
    let line = line_at(spot.text, spot.at.line);
    let before = spot.at.column.saturating_sub(1) as usize;
    lines.extend_from_slice(&marked(alloc, number.as_str(), line, before)?)?;
    Ok(lines)
}
