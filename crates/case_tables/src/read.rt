//! Reading cases.
//!
//! A case is the lines from its mark `=>` up to the next: the words; the status; the lines that are printed; `--` and what it is about;
//! lines `++` and `??`; and its files, each behind a line `==`. Whatever stands elsewhere is malformed, and told. A line `!!` may stand
//! anywhere: it says nothing of the call.

use crate::case::{Case, Flaw};
use crate::rows::{Row, row_of};
use crate::topics::ask_of;
use orca_base::SOURCE_BYTES;
use orca_io::{Shelf, ShelfFault};
use std::alloc::Global;
use std::mem;

// What was read last of a case.
#[derive(Clone, Copy)]
enum Part {
    /// Nothing.
    Nothing,
    /// Its words.
    Words,
    /// Its status, or a line that is printed.
    Printed,
    /// What it is about, how the call is made, or an ask.
    Heads,
    /// A line of a file.
    File,
    /// A note.
    Over,
}

// A case of which some lines were read: the last of its files with the bytes so far, and what was read last.
#[derive(Drop)]
struct Draft<'a> {
    case: Case<'a>,
    name: &'a str,
    text: Vec<u8>,
    part: Part,
}

fn malformed(line: u32, why: &'static str) -> Flaw {
    Flaw::Malformed { line, why }
}

/// The case of these lines, the first of which has this number in its table. Texts of data/ are read from the shelf.
pub fn case_of<'a, F: Shelf>(
    alloc: Global,
    shelf: &mut F,
    first: u32,
    lines: &[&'a str],
) -> Result<Case<'a>, Flaw> {
    let mut draft = Draft {
        case: Case::new(alloc),
        name: "",
        text: Vec::new(alloc),
        part: Part::Nothing,
    };
    let mut number = first;
    for line in lines {
        draft.part = take(alloc, shelf, &mut draft, number, row_of(line))?;
        number = number.saturating_add(1);
    }
    close_file(alloc, &mut draft)?;
    match draft.part {
        Part::Heads | Part::File | Part::Over => Ok(draft.case),
        Part::Nothing | Part::Words | Part::Printed => {
            Err(malformed(first, "the case isn't whole"))
        }
    }
}

// Takes one line, and gives what was read then.
fn take<'a, F: Shelf>(
    alloc: Global,
    shelf: &mut F,
    draft: &mut Draft<'a>,
    number: u32,
    row: Row<'a>,
) -> Result<Part, Flaw> {
    match (draft.part, row) {
        (part, Row::Told { .. }) => Ok(part),
        (Part::Nothing, Row::Call { words }) => {
            draft.case.words = words_of(alloc, words)?;
            Ok(Part::Words)
        }
        (Part::Words, Row::Text { line }) => {
            let status = line.parse::<u8>().ok();
            draft.case.status = status.ok_or(malformed(number, "no status"))?;
            Ok(Part::Printed)
        }
        (Part::Printed, Row::Why { text }) => {
            draft.case.why = text;
            Ok(Part::Heads)
        }
        (Part::Printed, row) => {
            add(alloc, shelf, &mut draft.case.printed, number, row)?;
            Ok(Part::Printed)
        }
        (Part::Heads | Part::File, row) => take_behind(alloc, shelf, draft, number, row),
        (Part::Over, Row::Note) => Ok(Part::Over),
        _ => Err(malformed(number, "the line is out of place")),
    }
}

// Takes a line behind what the case is about.
fn take_behind<'a, F: Shelf>(
    alloc: Global,
    shelf: &mut F,
    draft: &mut Draft<'a>,
    number: u32,
    row: Row<'a>,
) -> Result<Part, Flaw> {
    match (draft.part, row) {
        (Part::Heads, Row::Given { text }) => {
            draft.case.heads.take(alloc, number, text)?;
            Ok(Part::Heads)
        }
        (Part::Heads, Row::Ask { text }) => {
            let ask = ask_of(text).ok_or(malformed(number, "no such ask"))?;
            draft.case.asks.push(ask)?;
            Ok(Part::Heads)
        }
        (_, Row::File { name }) => {
            close_file(alloc, draft)?;
            draft.name = name;
            Ok(Part::File)
        }
        (_, Row::Note) => Ok(Part::Over),
        (Part::File, row) => {
            add(alloc, shelf, &mut draft.text, number, row)?;
            Ok(Part::File)
        }
        _ => Err(malformed(number, "the line is out of place")),
    }
}

// Puts the file that was read last, if there is one, to those of the case.
fn close_file(alloc: Global, draft: &mut Draft<'_>) -> Result<(), Flaw> {
    if !draft.name.is_empty() {
        let name = String::from_str(alloc, draft.name)?;
        let text = mem::replace(&mut draft.text, Vec::new(alloc));
        draft.case.files.push((name, text))?;
    }
    Ok(())
}

// The words on a line, with a space between two; `""` is the empty word.
fn words_of(alloc: Global, line: &str) -> Result<Vec<String>, Flaw> {
    let mut words = Vec::new(alloc);
    if line.is_empty() {
        return Ok(words);
    }
    for word in line.split(' ') {
        let word = if word == "\"\"" { "" } else { word };
        words.push(String::from_str(alloc, word)?)?;
    }
    Ok(words)
}

// Puts what a line of a text says behind it.
fn add<F: Shelf>(
    alloc: Global,
    shelf: &mut F,
    text: &mut Vec<u8>,
    number: u32,
    row: Row<'_>,
) -> Result<(), Flaw> {
    match row {
        Row::Text { line } => {
            text.extend_from_slice(line.as_bytes())?;
            text.push(b'\n')?;
            Ok(())
        }
        Row::Insert { name } => match shelf.read_all(alloc, name, SOURCE_BYTES) {
            Ok(bytes) => {
                text.extend_from_slice(&bytes)?;
                Ok(())
            }
            Err(ShelfFault::NoMemory) => Err(Flaw::NoMemory),
            Err(_) => Err(malformed(number, "no such file in data/")),
        },
        Row::Repeat { text: rest } => repeat(alloc, text, number, rest),
        _ => Err(malformed(number, "the line is out of place")),
    }
}

// Puts `COUNT "TEXT"` or `COUNT xHH` behind a text: the text or the byte, so many times. In the text `{}` stands for the number of the
// time, from 1.
fn repeat(alloc: Global, text: &mut Vec<u8>, number: u32, rest: &str) -> Result<(), Flaw> {
    let wrong = malformed(number, "nothing that is repeated");
    let (count, what) = rest.split_once(' ').ok_or(wrong)?;
    let count = count.parse::<u32>().ok().ok_or(wrong)?;
    if let Some(digits) = what.strip_prefix("x") {
        let byte = u8::from_str_radix(digits, 16).ok().ok_or(wrong)?;
        text.extend_from_slice(&vec![in alloc; byte; count as usize]?)?;
        return Ok(());
    }
    let behind = what.strip_prefix("\"").ok_or(wrong)?;
    let piece = behind.strip_suffix("\"").ok_or(wrong)?;
    match piece.split_once("{}") {
        Some((front, back)) => repeat_numbered(alloc, text, count, front, back),
        None => {
            for _ in 0..count {
                text.extend_from_slice(piece.as_bytes())?;
            }
            Ok(())
        }
    }
}

// Puts the two pieces behind a text so many times, with the number of the time between them.
fn repeat_numbered(
    alloc: Global,
    text: &mut Vec<u8>,
    count: u32,
    front: &str,
    back: &str,
) -> Result<(), Flaw> {
    for before in 0..count {
        let time = before.saturating_add(1);
        let piece = format!(in alloc; "{front}{time}{back}")?;
        text.extend_from_slice(piece.as_str().as_bytes())?;
    }
    Ok(())
}
