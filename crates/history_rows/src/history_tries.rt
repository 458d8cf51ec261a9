//! Reads 10,000 texts of histories, and compares each answer of `read_lines` and of `read_history` with that of a slow
//! plain reader.
//!
//! The texts are of up to three lines with all forms of values and numbers at their edges, made by a generator that is
//! the same on every run: half of them have one or two changes, a quarter are empty. The plain reader
//! (`history_plain.rt`) is written from docs/FORMATS.md alone, and shares nothing with the crates that it judges.

ghost use Rattle.history_text.specs.Sound.{AreTables};

use crate::history_maker::Maker;
use crate::tables::First;
use crate::{history_plain, names};
use history_text::{BadLine, Names, read_history, read_lines};
use orca_base::{NoMemory, Refusal};
use row_files::Counts;
use row_files::flat::{self, Numbers};
use std::alloc::{AllocError, Global};
use std::io;
use value_core::Line;

// How many texts there are.
const TEXTS: u32 = 10_000;

// Of each sort there are at least so many: texts that are read, of which the quarter that is empty are some, and texts with a line
// which is none.
const LEAST: u32 = 4_000;

// With what the generator begins.
const SEED: u64 = 10_000;

// No text has more bytes.
const MOST: usize = 1_000_000;

// What a reader answers: all lines, or those in front of the first that is none, with its number.
type Answer = Result<Numbers, (Numbers, u32)>;

// An answer, where there was memory.
fn there<T: Drop>(answer: Result<T, NoMemory>) -> Result<T, AllocError> {
    match answer {
        Ok(there) => Ok(there),
        Err(_) => Err(AllocError),
    }
}

// Lines, told as the plain reader tells them.
fn numbers_of(alloc: Global, lines: &[Line]) -> Result<Numbers, NoMemory> {
    let mut numbers = Vec::new(alloc);
    for line in lines {
        flat::put_line(&mut numbers, line)?;
    }
    Ok(numbers)
}

// What `read_lines` finds.
fn first_lines(alloc: Global, names: &Names, text: &[u8]) -> Result<First, NoMemory>
    requires { AreTables names.now }
{
    if text.len() > MOST {
        return Err(NoMemory);
    }
    let first = read_lines(alloc, names, text)?;
    Ok(First {
        lines: numbers_of(alloc, &first.lines)?,
        bad: first.bad,
    })
}

// What `read_history` finds: all lines, or the number of the first that is none.
fn whole_history(
    alloc: Global,
    names: &Names,
    text: &[u8],
) -> Result<Result<Numbers, u32>, NoMemory>
    requires { AreTables names.now }
{
    if text.len() > MOST {
        return Err(NoMemory);
    }
    match read_history(alloc, names, text) {
        Ok(lines) => Ok(Ok(numbers_of(alloc, &lines)?)),
        Err(
            Refusal::Because {
                cause: BadLine { line },
            },
        ) => Ok(Err(line)),
        Err(Refusal::NoMemory) => Err(NoMemory),
    }
}

// The answer that lines in front are.
fn answer_of(first: First) -> Answer {
    match first.bad {
        None => Ok(first.lines),
        Some(line) => Err((first.lines, line)),
    }
}

// Whether `read_history` finds the same.
fn agrees(plain: &Answer, whole: &Result<Numbers, u32>) -> bool {
    match (plain, whole) {
        (Ok(lines), Ok(others)) => *lines == *others,
        (Err((_, line)), Err(other)) => *line == *other,
        _ => false,
    }
}

// Reads one more text each way. Where `read_history` finds something else, that is told; else what `read_lines` finds.
fn try_history(
    rt: &HostRuntime,
    maker: &mut Maker,
    names: &Names,
    counts: &mut Counts,
) -> io::Result<()>
    requires { AreTables names.now }
{
    let text = maker.history(rt.alloc())?;
    let plain = answer_of(there(history_plain::first_lines(rt.alloc(), &text))?);
    let found = answer_of(there(first_lines(rt.alloc(), names, &text))?);
    let whole = there(whole_history(rt.alloc(), names, &text))?;
    if !agrees(&plain, &whole) {
        println!(rt; "of {text:?}\nplain {plain:?}\nwhole {whole:?}")?;
    }
    counts.count(rt, &text, &plain, &found)
}

/// Reads all of them, and prints how many were told otherwise.
pub fn run(rt: &HostRuntime) -> io::Result<()> {
    let mut maker = Maker::new(rt.alloc(), SEED);
    let names = match names::of_makers(rt.alloc()) {
        Ok(names) => names,
        Err(_) => return Err(AllocError.into()),
    };
    let mut counts = Counts::new();
    for _ in 0..TEXTS {
        try_history(rt, &mut maker, &names, &mut counts)?;
    }
    counts.print(rt, "histories", LEAST)
}
