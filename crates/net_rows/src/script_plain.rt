//! The slow plain reader of scripts, by docs/RUNTIME.md, Fault scripts, alone.

use crate::forms::{FORMS, KIND_WORDS, SEED, Sort};
use fault_scripts::ScriptError;
use orca_base::{Refusal, refuse};
use row_files::flat::Numbers;
use std::alloc::{AllocError, Global};
use std::{mem, str};

type Read<T> = Result<T, Refusal<ScriptError>>;

// What stands between these bytes.
fn split(alloc: Global, bytes: &[u8], by: u8) -> Result<Vec<Vec<u8>>, AllocError> {
    let mut parts = Vec::new(alloc);
    let mut part = Vec::new(alloc);
    for byte in bytes {
        if *byte == by {
            parts.push(mem::replace(&mut part, Vec::new(alloc)))?;
        } else {
            part.push(*byte)?;
        }
    }
    parts.push(part)?;
    Ok(parts)
}

// The number that 1 to 19 digits write, where it is in this range.
fn number(word: &[u8], least: i128, most: i128) -> Option<i128> {
    if word.is_empty() || word.len() > 19 {
        return None;
    }
    let mut number = 0i128;
    for digit in word {
        if *digit < b'0' || *digit > b'9' {
            return None;
        }
        number = number
            .wrapping_mul(10)
            .wrapping_add(i128::from(*digit).wrapping_sub(48));
    }
    if least <= number && number <= most {
        Some(number)
    } else {
        None
    }
}

// The place of a kind's word in the table.
fn kinds(word: &[u8]) -> Option<i128> {
    let mut place = 0i128;
    for kind in KIND_WORDS {
        if kind.as_bytes() == word {
            return Some(place);
        }
        place = place.wrapping_add(1);
    }
    None
}

// What a word says, if it is of this sort.
fn meaning(word: &[u8], sort: Sort) -> Option<i128> {
    match sort {
        Sort::Kinds => kinds(word),
        Sort::Which if word == "all".as_bytes() => Some(0),
        Sort::Which | Sort::Count => number(word, 1, 9_999_999_999_999_999_999),
        Sort::Member => number(word, 0, 15),
        Sort::Size => number(word, 0, 4_294_967_295),
        Sort::Seed => number(word, 0, 9_223_372_036_854_775_807),
        Sort::Percent => number(word, 0, 100),
    }
}

// The words of a line.
fn words_of(alloc: Global, line: &[u8]) -> Result<Vec<Vec<u8>>, AllocError> {
    let mut words = Vec::new(alloc);
    for word in split(alloc, line, b' ')? {
        if !word.is_empty() {
            words.push(word)?;
        }
    }
    Ok(words)
}

// The place of a line's first word in the table, and what stands behind it.
fn form_of(word: &[u8]) -> Option<(i128, &'static [Sort])> {
    let mut place = 0i128;
    for (first, sorts) in FORMS {
        if first.as_bytes() == word {
            return Some((place, sorts));
        }
        place = place.wrapping_add(1);
    }
    None
}

// What a line says, where a line of random words stands already or doesn't.
fn line_of(alloc: Global, line: u32, words: &[Vec<u8>], is_seeded: bool) -> Read<Numbers> {
    let unknown = ScriptError::UnknownWord { line };
    let Some((verb, sorts)) = words.first().and_then(|word| form_of(word)) else {
        return refuse(unknown);
    };
    if verb == SEED && is_seeded {
        return refuse(unknown);
    }
    let mut found = vec![in alloc; verb]?;
    let mut at = 1usize;
    for sort in sorts {
        match words.get(at).and_then(|word| meaning(word, *sort)) {
            Some(number) => found.push(number)?,
            None if *sort == Sort::Kinds => return refuse(unknown),
            None => return refuse(ScriptError::BadNumber { line }),
        }
        at = at.saturating_add(1);
    }
    if words.len() > at {
        return refuse(unknown);
    }
    Ok(found)
}

/// The lines of a script, or the first that is wrong.
pub fn script(alloc: Global, text: &[u8]) -> Read<Numbers> {
    let mut found = Vec::new(alloc);
    let mut number = 0u32;
    let mut is_seeded = false;
    for line in &split(alloc, text, b'\n')? {
        number = number.saturating_add(1);
        if str::from_utf8(line).is_err() {
            return refuse(ScriptError::UnknownWord { line: number });
        }
        if line.is_empty() || line.first() == Some(&b'#') {
            continue;
        }
        let said = line_of(alloc, number, &words_of(alloc, line)?, is_seeded)?;
        is_seeded = is_seeded || said.first() == Some(&SEED);
        found.extend_from_slice(&said)?;
    }
    Ok(found)
}
