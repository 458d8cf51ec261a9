//! Rows of tables.
//!
//! A row is a line. Its fields stand with ` | ` between them: the call, what it is given, and the answer that is
//! wanted. In a field `¶` stands for a line feed, `␍` for a carriage return, `␉` for a tab and `␡` for the character
//! 127. Where a field has several parts, `, ` stands between them.

use orca_base::NoMemory;
use std::alloc::{AllocError, AllocFailed, Global};

/// Why a row has no answer.
#[derive(Debug, Drop)]
pub enum RowError {
    /// What it says isn't a call.
    Malformed { why: &'static str },
    /// Memory lacked.
    NoMemory,
}

impl From<NoMemory> for RowError {
    fn from(_: NoMemory) -> RowError {
        RowError::NoMemory
    }
}

impl From<AllocError> for RowError {
    fn from(_: AllocError) -> RowError {
        RowError::NoMemory
    }
}

impl<T: Drop> From<AllocFailed<T>> for RowError {
    fn from(_: AllocFailed<T>) -> RowError {
        RowError::NoMemory
    }
}

/// That a row is none.
pub fn malformed<T>(why: &'static str) -> Result<T, RowError> {
    Err(RowError::Malformed { why })
}

/// A row.
#[derive(Drop)]
pub struct Row<'a> {
    line: &'a str,
    fields: Vec<&'a str>,
    wanted: &'a str,
}

impl<'a> Row<'a> {
    /// The row that a line is.
    pub fn of(alloc: Global, line: &'a str) -> Result<Row<'a>, AllocError> {
        let mut fields = Vec::new(alloc);
        for field in line.split(" | ") {
            fields.push(field)?;
        }
        let wanted = match fields.pop() {
            Some(wanted) => wanted,
            None => "",
        };
        Ok(Row {
            line,
            fields,
            wanted,
        })
    }

    /// All of it.
    pub fn line(&self) -> &'a str {
        self.line
    }

    /// The name of its call.
    pub fn verb(&self) -> &'a str {
        match self.fields.first() {
            Some(verb) => *verb,
            None => "",
        }
    }

    /// What the call is given.
    pub fn given(&self) -> &[&'a str] {
        match self.fields.as_slice() {
            [_, given @ ..] => given,
            [] => &[],
        }
    }

    /// The answer that is wanted.
    pub fn wanted(&self) -> &'a str {
        self.wanted
    }
}

/// A line with the characters for which its marks stand.
pub fn unmarked(alloc: Global, line: &str) -> Result<String, AllocError> {
    let line = line.replace(alloc, "¶", "\n")?;
    let line = line.as_str().replace(alloc, "␍", "\r")?;
    let line = line.as_str().replace(alloc, "␉", "\t")?;
    line.as_str().replace(alloc, "␡", "\x7f")
}

/// An answer in these words.
pub fn said(alloc: Global, words: &str) -> Result<String, RowError> {
    Ok(String::from_str(alloc, words)?)
}

/// An integer.
pub fn integer(text: &str) -> Result<i64, RowError> {
    match text.parse::<i64>() {
        Ok(number) => Ok(number),
        Err(_) => malformed("no integer"),
    }
}

/// A number of 64 bits.
pub fn number_64(text: &str) -> Result<u64, RowError> {
    match text.parse::<u64>() {
        Ok(number) => Ok(number),
        Err(_) => malformed("no number of 64 bits"),
    }
}

/// A number of 32 bits.
pub fn number_32(text: &str) -> Result<u32, RowError> {
    match text.parse::<u32>() {
        Ok(number) => Ok(number),
        Err(_) => malformed("no number of 32 bits"),
    }
}

/// A number of 16 bits.
pub fn number_16(text: &str) -> Result<u16, RowError> {
    match text.parse::<u16>() {
        Ok(number) => Ok(number),
        Err(_) => malformed("no number of 16 bits"),
    }
}

/// A number of 8 bits.
pub fn number_8(text: &str) -> Result<u8, RowError> {
    match text.parse::<u8>() {
        Ok(number) => Ok(number),
        Err(_) => malformed("no number of 8 bits"),
    }
}

/// The words of a field, with a space between two.
pub fn words<'a>(alloc: Global, field: &'a str) -> Result<Vec<&'a str>, RowError> {
    let mut words = Vec::new(alloc);
    if !field.is_empty() {
        for word in field.split(' ') {
            words.push(word)?;
        }
    }
    Ok(words)
}

/// Integers, with a space between two.
pub fn integers(alloc: Global, field: &str) -> Result<Vec<i64>, RowError> {
    let mut numbers = Vec::new(alloc);
    for word in &words(alloc, field)? {
        numbers.push(integer(word)?)?;
    }
    Ok(numbers)
}

/// Bytes in decimal, with a space between two.
pub fn bytes(alloc: Global, field: &str) -> Result<Vec<u8>, RowError> {
    let mut bytes = Vec::new(alloc);
    for word in &words(alloc, field)? {
        bytes.push(number_8(word)?)?;
    }
    Ok(bytes)
}

/// Adds a part of an answer.
pub fn add_part(answer: &mut String, part: &str) -> Result<(), RowError> {
    if !answer.is_empty() {
        answer.push_str(", ")?;
    }
    Ok(answer.push_str(part)?)
}
