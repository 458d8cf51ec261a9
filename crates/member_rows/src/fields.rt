//! The words of a line, taken from the left.

use crate::failed::Failed;
use std::alloc::{AllocError, Global};
use std::collections::VecDeque;

/// The words of a line that weren't taken yet.
#[derive(Drop)]
pub struct Fields {
    words: VecDeque<String>,
}

impl Fields {
    /// All words of a line.
    pub fn of(alloc: Global, line: &str) -> Result<Fields, AllocError> {
        let mut words = VecDeque::new(alloc);
        for word in line.split_whitespace() {
            words.push_back(String::from_str(alloc, word)?)?;
        }
        Ok(Fields { words })
    }

    /// The next word.
    pub fn word(&mut self) -> Result<String, Failed> {
        self.words.pop_front().ok_or(Failed::Form)
    }

    /// The number behind `name=`, which is the next word.
    pub fn number(&mut self, name: &str) -> Result<u64, Failed> {
        let word = self.word()?;
        match word.as_str().split_once('=') {
            Some((key, value)) => {
                if key == name {
                    value.parse::<u64>().map_err(|_| Failed::Form)
                } else {
                    Err(Failed::Form)
                }
            },
            None => Err(Failed::Form),
        }
    }

    /// Such a number of at most 8 bits.
    pub fn small(&mut self, name: &str) -> Result<u8, Failed> {
        let number = self.number(name)?;
        u8::try_from(number).map_err(|_| Failed::Form)
    }

    /// The number of a member, which is the next word.
    pub fn member(&mut self) -> Result<u8, Failed> {
        let word = self.word()?;
        word.parse::<u8>().map_err(|_| Failed::Form)
    }

    /// Whether `name=yes` is the next word; else it is `name=no`.
    pub fn flag(&mut self, name: &str) -> Result<bool, Failed> {
        let word = self.word()?;
        match word.as_str().split_once('=') {
            Some((key, value)) => {
                if key == name && (value == "yes" || value == "no") {
                    Ok(value == "yes")
                } else {
                    Err(Failed::Form)
                }
            },
            None => Err(Failed::Form),
        }
    }

    /// The members behind `members=`, which is the next word: numbers with commas between them, or `none`.
    pub fn members(&mut self, alloc: Global) -> Result<Vec<u8>, Failed> {
        let word = self.word()?;
        match word.as_str().strip_prefix("members=") {
            Some("none") => Ok(Vec::new(alloc)),
            Some(list) => members_in(alloc, list)?.ok_or(Failed::Form),
            None => Err(Failed::Form),
        }
    }

    /// That no word is left.
    pub fn end(&self) -> Result<(), Failed> {
        if self.words.is_empty() {
            Ok(())
        } else {
            Err(Failed::Form)
        }
    }
}

// The numbers between commas, where all are such.
fn members_in(alloc: Global, list: &str) -> Result<Option<Vec<u8>>, AllocError> {
    let mut members = Vec::new(alloc);
    for word in list.split(',') {
        match word.parse::<u8>() {
            Ok(member) => members.push(member)?,
            Err(_) => return Ok(None),
        }
    }
    Ok(Some(members))
}
