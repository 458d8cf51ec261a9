//! How the call of a case is made, and how what it prints is compared, as the lines of a case say it.

use crate::case::Flaw;
use crate::given::{Given, Outside, Policies, Wires};
use std::alloc::Global;

/// How what is printed is compared.
#[derive(Clone, Copy, PartialEq, Eq)]
pub enum Printing {
    /// It is what is wanted.
    Whole,
    /// It begins with what is wanted.
    Front,
    /// What is wanted stands somewhere in it.
    Part,
    /// It is what is wanted with a history behind it that isn't empty, and `replay` says that this is one of the case's program.
    History,
}

/// How a call is made, and what it prints is compared.
#[derive(Drop)]
pub struct Heads {
    pub given: Given,
    pub printing: Printing,
}

impl Heads {
    /// As the program itself is called, over memory, where nothing fails; all that is printed is compared.
    pub fn new(alloc: Global) -> Heads {
        Heads {
            given: Given::new(alloc),
            printing: Printing::Whole,
        }
    }

    /// Takes what one line says; `line` is its number.
    pub fn take(&mut self, alloc: Global, line: u32, text: &str) -> Result<(), Flaw> {
        let (name, rest) = text.split_once(' ').unwrap_or((text, ""));
        match name {
            "outside" => self.given.outside = outside_of(rest).ok_or(wrong(line))?,
            "printed" => self.printing = printing_of(rest).ok_or(wrong(line))?,
            "wires" => self.given.wires = wires_of(rest).ok_or(wrong(line))?,
            "policy" => self.given.policy = policy_of(rest).ok_or(wrong(line))?,
            "reads" => self.given.reads = numbers(alloc, line, rest)?,
            "writes" => self.given.writes = numbers(alloc, line, rest)?,
            "lacking" => self.given.lacking = numbers(alloc, line, rest)?,
            "room" => self.given.room = rest.parse::<u64>().ok().ok_or(wrong(line))?,
            _ => return Err(wrong(line)),
        }
        Ok(())
    }
}

// That the line isn't known.
fn wrong(line: u32) -> Flaw {
    Flaw::Malformed {
        line,
        why: "no such way to make a call",
    }
}

fn outside_of(word: &str) -> Option<Outside> {
    match word {
        "memory" => Some(Outside::Memory),
        "sure" => Some(Outside::Sure),
        "real" => Some(Outside::Real),
        _ => None,
    }
}

fn printing_of(words: &str) -> Option<Printing> {
    match words {
        "whole" => Some(Printing::Whole),
        "front" => Some(Printing::Front),
        "part" => Some(Printing::Part),
        "history" => Some(Printing::History),
        _ => None,
    }
}

fn wires_of(words: &str) -> Option<Wires> {
    match words {
        "both" => Some(Wires::Both),
        "script" => Some(Wires::Script),
        "plain" => Some(Wires::Plain),
        _ => None,
    }
}

fn policy_of(words: &str) -> Option<Policies> {
    match words {
        "costs" => Some(Policies::Costs),
        "replicated" => Some(Policies::Replicated),
        "listed replicated" => Some(Policies::ListedReplicated),
        "listed single" => Some(Policies::ListedSingle),
        _ => None,
    }
}

// Numbers with a space between two.
fn numbers(alloc: Global, line: u32, text: &str) -> Result<Vec<u64>, Flaw> {
    let mut numbers = Vec::new(alloc);
    for word in text.split(' ') {
        let Ok(number) = word.parse::<u64>() else {
            return Err(wrong(line));
        };
        numbers.push(number)?;
    }
    Ok(numbers)
}
