//! A case: a call of the whole program, and what is wanted of it.

use crate::given::CaseFile;
use crate::heads::Heads;
use crate::topics::Ask;
use orca_base::NoMemory;
use std::alloc::{AllocError, AllocFailed, Global};

/// A case of a table.
pub struct Case<'a> {
    /// The words of the call.
    pub words: Vec<String>,
    /// The wanted status.
    pub status: u8,
    /// What is to be printed.
    pub printed: Vec<u8>,
    /// What the case is about.
    pub why: &'a str,
    /// How the call is made, and what it prints is compared.
    pub heads: Heads,
    /// What else is asked of the call.
    pub asks: Vec<Ask<'a>>,
    /// The files that are there.
    pub files: Vec<CaseFile>,
}

// By hand, so that a case that is dropped is one call, and isn't laid out part by part wherever that happens.
impl Drop for Case<'_> {
    fn drop(self) {
        let Case {
            words: _words,
            status: _status,
            printed: _printed,
            why: _why,
            heads: _heads,
            asks: _asks,
            files: _files,
        } = self;
    }
}

impl<'a> Case<'a> {
    /// A case of no words, with nothing asked.
    pub fn new(alloc: Global) -> Case<'a> {
        Case {
            words: Vec::new(alloc),
            status: 0,
            printed: Vec::new(alloc),
            why: "",
            heads: Heads::new(alloc),
            asks: Vec::new(alloc),
            files: Vec::new(alloc),
        }
    }
}

/// Why a case isn't read.
#[derive(Clone, Copy)]
pub enum Flaw {
    /// There was no memory.
    NoMemory,
    /// A line of the table is malformed, for this reason.
    Malformed { line: u32, why: &'static str },
}

impl From<NoMemory> for Flaw {
    fn from(_: NoMemory) -> Flaw {
        Flaw::NoMemory
    }
}

impl From<AllocError> for Flaw {
    fn from(_: AllocError) -> Flaw {
        Flaw::NoMemory
    }
}

impl<T: Drop> From<AllocFailed<T>> for Flaw {
    fn from(_: AllocFailed<T>) -> Flaw {
        Flaw::NoMemory
    }
}
