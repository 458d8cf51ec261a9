//! How the call of a case is made.

use std::alloc::Global;

/// A file: its name, and its bytes.
pub type CaseFile = (String, Vec<u8>);

/// What a call is made over.
#[derive(Clone, Copy, PartialEq, Eq)]
pub enum Outside {
    /// Files and output in memory, of which reads and writes may fail.
    Memory,
    /// Files and output in memory that never fail.
    Sure,
    /// The real files of data/, and output in memory.
    Real,
}

/// Which wires a call has.
#[derive(Clone, Copy, PartialEq, Eq)]
pub enum Wires {
    /// One that does what the script of the words says, and behind it one on which nothing happens, as the program itself has.
    Both,
    /// The first of these alone.
    Script,
    /// The second alone.
    Plain,
}

/// Which policy a call has.
#[derive(Clone, Copy, PartialEq, Eq)]
pub enum Policies {
    /// That of the program itself: what costs less is chosen.
    Costs,
    /// Each object is at every member.
    Replicated,
    /// A list of 64 answers, by each of which the object is at every member.
    ListedReplicated,
    /// A list of 64 answers, by each of which the object is at one member alone.
    ListedSingle,
}

/// How a call is made.
#[derive(Drop)]
pub struct Given {
    pub outside: Outside,
    pub wires: Wires,
    pub policy: Policies,
    /// The reads that fail, by their numbers from 1.
    pub reads: Vec<u64>,
    /// The writes that fail, by their numbers from 1.
    pub writes: Vec<u64>,
    /// The writes for which there is no memory, by their numbers from 1.
    pub lacking: Vec<u64>,
    /// How many bytes the output takes.
    pub room: u64,
}

impl Given {
    /// As the program itself is called, over memory, where nothing fails.
    pub fn new(alloc: Global) -> Given {
        Given {
            outside: Outside::Memory,
            wires: Wires::Both,
            policy: Policies::Costs,
            reads: Vec::new(alloc),
            writes: Vec::new(alloc),
            lacking: Vec::new(alloc),
            room: u64::MAX,
        }
    }

    /// Whether the program's own door can make it: it is over the wires that the door makes.
    pub fn is_by_door(&self) -> bool {
        self.wires == Wires::Both
    }
}
