//! What came of a call, in plain values.

use crate::ends::{Member, Process};
use crate::events::Events;
use crate::lines::{Sorts, given, history_of, replies_of, sorted, written};
use orca_base::NoMemory;
use std::alloc::{AllocError, Global};
use value_core::{Line, Reply};

/// What came of a call.
pub struct Outcome {
    /// The status (docs/FORMATS.md).
    pub status: u8,
    /// What was printed.
    pub printed: Vec<u8>,
    /// What the run left that was kept, if one was and the call tells it.
    pub left: Option<Left>,
}

// By hand, so that an outcome that is dropped is one call, and isn't laid out part by part wherever that happens.
impl Drop for Outcome {
    fn drop(self) {
        let Outcome {
            status: _status,
            printed: _printed,
            left: _left,
        } = self;
    }
}

impl Outcome {
    /// What came of a call that ended with this status, and printed these bytes.
    pub fn new(alloc: Global, status: u8, printed: &[u8]) -> Result<Outcome, AllocError> {
        Ok(Outcome {
            status,
            printed: Vec::from_slice(alloc, printed)?,
            left: None,
        })
    }
}

/// What a run left.
#[derive(Drop)]
pub struct Left {
    /// What happened in it, by number.
    pub tally: Tally,
    /// Its members, by their numbers.
    pub members: Vec<Member>,
    /// Its processes, by their numbers.
    pub processes: Vec<Process>,
    /// The integer fields of the first object that process 0 made, member by member, each behind the number of its member.
    pub fields: Vec<(usize, i64)>,
    /// The integers that calls gave, in the order of the history.
    pub gave: Vec<i64>,
    /// Its history by numbers, `; ` between two lines, of the first hundred.
    pub history: String,
    /// The replies that process 0 received, `; ` between two, of the first hundred.
    pub replied: String,
    /// What the last line of the history writes.
    pub written: String,
}

impl Left {
    /// What a run with this history and these events left; `replies` are those that its process 0 received.
    pub fn new(
        alloc: Global,
        book: &[Line],
        events: Events,
        replies: &[Reply],
        ends: Ends,
    ) -> Result<Left, NoMemory> {
        let Ends {
            members,
            processes,
            fields,
        } = ends;
        Ok(Left {
            tally: Tally {
                events,
                book: book.len(),
                sorts: sorted(book),
            },
            members,
            processes,
            fields,
            gave: given(alloc, book)?,
            history: history_of(alloc, book)?,
            replied: replies_of(alloc, replies)?,
            written: String::from_str(alloc, written(book).unwrap_or(""))?,
        })
    }
}

/// Members and processes as a run leaves them, and the fields of its first object.
#[derive(Drop)]
pub struct Ends {
    pub members: Vec<Member>,
    pub processes: Vec<Process>,
    pub fields: Vec<(usize, i64)>,
}

/// What happened in a run.
#[derive(Clone, Copy)]
pub struct Tally {
    /// Its events.
    pub events: Events,
    /// How many lines its history has.
    pub book: usize,
    /// The same by sort.
    pub sorts: Sorts,
}
