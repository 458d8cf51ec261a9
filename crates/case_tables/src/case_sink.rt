//! An output in memory that does what a case says.

ghost use Rattle.std.specs.Prelude.{◌≡◌, ◌++◌, Some, IsErrOf, OnErr, OnOk};

use crate::given::Given;
use orca_io::{Sink, SinkFault};
use std::alloc::{AllocError, Global};

/// An output in memory with room for so many bytes, of which the puts of some numbers fail, and for others there is no memory; these put
/// nothing. The put that finds too little room takes what fits, and fails; so does each later one that isn't empty.
#[derive(Drop)]
pub struct CaseSink {
    bytes: Vec<u8>,
    failing: Vec<u64>,
    lacking: Vec<u64>,
    room: usize,
    calls: u64,
    faults: u64,
}

impl CaseSink {
    /// No bytes yet.
    pub fn new(alloc: Global, given: &Given) -> Result<CaseSink, AllocError> {
        Ok(CaseSink {
            bytes: Vec::new(alloc),
            failing: Vec::from_slice(alloc, &given.writes)?,
            lacking: Vec::from_slice(alloc, &given.lacking)?,
            room: usize::try_from(given.room).unwrap_or(usize::MAX),
            calls: 0,
            faults: 0,
        })
    }

    /// The bytes so far.
    pub fn bytes(&self) -> &[u8] {
        self.bytes.as_slice()
    }
}

// Appends the piece. Where there is no memory nothing is appended.
fn append(bytes: &mut Vec<u8>, piece: &[u8]) -> Result<(), SinkFault>
    ensures ok { OnOk result (bytes.new.items ≡ bytes.old.items ++ piece.now) }
    ensures err { OnErr result (bytes.new.items ≡ bytes.old.items) }
    ensures never { IsErrOf result SinkFault.Failed → ⊥ }
{
    bytes.extend_from_slice(piece)?;
    Ok(())
}

impl Sink for CaseSink {
    ghost told = { λ s. Some s.bytes.items };

    ghost faults = { λ s. s.faults };

    fn put(&mut self, piece: &[u8]) -> Result<(), SinkFault> {
        self.calls = self.calls.saturating_add(1);
        if self.lacking.contains(&self.calls) {
            return Err(SinkFault::NoMemory);
        }
        if self.failing.contains(&self.calls) {
            self.faults = self.faults.saturating_add(1);
            return Err(SinkFault::Failed);
        }
        if piece.len() <= self.room {
            append(&mut self.bytes, piece)?;
            self.room -= piece.len();
            return Ok(());
        }
        append(&mut self.bytes, &piece[..self.room])?;
        self.room = 0;
        self.faults = self.faults.saturating_add(1);
        Err(SinkFault::Failed)
    }
}
