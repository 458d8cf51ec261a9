//! A place to write to.

ghost use Rattle.std.specs.Prelude.{◌≡◌, ◌≤◌, ◌↔◌, ◌++◌, ℕ, List, [], Option, None, Some, Contains};
ghost use Rattle.std.specs.Prelude.{IsErrOf, OnOk, OnErr};
ghost use Rattle.orca_io.specs.declared.sink.SinkFault.TheVariants.{NoMemory as Without};
ghost use Rattle.orca_io.specs.Causes.{counted};
ghost use Rattle.orca_io.specs.Sinks.{Puts};

use std::alloc::{AllocError, AllocFailed, Global};
use std::io::{ErrorKind, Write};
use thiserror::Error;

/// Why a piece could not be put.
#[derive(Clone, Copy, Debug, PartialEq, Eq, Error)]
pub enum SinkFault {
    /// It can't be written to.
    #[error("the output cannot be written")]
    Failed,
    /// There was no memory for the piece.
    #[error("out of memory")]
    NoMemory,
}

impl From<AllocError> for SinkFault {
    ghost from_gives = { λ _ e. e ≡ Without };

    fn from(_: AllocError) -> SinkFault {
        SinkFault::NoMemory
    }
}

impl<T: Drop> From<AllocFailed<T>> for SinkFault {
    ghost from_gives = { λ _ e. e ≡ Without };

    fn from(_: AllocFailed<T>) -> SinkFault {
        SinkFault::NoMemory
    }
}

impl From<orca_base::NoMemory> for SinkFault {
    ghost from_gives = { λ _ e. e ≡ Without };

    fn from(_: orca_base::NoMemory) -> SinkFault {
        SinkFault::NoMemory
    }
}

/// A place to write to, in pieces.
pub trait Sink {
    /// The bytes so far, where the sink can tell them.
    ghost told: { Self → Option (List ℕ) };

    /// How many writes have failed. It never falls, and stands still at the end of 64 bits.
    ghost faults: { Self → ℕ };

    /// Puts a piece at the end.
    ///
    /// After `Failed` a prefix of the piece was put, and after `NoMemory` nothing. The count of faults rises by one where the answer
    /// is `Failed`, and stays otherwise.
    fn put(&mut self, piece: &[u8]) -> Result<(), SinkFault>
        ensures puts { Puts (told self.old) (told self.new) piece.now result }
        ensures later { faults self.old ≤ faults self.new }
        ensures failed { IsErrOf result SinkFault.Failed → faults self.new ≡ counted (faults self.old) }
        ensures quiet { (IsErrOf result SinkFault.Failed → ⊥) → faults self.new ≡ faults self.old };
}

/// A sink in memory. The calls of `put` that have the given numbers fail before they put anything.
#[derive(Drop)]
pub struct MemorySink {
    bytes: Vec<u8>,
    failing: Vec<u64>,
    calls: u64,
    faults: u64,
}

impl MemorySink {
    ghost use Rattle.orca_io.specs.Failing.{failing_writes, writes_so_far};

    /// No bytes yet. `failing` has the numbers of the calls that fail, counted from 1.
    pub fn new(alloc: Global, failing: Vec<u64>) -> MemorySink
        ensures told { ⟦<MemorySink as Sink>⟧.told result ≡ Some [] }
        ensures faults { ⟦<MemorySink as Sink>⟧.faults result ≡ 0 }
        ensures failing { failing_writes result ≡ failing.items }
        ensures unwritten { writes_so_far result ≡ 0 }
    {
        MemorySink {
            bytes: Vec::new(alloc),
            failing,
            calls: 0,
            faults: 0,
        }
    }

    /// The bytes so far.
    pub fn bytes(&self) -> &[u8]
        ensures { Some result.now ≡ ⟦<MemorySink as Sink>⟧.told self.now }
    {
        self.bytes.as_slice()
    }
}

/// Appends the piece. Where there is no memory nothing is appended.
fn append(bytes: &mut Vec<u8>, piece: &[u8]) -> Result<(), SinkFault>
    ensures ok { OnOk result (bytes.new.items ≡ bytes.old.items ++ piece.now) }
    ensures err { OnErr result (bytes.new.items ≡ bytes.old.items) }
    ensures never { IsErrOf result SinkFault.Failed → ⊥ }
{
    bytes.extend_from_slice(piece)?;
    Ok(())
}

impl Sink for MemorySink {
    ghost use Rattle.orca_io.specs.Failing.{failed_writes, failing_writes, told_bytes, writes_so_far};

    ghost told = { told_bytes };

    ghost faults = { failed_writes };

    fn put(&mut self, piece: &[u8]) -> Result<(), SinkFault>
        ensures puts { Puts (told_bytes self.old) (told_bytes self.new) piece.now result }
        ensures later { failed_writes self.old ≤ failed_writes self.new }
        ensures failed { IsErrOf result SinkFault.Failed → failed_writes self.new ≡ counted (failed_writes self.old) }
        ensures quiet { (IsErrOf result SinkFault.Failed → ⊥) → failed_writes self.new ≡ failed_writes self.old }

        // Exactly the calls with the given numbers fail, and put nothing.
        ensures fails { IsErrOf result SinkFault.Failed ↔ Contains (failing_writes self.old) (writes_so_far self.new) }
        ensures counts { writes_so_far self.new ≡ counted (writes_so_far self.old) }
        ensures failing { failing_writes self.new ≡ failing_writes self.old }
        ensures nothing { OnErr result (told_bytes self.new ≡ told_bytes self.old) }
    {
        self.calls = self.calls.saturating_add(1);
        if self.failing.contains(&self.calls) {
            self.faults = self.faults.saturating_add(1);
            return Err(SinkFault::Failed);
        }
        append(&mut self.bytes, piece)
    }
}

/// A sink in memory, whose writes never fail.
#[derive(Drop)]
pub struct SureSink {
    bytes: Vec<u8>,
}

impl SureSink {
    /// No bytes yet.
    pub fn new(alloc: Global) -> SureSink
        ensures { ⟦<SureSink as Sink>⟧.told result ≡ Some [] }
    {
        SureSink {
            bytes: Vec::new(alloc),
        }
    }

    /// The bytes so far.
    pub fn bytes(&self) -> &[u8]
        ensures { Some result.now ≡ ⟦<SureSink as Sink>⟧.told self.now }
    {
        self.bytes.as_slice()
    }
}

impl Sink for SureSink {
    ghost told = { λ s. Some s.bytes.items };

    ghost faults = { λ _. 0 };

    fn put(&mut self, piece: &[u8]) -> Result<(), SinkFault> {
        append(&mut self.bytes, piece)
    }
}

/// Any writer of std. It tells nothing: it is an edge of what is proved.
///
/// Take a writer that writes at once: one that holds bytes back finds a fault only later, or never.
#[derive(Drop)]
pub struct WriterSink<W: Write> {
    writer: W,
    faults: u64,
}

impl<W: Write> WriterSink<W> {
    ghost use Rattle.orca_io.specs.Writer.{writer_of};

    /// A sink that writes to this writer.
    pub fn new(writer: W) -> WriterSink<W>
        ensures writer { writer_of result ≡ writer }
        ensures faults { ⟦<WriterSink<W> as Sink>⟧.faults result ≡ 0 }
    {
        WriterSink { writer, faults: 0 }
    }
}

impl<W: Write> Sink for WriterSink<W> {
    ghost use Rattle.std.specs.Io.KnownBytes.{Appends};
    ghost use Rattle.orca_io.specs.Writer.{faults_of, writer_of};

    ghost told = { λ _. None };

    ghost faults = { faults_of };

    fn put(&mut self, piece: &[u8]) -> Result<(), SinkFault>
        ensures puts { Puts None None piece.now result }
        ensures later { faults_of self.old ≤ faults_of self.new }
        ensures failed { IsErrOf result SinkFault.Failed → faults_of self.new ≡ counted (faults_of self.old) }
        ensures quiet { (IsErrOf result SinkFault.Failed → ⊥) → faults_of self.new ≡ faults_of self.old }

        // What the writer says that it holds grows by the piece.
        ensures written { OnOk result (Appends (W.contents (writer_of self.old)) (W.contents (writer_of self.new)) piece.now) }
    {
        match self.writer.write_all(piece) {
            Ok(()) => Ok(()),
            Err(e) if e.kind() == ErrorKind::OutOfMemory => Err(SinkFault::NoMemory),
            Err(_) => {
                self.faults = self.faults.saturating_add(1);
                Err(SinkFault::Failed)
            }
        }
    }
}
