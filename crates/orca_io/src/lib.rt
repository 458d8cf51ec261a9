//! The outside as the product sees it: a shelf of files that are read whole, and a sink to write to.
//!
//! The floor above uses the clauses of `Shelf::read_all` and `Sink::put`. A shelf tells its files, where it can, what it was asked to read
//! and how each read went, and whether reads may fail; a sink tells the bytes, and a fault comes only where its count of faults rose. Both
//! stand on std's files and writers. `FileShelf` and `WriterSink`, which reach those, tell no files and no bytes: no clause says which bytes
//! a real file has. This crate knows nothing of what the bytes mean.
#![tactic(auto)]

mod read_log;
mod shelf;
mod sink;

pub use shelf::{FileShelf, MemoryShelf, Shelf, ShelfFault, SureShelf};
pub use sink::{MemorySink, Sink, SinkFault, SureSink, WriterSink};
