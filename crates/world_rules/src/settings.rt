//! What a run is given besides its program.

use orca_base::{Choice, Items};

/// The numbers of a run, and its choices of copies.
#[derive(Debug, Drop)]
pub struct Settings {
    /// How many members there are: from 1 to 16.
    pub nodes: u8,
    /// How many of them may be lost with what they alone hold: twice as many are fewer than the members.
    pub resilience: u8,
    /// How many turns each process may take in all: from 1 to 10,000,000.
    pub turns: u64,
    /// How many events there may be: from 1 to 4,000,000.
    pub events: u64,
    /// How many wires there are, of which the first is in use at the start: from 1 to 1,000.
    pub wires: u16,
    /// Where objects are kept, by process text and then by the number of the object at its maker, from 1. An object for which
    /// nothing stands here is replicated. Where the resilience isn't 0 nothing is single.
    pub choices: Items<Items<Choice>>,
}
