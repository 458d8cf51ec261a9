//! What happens in a run, one event after the other.

use net_rules::Fate;
use orca_base::{Items, ProcessNo};

/// One event of a run: one atomic step.
#[derive(Clone, Copy, Debug, PartialEq, Eq)]
pub enum Event {
    /// What a process computed on a view of its member's objects is checked in.
    Burst {
        process: ProcessNo,
        /// How many entries the view's copies had applied.
        place: u64,
        /// How many turns the process took.
        turns: u32,
    },
    /// The action at which a process is, is carried out at its member.
    Act {
        process: ProcessNo,
    },
    /// A copy of a packet comes to its receiver.
    Deliver {
        /// The packet's number, from 1 over the whole run.
        packet: u64,
        /// 0, or 1 for the second copy of one that arrives twice.
        copy: u8,
    },
    /// Time passes: packets that are held wait one tick less, and each living member's timer runs.
    Tick,
    /// A member crashes, and stays down.
    Crash {
        node: u8,
    },
    /// A member suspects its sequencer, and coordinates a reset.
    Suspect {
        node: u8,
    },
    /// The next wire takes the place of the one in use.
    Swap,
}

/// An event, with the fates of the packets that it sent, in the order in which it sent them.
#[derive(Debug, Drop)]
pub struct Step {
    pub event: Event,
    pub fates: Items<Fate>,
}
