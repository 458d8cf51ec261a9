//! The lines of a script.

use crate::fate::{Fate, WireAct};
use group_packets::PacketKind;

/// The kinds of packets that a line of a script counts.
#[derive(Clone, Copy, Debug, PartialEq, Eq)]
pub enum Kinds {
    /// All kinds.
    Any,
    /// One kind.
    Only {
        /// That kind.
        kind: PacketKind,
    },
}

/// Which of the packets that a line counts it speaks of.
#[derive(Clone, Copy, Debug, PartialEq, Eq)]
pub enum Which {
    /// Each.
    All,
    /// One.
    Nth {
        /// Its number among those that the wire was asked about, from 1.
        number: u64,
    },
}

/// A line of a script that says something. Lines are judged in their order.
#[derive(Clone, Copy, Debug, PartialEq, Eq)]
pub enum ScriptLine {
    /// What happens to packets.
    Fate {
        /// The kinds that it counts.
        kinds: Kinds,
        /// Which packets of these kinds.
        which: Which,
        /// What happens to them.
        fate: Fate,
    },
    /// An act, due once so many packets were asked about.
    Act {
        /// The kinds that it counts.
        kinds: Kinds,
        /// How many packets of these kinds, at least 1.
        number: u64,
        /// The act.
        act: WireAct,
    },
    /// What happens to packets of which no other line says it: they are dropped by chance.
    Seed {
        /// What the random words are drawn from, below 2^63.
        seed: u64,
        /// How many of a hundred words drop a packet, at most 100.
        percent: u8,
    },
}
