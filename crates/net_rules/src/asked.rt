//! What a wire was asked, and what it answered.

use crate::fate::{Fate, WireAct};
use group_packets::PacketKind;

/// What a wire is told of a packet that it is asked about.
#[derive(Clone, Copy, Debug, PartialEq, Eq)]
pub struct Question {
    /// The packet's number, from 1 over the whole run.
    pub packet: u64,
    /// The packet's kind.
    pub kind: PacketKind,
    /// The member that sends it.
    pub from: u8,
    /// The member that it is sent to.
    pub to: u8,
    /// The number of its bytes, or 4,294,967,295 where it is greater.
    pub length: u32,
}

/// One thing that a wire was asked, with its answer.
#[derive(Clone, Copy, Debug, PartialEq, Eq)]
pub enum Asked {
    /// What happens to a packet.
    Packet {
        /// The packet.
        question: Question,
        /// The answer.
        fate: Fate,
    },
    /// What the wire does before an event.
    Act {
        /// The event's number, from 1 over the whole run.
        event_number: u64,
        /// The answer.
        act: Option<WireAct>,
    },
}
