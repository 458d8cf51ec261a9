//! Letters in bytes: what a member sends, spelled for a wire, and the packet that bytes which came are (docs/RUNTIME.md, Packets in bytes).
//!
//! The floor above, `world_core`, spells with `write_letter` what members sent (`IsOutgoing` of specs/Letters.antt: the bytes twice, and what
//! a wire is told of them), and reads with `read_letter` what a network delivers (`IsIncoming`: none where the bytes are no packet's).
//! Members share the messages of packets, so each is copied once where it is spelled. It stands on `packet_bytes`. It knows nothing of what a
//! wire does with a letter, and of what a member does in an event.
#![tactic(auto)]

mod letters;

pub use letters::{Outgoing, read_letter, write_letter};
