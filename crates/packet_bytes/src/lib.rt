//! Packets and messages in bytes: one spelling for each.
//!
//! `write_packet` and `write_message` give the spelling (`specs/Spelling.antt`). `read_packet` gives the packet that all of the bytes
//! are, and `read_message` the message whose spelling stands at a place, or the first fault from the left (`specs/Reading.antt`).
//! What is read is sound and spelled so, and what is sound and spelled so is read. It stands on `group_packets`, `value_bytes` and
//! `value_core`, and knows nothing of members or wires.
#![tactic(auto)]

mod fault;
mod fields;
mod laws;
mod messages;
mod packets;
mod reading;
mod writing;

pub use fault::PacketError;
pub use fields::object_of;
pub use laws::{reading_law, spelling_law};
pub use messages::{message_of, messages_of};
pub use reading::{read_message, read_packet};
pub use writing::{
    put_eight, put_message, put_messages, put_object, put_two, write_message, write_packet,
};
