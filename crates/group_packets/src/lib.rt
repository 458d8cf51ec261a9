//! The packets of a group: all kinds, with their lengths in bytes and their copies.
//!
//! The floor above uses `packet_length`, which is exact up to 4,294,967,295, and `Packet::copy`, which gives an equal
//! packet. It stands on `orca_base`, whose `Body` says what a message is to a group: a name, a length and a copy. It
//! doesn't spell packets in bytes, and knows of no member, sender or receiver. Which packets bytes can spell is said in
//! `IsSoundPacket`; `group_law` shows it of whatever a group sends.
#![tactic(auto)]

mod packet;

pub use packet::{Join, News, Packet, PacketKind, packet_length};
