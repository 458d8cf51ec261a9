//! Why bytes are no packet.

use thiserror::Error;
use value_bytes::ValueError;

/// The first fault from the left (docs/RUNTIME.md, Packets in bytes). Places are bytes from 0.
#[derive(Clone, Copy, Debug, PartialEq, Eq, Error)]
pub enum PacketError {
    /// The bytes end within the packet. The place is the number of bytes given.
    #[error("the bytes end at {at} within a packet")]
    Short { at: u32 },
    /// No kind of packet has the tag. The place is 0.
    #[error("no packet has the tag at {at}")]
    BadTag { at: u32 },
    /// A field's byte at this place is wrong, or a value's fault is there.
    #[error("the field at {at} is wrong")]
    BadField { at: u32 },
    /// The packet ends at this place, and bytes follow.
    #[error("the packet ends at {at}, and bytes follow")]
    Trailing { at: u32 },
}
