//! Why bytes spell no value.

use thiserror::Error;

/// The first fault from the left (docs/LANGUAGE.md, Values). Places are bytes from 0.
#[derive(Clone, Copy, Debug, PartialEq, Eq, Error)]
pub enum ValueError {
    /// The bytes end within the value. The place is the number of bytes given.
    #[error("the bytes end at {at} within a value")]
    Short { at: u32 },
    /// No value has the tag at this place.
    #[error("no value has the tag at {at}")]
    BadTag { at: u32 },
    /// At this place a byte is too great, an element breaks the order of its set or bag, or a tag nests as the 17th.
    #[error("the spelling at {at} is not canonical")]
    NotCanonical { at: u32 },
}
