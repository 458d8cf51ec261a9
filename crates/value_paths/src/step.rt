//! Steps.

/// A step from a value to one of its parts.
#[derive(Clone, Copy, Debug, PartialEq, Eq)]
pub enum Step {
    /// To the part of an array at an index; the array begins at this low bound.
    Index { low: i64, index: i64 },
    /// To the field of a record at this place from 0.
    Field { place: u16 },
    /// To the value of the node with this name.
    Node { name: i64 },
}
