//! Breaches within a text.

use orca_base::Place;

/// A breach of a rule of typing, at a place of a text.
#[derive(Clone, Copy, Debug, PartialEq, Eq, PartialOrd, Ord)]
pub struct Breach {
    pub at: Place,
    /// The number of the rule, from 1 to 41.
    pub rule: u8,
}
