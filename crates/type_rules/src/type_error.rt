//! Why a program isn't well typed.

use orca_base::{Place, Text};

/// A breach of a rule of typing (docs/LANGUAGE.md, Typing).
#[derive(Debug, Drop)]
pub struct TypeError {
    /// The number of the rule, from 1 to 41.
    pub rule: u8,
    /// The file where it is broken.
    pub file: Text,
    /// The place of what is at fault.
    pub at: Place,
}
