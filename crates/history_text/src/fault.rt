//! That a text is no history.

use thiserror::Error;

/// The first line that isn't of the form, by its number from 1.
#[derive(Clone, Copy, Debug, PartialEq, Eq, Error)]
#[error("line {line} is no line of a history")]
pub struct BadLine {
    pub line: u32,
}
