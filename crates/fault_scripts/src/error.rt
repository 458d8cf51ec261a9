//! Why a text is no script.

use thiserror::Error;

/// The first line that is wrong, from 1, and its first word that is: its words are judged from the left.
#[derive(Clone, Copy, Debug, PartialEq, Eq, Error)]
pub enum ScriptError {
    /// No line begins with its first word, no kind of packet has the word, or a word is too many or missing where no number stands;
    /// or the line isn't UTF-8.
    #[error("script line {line}: unknown word")]
    UnknownWord { line: u32 },
    /// A number is missing, isn't 1 to 19 decimal digits, or isn't in its range.
    #[error("script line {line}: bad number")]
    BadNumber { line: u32 },
}
