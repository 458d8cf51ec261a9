//! That a text spells nothing of what was asked for.

use thiserror::Error;

/// The text isn't the spelling of what was to be read.
#[derive(Clone, Copy, Debug, PartialEq, Eq, Error)]
#[error("the text spells nothing of this kind")]
pub struct Misspelled;
