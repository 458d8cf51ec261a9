//! Why a line wasn't done.

use orca_base::NoMemory;
use std::alloc::AllocError;

/// Why a line wasn't done.
#[derive(Clone, Copy, Debug, PartialEq, Eq)]
pub enum Failed {
    /// Memory lacked.
    NoMemory,
    /// No line has this form.
    Form,
    /// The call's condition wasn't shown.
    Condition,
}

impl Failed {
    /// The same in words.
    pub fn text(self) -> &'static str {
        match self {
            Failed::NoMemory => "no memory",
            Failed::Form => "no line has this form",
            Failed::Condition => "the call's condition isn't shown",
        }
    }
}

impl From<NoMemory> for Failed {
    fn from(_: NoMemory) -> Failed {
        Failed::NoMemory
    }
}

impl From<AllocError> for Failed {
    fn from(_: AllocError) -> Failed {
        Failed::NoMemory
    }
}
