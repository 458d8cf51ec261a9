//! Why sources are no program.

use link_rules::LinkError;
use orca_base::{Place, Text};
use type_rules::TypeError;

/// Why sources are no program.
#[derive(Debug, Drop)]
pub enum FrontFault {
    /// The first text that is no unit has no tokens, or its tokens are none: its file, the place of the fault, and what is said of it.
    Faulty {
        file: Text,
        at: Place,
        said: Vec<u8>,
    },
    /// The first text that is no unit nests too deep.
    TooNested,
    /// The units don't link.
    Unlinked {
        error: LinkError,
    },
    /// The units link, and break a rule of typing.
    Mistyped {
        error: TypeError,
    },
}
