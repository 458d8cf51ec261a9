//! Why units don't link.

use orca_base::{Place, Text};

/// A breach of a rule of linking (docs/LANGUAGE.md, Linking).
#[derive(Debug, Drop)]
pub struct LinkError {
    /// The number of the rule: 1 a name defined twice, 2 an unknown module, 3 an import cycle, 4 no `OrcaMain`, 5 a specification
    /// without an implementation.
    pub rule: u8,
    /// The name at fault; empty for rule 4.
    pub name: Text,
    /// The file where it stands; empty for rule 4.
    pub file: Text,
    /// The name's place in that file; line 1, column 1 for rule 4, and for a module `Main` that no `module` line names.
    pub at: Place,
}
