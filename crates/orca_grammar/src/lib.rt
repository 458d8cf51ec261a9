//! The grammar of source texts, as definitions: a table of forms, what is derived from a form, and a reader that one token decides.
//!
//! The floor above uses `IsText` (the marks of a unit are a derivation from these tokens), `IsUnexpected` and `IsTooNested` (the first
//! token with which no unit goes on, and the first that stands too deep), and of proofs/ the steps of a reader (Steps.antt) and what
//! reading a whole text says (Whole.antt). The grammar itself is specs/Rules.antt, to be read beside docs/LANGUAGE.md.
//!
//! It stands on the tokens of `orca_lexer`. It reads nothing itself: parsers are proved to do what its reader does.
#![tactic(auto)]

mod law;

pub use law::{decision_law, grammar_law};
