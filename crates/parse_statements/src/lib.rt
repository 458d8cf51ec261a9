//! The parser of statements, by recursive descent on slices of tokens.
//!
//! The floor above uses `statements`, which answers what the reader of that form gives on lists (`Parses` of `parse_exprs`, the forms
//! of `orca_grammar`).
//!
//! It stands on the parser of expressions, and needs none of types. Nothing recurses deeper than a text nests: rows of statements and
//! the arms of an `if` are loops.
#![tactic(auto)]

mod made;
mod nested;
mod plain;

pub use nested::statements;
