//! The parser of declarations, by recursive descent on slices of tokens.
//!
//! The floor above uses `declaration` and `begins_declaration`: the one answers what the reader of that form gives on lists (`Parses` of
//! `parse_exprs`, the forms of `orca_grammar`), the other whether one comes.
//!
//! It stands on the parsers of types and of statements. Declarations don't stand in one another; rows of operations, heads and guards are
//! loops.
#![tactic(auto)]

mod declarations;
mod operations;

pub use declarations::{begins_declaration, declaration};
