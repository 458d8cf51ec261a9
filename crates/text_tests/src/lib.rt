//! What no clause of the text's crates says: real texts through the lexer, the parsers and the printer.
//!
//! Places and slices of tokens, the first reason for which a text has none, how expressions are grouped and nesting is counted, and what a
//! unit prints; each call that may lack memory is made once with ample memory. The first bad token of each production is tried by
//! `cases`. It stands on the crates from the lexer to the parser of units, and nothing stands on it.
#![tactic(auto)]

#[cfg(test)]
mod lexemes;
#[cfg(test)]
mod linking;
#[cfg(test)]
mod trees;
