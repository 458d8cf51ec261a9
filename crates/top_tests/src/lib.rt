//! What the outside does where no clause says it: real files and writers of std; and definitions of the top computed on worked examples: of
//! command lines, of help, and of histories.
//!
//! What a call of the whole program does is a case of `cases`. Here are the tests of what no such call reaches, and rows alone, so that the
//! crates below have none. Nothing stands on it.
#![tactic(auto)]

#[cfg(test)]
mod outside;
mod rows;

pub use rows::{command_rows, help_rows, one_cell_law};
