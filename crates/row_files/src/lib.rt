//! What the programs of rows share: tables in files, whose rows are calls with the answers that are wanted; what was read,
//! told in numbers; strings that a generator makes; and counts of those that were read both ways.
//!
//! The programs above it give `try_table` the calls of their rows. It serves tests alone: nothing of the product stands on it, and
//! what a row wants is said by its file. Deliberately not in it: any call of the product but the copies of values in numbers.
#![tactic(auto)]

mod draws;
mod files;
pub mod flat;
mod rows;
mod tried;

pub use draws::{Draws, Strings};
pub use files::{Calls, try_table};
pub use rows::{
    Row, RowError, add_part, bytes, integer, integers, malformed, number_8, number_16, number_32,
    number_64, said, words,
};
pub use tried::{Answer, Counts, answer};
