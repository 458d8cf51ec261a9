//! The checker of histories: `replay` says whether lines are a history of a program, and else where and how they aren't one.
//!
//! The floor above uses that its verdict is the one that is true of the lines (`IsVerdict` of specs/Verdicts.antt; `verdict_law`). It takes
//! any lines, also ones whose numbers aren't the program's, and asks whatever performs and computes the program only what the program
//! itself does next: what fits then it has from `history_law`. It keeps each process as its machine's state, and no replies, so a line
//! costs what it computes. Texts of histories aren't its matter.
#![tactic(auto)]

mod outcome;
mod player;
mod replayed;
mod replaying;
mod verdict;

pub use replaying::replay;
pub use verdict::{BreachRule, Verdict, verdict_law};
