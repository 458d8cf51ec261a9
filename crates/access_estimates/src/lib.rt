//! Estimates of a program's sites, in code.
//!
//! The floor above uses `estimates`, whose clause is that it gives `estimates` of estimate_rules at the program's sources, and
//! `estimates_by_text`, which gives the same text by text, as a run's choices go. Each body is gone through once, for its uses of objects
//! (`uses_of`); then names are looked up, each at the cost of a logarithm (`resolved_in`); and each round goes through what is done with
//! objects, without a name (`rounds`). So the cost is that of the program's text times a logarithm, and of its uses times the rounds.
//!
//! It stands on type_decls, whose tables of a checked program it asks, on the numbers of program_tables and on the classes of
//! access_analysis. It chooses nothing: that is for `replica_choice`. What specs/ has is cited by private functions alone.
#![tactic(auto)]

mod estimated;
mod expressions;
mod locals;
mod program;
mod resolved;
mod resolving;
mod rounds;
mod routines;
mod statements;
mod summaries;
mod uses;

pub use program::{estimates, estimates_by_text};
