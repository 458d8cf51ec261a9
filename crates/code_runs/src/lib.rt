//! Runs of compiled code on values, instruction by instruction, for every construct of the language: how far a process goes with a budget
//! of turns, what a try of an operation gives, and what the making of an object gives.
//!
//! Each is said of whatever code, in the words of `code_rules`: what is given is what the code comes to with some number of instructions
//! (`Gives`, specs/Runs.antt), and where the code gets stuck nothing is said. Its main clauses are those of `go`, `try_operation` and
//! `make_object`; `start` and `answer` are equations. Asked is that the objects which the code makes have numbers of 32 bits, wherever a
//! run stands, that whatever a try comes to has a guard's number of 16 bits, and of a budget that it has a turn and fits 64 bits with the
//! turns that were taken. What is lent is never changed.
//!
//! Not in it: what one instruction does (`code_steps`); whose meaning the code has, and the traits `Performer` and `Processor`
//! (`code_machine`); the fast path (`stack_machine`).
#![tactic(auto)]

mod attempts;
mod beginnings;
mod makings;
mod process;
mod runs;
#[cfg(test)]
mod tests;

pub use attempts::try_operation;
pub use makings::make_object;
pub use process::{CodeProcess, Phase, answer, go, start};
