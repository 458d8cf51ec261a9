//! The limits of a program beside the rules of typing: of parameters, and of tokens and declared names together.
//!
//! The floor above uses `within_limits`: with linking, typing and sound words, a program that keeps within the limits is accepted
//! (`accepted_law`). It stands on the trees and their words, on the names of the top level, and on the definitions of accepted_law
//! (specs/Limits.antt there).
#![tactic(auto)]

mod counts;
mod limits;
mod loops;
mod names;
mod parameters;

pub use limits::{PassedLimit, within_limits};
