//! Estimates of how often the objects that a program makes are read and written.
//!
//! The floor above uses `Estimate`, of one site: an object variable of a process's text; and `Counts`, reads and writes, with their sums
//! and products, which stop at `ESTIMATE_LIMIT` (`plus` and `times` of specs/). It knows nothing of programs, and chooses nothing: that is
//! for `replica_choice`.
#![tactic(auto)]

mod counts;
mod estimate;

pub use counts::{Counts, ESTIMATE_LIMIT, capped, ten_times};
pub use estimate::Estimate;
