//! Processes written by hand over pools and flags, for tests of what is built over processors.
//!
//! The crates above use that `Scripts` is a `Processor` whose meanings are `bag_performs` of `bag_performer` and `script_computes` of
//! specs/Scripts.antt: one text makes a flag, changes it and forks two others, one fills and empties a pool, and the making of one faults.
//! It stands on `value_core` and `bag_performer`. No process takes a turn, and none hands objects to another.
#![tactic(auto)]

mod actor;
mod scripts;

pub use actor::Actor;
pub use scripts::Scripts;
