//! Tests of a run in code: runs of a few members to their end, and what each call of a world does in its place.
//!
//! They stand here, so that the crates below have none. `Cells` is a machine by hand whose process uses one cell; the runs of several
//! processes are those of `bag_processes`. Nothing stands on it.
#![tactic(auto)]

#[cfg(test)]
mod calls;
mod cells;
mod driving;
mod full_wire;
#[cfg(test)]
mod runs;

pub use cells::{Cells, Player};
pub use driving::{Run, computes, due, go, hands_out, ran, settings, single_settings};
pub use full_wire::FullWire;
