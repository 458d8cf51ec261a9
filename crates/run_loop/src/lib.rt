//! A run by one thread: one event after the other, until the run isn't going (docs/proofs/top.md).
//!
//! The floor above uses `run`: what it leaves is the end of the run to which its steps lead, and the wires were used in it (`HasRun` of
//! specs/Left.antt). Before each event the wire in use is asked what it does; where it does nothing, the first of these comes that there
//! is: an action is carried out, a packet comes, a process computes, time passes. That order is tested, and no clause but for which packet
//! comes. `Stepper` does the same run event by event, for what is done with its world between events and behind the last. It stands on
//! `world_core`, which does the events and says which there may be, and on the trait of wires. It knows nothing of words, of files or of
//! source texts.
#![tactic(auto)]

mod asking;
mod drive;
mod order;
mod ran;
mod stepper;

pub use ran::{Ran, run};
pub use stepper::Stepper;
pub use world_core::{
    NodeEnd, PlaceNote, ProcessEnd, ProcessStanding, RunEnd, Settings, Standing, Step,
};
