//! A run that several workers may do, one call at a time: what stands under a room's lock (docs/proofs/room.md).
//!
//! The floor above uses `RoomState`, which owns a run's world and its wires: `take` does the next event, or hands out a burst that is
//! computed outside, and `put` takes that in. *The value is a replay*: between any two calls its steps are a run's, and the wires were used
//! in it (`Holds` of specs/Held.antt), whichever tasks are out. So what it leaves is what `run` of `run_loop` promises (`into_ran`), and
//! `take` says which event comes, or whose burst, by the stated order. A wire is asked about an act at most once before each event, and
//! where memory lacked no event comes any more.
//!
//! It stands on `world_core`, which does the events, hands tasks out and takes them back, and on the definitions of `run_loop`. It knows
//! nothing of threads and of locks.
#![tactic(auto)]

mod asking;
mod drive;
mod order;
mod phase;
mod run_wires;
mod state;

pub use phase::Phase;
pub use run_loop::{
    NodeEnd, PlaceNote, ProcessEnd, ProcessStanding, Ran, RunEnd, Settings, Standing, Step,
};
pub use run_wires::{RoomRun, WireNames};
pub use state::{RoomState, Taken};
