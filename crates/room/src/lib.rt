//! A run by several workers: its world and its wires stand under one lock, and whoever has it does the next event, or takes a burst that is
//! computed without it (docs/proofs/room.md).
//!
//! The floor above uses `run`, which promises what `run` of `run_loop` promises, word for word: *the lock's value is a replay*
//! (`RoomState`), whichever worker had it, and so is what is left when all workers have ended. With one worker no lock is taken, and no
//! thread is made.
//!
//! It stands on `room_state`, what is under the lock, and on `node_runner`, the workers. No clause says that two bursts are computed at one
//! time, that a worker gets on, or in which order workers come.
#![tactic(auto)]

mod desk;
mod ran;

pub use desk::{Room, RoomDesk};
pub use node_runner::{Gate, OpenGate};
pub use ran::run;
pub use room_state::{
    NodeEnd, Phase, PlaceNote, ProcessEnd, ProcessStanding, Ran, RoomRun, RoomState, RunEnd,
    Settings, Standing, Step, Taken, WireNames,
};
