//! What is told of a run: its history, and the ends of its members and processes (docs/RUNTIME.md, The world of a run).
//!
//! The floor above, `world_core`, hands on `book`, `places`, `node_ends`, `process_ends` and `into_end`, which tell of the parts of a run
//! what the world for which they stand says. It stands on `world_parts`, what a run is made of, and on the laws of its book (`book_law`)
//! and of the places of its lines (`world_places`). It knows nothing of how an event is done.
#![tactic(auto)]

mod ends;
mod placing;
mod telling;

pub use ends::{NodeEnd, ProcessEnd, ProcessStanding, RunEnd};
pub use placing::places;
pub use telling::{book, into_end, node_ends, process_ends};
