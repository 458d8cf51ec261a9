//! A run in code: members, the network between them, and what is kept of it (docs/RUNTIME.md, The world of a run).
//!
//! The floor above uses `World<P>`, which stores the steps of a run and stands for their replay by the rules of `world_rules`: `step` does
//! an event exactly where it is possible, `check_out` and `check_in` let a process compute outside, and the choosers, the standing, the
//! book and the ends are those of the replayed world. It stands on `world_parts`, what a run is made of, on `run_ends`, what is told of it, on
//! `node_core`, one member's code, and on the law of runs (`world_book`, `world_calls`, `run_law`). It knows nothing of threads, of files or
//! of source texts.
#![tactic(auto)]

mod burst;
mod draft;
mod events;
mod step;
mod world;

pub use run_ends::{NodeEnd, ProcessEnd, ProcessStanding, RunEnd};
pub use step::StepError;
pub use world::World;
pub use world_rules::{Event, PlaceNote, Settings, Standing, Step};
