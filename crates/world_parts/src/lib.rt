//! What a run in code is made of: its members, the network between them, and what is kept of it (docs/RUNTIME.md, The world of a run).
//!
//! The floor above uses `Parts<P>`, which stands for a world of a run (`Stands` of specs/Standing.antt), and asks it what may come next, who
//! is where, and how the run stands. None of these calls takes memory, and none goes over what was sent, done or performed before. It
//! stands on `node_core`, one member's code, on `lossy_net`, in which packets travel as bytes, and on the law of runs. It knows nothing
//! of how an event is done.
#![tactic(auto)]

mod choosers;
mod ledger;
mod parts;
mod standing;

pub use ledger::{Ledger, Piece};
pub use parts::{Numbers, Parts};
