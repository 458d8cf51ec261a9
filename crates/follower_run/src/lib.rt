//! A run that a follower goes beside: the rounds of the command `join` (docs/RUNTIME.md, A member that joins late).
//!
//! The floor above uses `follow`: it runs a program as `run` of `run_loop` does, and after each event from a given one on the follower does a
//! round over a wire of its own; when the run has ended, further rounds go to the member that is ahead. The main clause is `joined`: that
//! wire was asked just the questions of `Rounds` of `join_law`, and the follower is where these rounds end. It stands on `run_loop`, whose
//! `Stepper` stops behind each event, on `group_join`, the follower itself, and on `join_law`, which says what its copies are. It knows
//! nothing of words, of files or of what is printed, and it needs a run without single objects.
#![tactic(auto)]

mod along;
mod arrivals;
mod beside;
mod joined;
mod members;
mod round;
mod rounds;
mod sending;

pub use beside::follow;
pub use joined::{FollowerLeft, Joined};
