//! Workers that serve a desk (docs/RUNTIME.md, A run by several workers).
//!
//! A desk hands out work, which is computed without any lock, and takes back what was computed. The floor above uses `serve`, a worker's
//! loop, and `serve_all`, which lets several workers serve one desk, each in a thread of its own; and the traits `Desk` and `Gate`. Where
//! memory lacks in one worker the desk is stopped, so that no other one waits for work that is lost. It knows nothing of runs, members and
//! processes but the number of a process. No clause says that a worker gets on, or that two of them compute at one time: none over a lock
//! can.
#![tactic(auto)]

mod desk;
mod serving;

pub use desk::{Desk, Gate, Offer, OpenGate};
pub use serving::{serve, serve_all};
