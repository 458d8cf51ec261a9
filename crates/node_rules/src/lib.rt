//! What a member's code is asked in one event, as definitions (docs/RUNTIME.md, The world of a run).
//!
//! An event's part of a member is made of pieces, between which code makes its calls: `Moment` is where it stands, `Goes` leads from one to
//! the next, and `EventFits` says what the calls ask where an event begins, and at each moment behind its first piece. So a law of the
//! world proves the conditions by one induction, and the members' code, which goes the same way, finds them at each call. It stands on the
//! definitions of the world alone, and has no code. That the conditions hold in a run is `world_calls`, above it.
#![tactic(auto)]

mod laws;

pub use laws::walking_law;
