//! The objects of a member, the suspended calls, and how these settle.
//!
//! The floor above uses that `settle` gives what `settled` of specs/Settles.antt says: repeatedly the oldest suspended call
//! whose try isn't blocked is performed or faults and leaves the queue, until each is blocked. It stands on the meanings of
//! `value_core`, and knows nothing of entries, members or the text of a program.
#![tactic(auto)]

mod change;
mod index;
mod laws;
mod objects;
mod queue;
mod settling;

pub use change::Change;
pub use laws::settling_law;
pub use objects::Objects;
pub use queue::{Queue, Suspended};
pub use settling::{Answered, perform, settle, settle_after, try_call, try_on};
