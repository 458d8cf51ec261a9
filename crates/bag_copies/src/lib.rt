//! Copies of pools and flags: entries, calls on single objects and reads whose conditions are tested as they come.
//!
//! The crates above use that the calls of `BagCopies` do what those of `Copies` do under the performer `Bags`, and refuse what
//! doesn't meet their conditions, so that none of them has a condition itself. It serves tests and times of `guard_queue` and
//! `object_manager`, which know no performer; it stands on both, and on `bag_performer`.
#![tactic(auto)]

mod entries;
mod filling;
mod messages;

pub use entries::{BagCopies, BagView, Refused};
pub use filling::{fork_many, make_flags, object, pass_flags, release, set_many, wait_many};
pub use messages::{call, fork, make};
