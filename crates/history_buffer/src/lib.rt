//! The window of a member's log: its entries behind the purged ones, of which at most 256 are kept.
//!
//! The floor above uses `History`, seen as a base and a list: `push` appends an entry or hands it back where the window is
//! full, `get` answers by an entry's number, `purge_to` moves the base. All room is taken when it is made, so none of these
//! takes memory. `Shared` is a message whose copies are one message, so that the copy of a history over such messages costs
//! 256 counts at most and none of their contents. It stands on `orca_base` and on a ring of items, and knows of no
//! member, packet or incarnation: which numbers may be purged isn't judged here.
#![tactic(auto)]

mod history;
mod shared;

pub use history::{Full, History, Slot};
pub use shared::Shared;
