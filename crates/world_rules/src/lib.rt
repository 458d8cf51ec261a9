//! The world of a run, as definitions: members with their copies and processes, the network, and the book that is kept
//! (docs/RUNTIME.md, The world of a run).
//!
//! The floors above cite `Possible` and `happens`: where an event may be and what it leaves; `Next` and `Replays`: the worlds that steps
//! lead to; `Book`, `places` and `standing`: what is told of a world; `WereUsed`: what wires were asked and gave. It stands on the
//! definitions of copies, of the book, of the group and of wires. Its types are plain data; its functions carry no code, and each has
//! clauses that the check computes. What is true of every run isn't said here, nor is a packet spelled in bytes.
#![tactic(auto)]

mod acts;
mod event;
mod runs;
mod settings;
mod single_steps;
mod standing;
mod wrong_rules;

pub use acts::acts_of_wires;
pub use event::{Event, Step};
pub use runs::{lost_entry_and_early_read, one_cell_on_three_members};
pub use settings::Settings;
pub use single_steps::{network_steps, process_steps, single_copies};
pub use standing::{PlaceNote, Standing};
pub use wrong_rules::wrong_rules_differ;
