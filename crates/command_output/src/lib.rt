//! How commands end: the statuses, and what was printed by then.
//!
//! The floor above uses the definitions of specs/Printed.antt, which say what a sink's told bytes grew by and what a status says of it, and
//! `print_ending`, which prints a line and gives the status that then holds. It stands on the sink alone, and knows no command.
#![tactic(auto)]

mod ending;
mod statuses;

pub use ending::print_ending;
pub use statuses::{
    ABSENT, BAD_SCRIPT, BLOCKED, BREACH, FAULTED, FINISHED, LIMIT, NO_GROUP, NO_MEMORY,
    OUT_OF_EVENTS, OUT_OF_TURNS, READ_FAULT, REFUSED, USAGE, WRITE_FAULT,
};
