//! The top call: what the program does for its words.
//!
//! Its clauses are the product's: what each status means, which line each prints, and that a kept run is a history of the program in the
//! files, or of the one that `make` makes of a number, on all of its members, over a network that was really used (`IsRun` of
//! specs/Headline.antt). It stands on `orca_answers`, which answers
//! words that ask for no run, on the machine of accepted programs and their names, and on `run_loop`, which runs a machine over wires; it
//! knows no real file and no packet.
#![tactic(auto)]

mod kept;
mod lines;
mod making;
mod names;
mod places;
mod printing;
mod report;
mod top;

pub use command_output::{
    ABSENT, BAD_SCRIPT, BLOCKED, FAULTED, FINISHED, LIMIT, NO_GROUP, NO_MEMORY, OUT_OF_EVENTS,
    OUT_OF_TURNS, READ_FAULT, REFUSED, USAGE, WRITE_FAULT,
};
pub use kept::{Ended, Kept};
pub use orca_answers::endings_law;
pub use run_loop::{NodeEnd, PlaceNote, ProcessEnd, ProcessStanding, Step};
pub use top::{orca_main, orca_main_over};
