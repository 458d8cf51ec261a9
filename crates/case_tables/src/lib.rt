//! Cases: calls of the whole program that were worked out by hand, read from tables, and what came of each.
//!
//! Without words `answer_tables` answers the tables that `tables.txt` names, files of the folder that the program is run in, and with words
//! those that they name. It prints a line for each: its name, how many cases it has, and how many were answered as wanted; in front of it,
//! of each that wasn't, what was wanted and what came. A case is a text alone (docs/CASES.md), so that adding one needs no code and no
//! proof. A case that is wrong on purpose says what is to be told of it, and so shows that a case can fail.
//!
//! What came of a call is told in an `Outcome`, which owns numbers and texts alone. So all of this stands below the product's top, and the
//! program above, `cases`, hands in who makes the calls (`Calls`) and has nothing else. It promises nothing to others: the gate runs
//! `cases` and compares what it prints. Not in it: the product, and how a call of it is made.
#![tactic(auto)]

mod bound;
mod calls;
mod case;
mod case_sink;
mod ends;
mod events;
mod given;
mod heads;
mod judge;
mod lines;
mod outcome;
mod read;
mod rows;
mod spelled;
mod tables;
mod topics;

pub use calls::{By, CallParts, Calls};
pub use case_sink::CaseSink;
pub use ends::{Member, Process, Standing};
pub use events::{Counts, Events};
pub use given::{CaseFile, Given, Outside, Policies, Wires};
pub use outcome::{Ends, Left, Outcome};
pub use tables::answer_tables;
