//! The names of a program's object types, operations and process texts, by their numbers.
//!
//! The floor above uses `names`: the `Names` (history_text) of a checked program, by which the lines of its histories have texts. They are
//! those of the source (`AreNamesOf`, specs/Naming.antt). Where the program keeps within the limits they are tables, as printers and
//! readers of histories ask; each line of each of its histories has its names in them (`HistoriesNamed`), and so has each call that a
//! process comes to next behind one, as one that is blocked (`CallsNamed`).
//!
//! It stands on the tables of names of a checked program (type_decls), on the meaning of programs with its laws, and on the law of
//! histories. The names of the top level are gone through three times.
#![tactic(auto)]

mod law;
mod tables;

pub use law::names_law;
pub use tables::names;
