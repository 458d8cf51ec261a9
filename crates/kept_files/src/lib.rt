//! A shelf that keeps the texts which it gave, for the note behind a command.
//!
//! The floor above uses `KeptShelf`. What it tells to contracts is what the shelf inside of it tells (`told`, `faults`, `reads`,
//! `may_fail`), and it answers as that does: whoever reads from it learns nothing else. The texts which it keeps are those which it gave, in
//! their order, but for those that are longer than one of a program may be; where memory lacked for one it gives none out.
//!
//! Not in it: what is said of them, and real files. Its main clauses are that of `files` (`KeepsTexts`), and that it meets `Shelf` by what the
//! shelf inside tells.
#![tactic(auto)]

mod file;
mod shelf;

pub use file::KeptFile;
pub use shelf::{KeepsTexts, KeptShelf};
