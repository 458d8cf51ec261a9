//! What standard error is told behind a command: the note on how it ended, of its status, its words and the texts that were read.
//!
//! The floor above uses `write_note`. Where texts were refused they are judged once more, by
//! the calls that refused them (`linked` and `accepted` of orca_front, `within_limits`, `read_script`): what a note says is true of the texts
//! that it is given (`IsEndingNote`), and there is one unless none is owed (`IsUnowed`). Which word of a command line is wrong it looks for by
//! itself: that there is a note is a clause, and that it names the right word none. It knows no standard output.
//!
//! Its main clauses are `told` and `owed` of `ending_note`, and that of `write_note`.
#![tactic(auto)]

mod ending;
mod named;
mod programs;
mod scripts;
mod usage;
mod writing;

pub use ending::ending_note;
pub use writing::write_note;
