//! The program that `make` makes of a number: its text, and that it is accepted.
//!
//! The floor above uses `program_source`, the program as a source, whose text is exactly `program_text` of specs/Program.antt, and
//! `program_lines`, its lines; and of `program_law` that for each number the text is an accepted program: a unit that links, breaks no rule
//! of typing and keeps within the limits (`IsGenerated` of specs/Accepted.antt). It stands on the texts of sources and on what an accepted
//! program is. It reads no words, runs nothing, and doesn't say what the program does when it is run.
#![tactic(auto)]

mod law;
mod program;

pub use law::{program_law, program_rows};
pub use program::{PROGRAM_NAME, program_lines, program_source};
