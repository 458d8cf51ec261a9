//! What the commands over histories say and print: `replay`, and a run under `--history`.
//!
//! The floor above uses `replay_text`, which reads a text and judges its lines, over whatever performs and computes the program: it is a history,
//! or the first line that isn't of the form or no step is told (`IsToldOf` of specs/Replays.antt), with `Answer`'s status and line;
//! `say_answer`, which prints that; and `print_lines`, which prints the text of a run's book. A text has one answer, and that of a book is legal once it is read back
//! (`answer_law`; `ReadsBack` of specs/ReadBack.antt). The names of lines are handed in; files and programs aren't its matter.
#![tactic(auto)]

mod answer;
mod laws;
mod printing;

pub use answer::{Answer, replay_text, say_answer};
pub use laws::answer_law;
pub use printing::print_lines;
