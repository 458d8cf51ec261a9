//! The command `replay`: how it ends, for each cause.
//!
//! The floor above reads the files by `replay_files` of command_files, and has the program linked, checked and its limits judged; it ends by
//! `say_unread`, `say_refused` or `say_limited` where one of these is no success, and by `judge` else, over whatever machine performs and computes
//! the program in the source's meaning. Each gives the status, and its clause `said` that this is an answer of `replay` by its cause
//! (`IsReplayAnswer` of specs/Endings.antt). `passed_line` is the line of a limit that a program passes. It stands on the reading of files, on the program's names and on what is said of a history's text.
#![tactic(auto)]

mod judging;
mod lines;
mod refusing;

pub use judging::judge;
pub use lines::passed_line;
pub use refusing::{say_limited, say_refused, say_unread};
