//! The front end: from files with their texts to a program that is accepted.
//!
//! The floor above uses `linked`, the program that sources are, exactly where each is a unit that nests no deeper than may be and they
//! link, and `accepted`, that program exactly where it breaks no rule of typing; and otherwise why not (`FrontFault`, `IsFault` of
//! specs/Sources.antt): the first text that is no unit, with its place and what is said of it, or the first breach of linking or of typing.
//! `fault_line` is the line that tells it.
//!
//! It stands on the lexer, the parser, linking and typing, and says nothing of how files are read. Texts are judged in the order of the
//! files, linking only where all are units, and typing only where they link. An accepted program may still pass the limits on parameters and
//! on the length of its code.
#![tactic(auto)]

mod fault;
mod lines;
mod reading;
mod source;
mod units;

pub use fault::FrontFault;
pub use lines::{fault_line, limit_line};
pub use source::SourceFile;
pub use units::{accepted, linked};
