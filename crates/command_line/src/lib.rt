//! The command line: what its words ask for.
//!
//! The floor above uses `read_words`: the words are read as this request exactly where `Command` of specs/Command.antt says so, and
//! everything else is `Usage`. The first word names the command, and the words behind it are read by `clap`; the form and the
//! range of numbers are tested here. It knows all commands and options of the product, also those that are not built yet.
#![tactic(auto)]

mod commands;
mod numbers;
mod options;
mod reading;
mod request;
mod texts;

pub use reading::{Usage, read_words};
pub use request::{CommandName, GroupSize, JoinOptions, MakeOptions, Request, RunOptions};
pub use texts::{help, version};
