//! The command `make`: how the program that it makes of a number is run, and what it prints.
//!
//! The floor above uses `job_of`, which gives for the options of the words what is run: the generated program as a source, the script of
//! losses, and the options of the run (`program_file` of generated_program; `losses`, `run_options` of specs/); `print_program`, which
//! prints the program for `make --source`; and `print_made`, which prints the line of the run: the summary where it has finished, and else
//! the line of its ending (`made_line` of specs/Summary.antt). Each is exactly what its definition says. It stands on the words of the
//! command line, on scripts of faults and on sinks. It runs nothing: how the run stands, what it left and the line of its ending are
//! handed in.
#![tactic(auto)]

mod job;
mod law;
mod printing;
mod script;
mod summary;

pub use job::{MakeJob, job_of, run_options};
pub use law::{losses_law, make_rows};
pub use printing::{print_made, print_program};
pub use script::losses;
pub use summary::{Summary, made_line};
