//! Histories as texts: one spelling for each line (docs/FORMATS.md, Histories).
//!
//! `print_line` and `print_history` give the spelling (`specs/Spelling.antt`), and `read_history` the lines that a text spells, or
//! the number of the first line that is none; `read_lines` gives both, that number and the lines in front. What is read is sound
//! and spelled so, and what is sound and spelled so is read. Object types, operations and process texts stand by their names, which
//! are handed in as `Names`; program_names makes them of a checked program. `lines_fit` tells, without memory, that lines which may
//! be printed have a text; `put_operation` and `fault_name` are the spelling of an operation and of a fault alone.
#![tactic(auto)]

mod fault;
mod fits;
mod laws;
mod lines;
mod names;
mod printing;
mod reading;

pub use fault::BadLine;
pub use fits::lines_fit;
pub use laws::{line_law, reading_law};
pub use names::{Names, Operations};
pub use printing::{fault_name, print_history, print_line, put_operation};
pub use reading::{FirstLines, read_history, read_lines};
