//! The code of a program: of each function, process, operation and making of a checked program within the limits, exactly as the
//! definitions of code_rules have it.
//!
//! The crate above calls `compile`. Each body is emitted once, by the calls of code_exprs, into a listing of its own; what its names open
//! with, and how many slots its loops need, stand beside it (emitted_code). What a name opens with is made anew for each name.
//!
//! Not in it: the code of phrases, and the limit on a program's tokens and declared names.
//!
//! Its main clause is that of `compile`: what is compiled is `program_code` of the sources.
#![tactic(auto)]

mod bodies;
mod depths;
mod objects;
mod operations;
mod processes;
mod program;

pub use program::compile;
