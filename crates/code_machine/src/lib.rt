//! The machine of compiled code: what performs a checked program's operations and computes its processes, by the code that the compiler
//! makes of it.
//!
//! The floors above use `CodeMachine`, made of a checked program that keeps within the limits. It meets `Performer` and `Processor` of
//! value_core with the meanings of the program's sources, `performs_of` and `computes_of` of meaning_rules, and what fits is that of
//! meaning_rules too. Nothing else of a machine's is promised, nor what it keeps of a process (`CodeState`). Runs and replays go on it.
//!
//! It stands on code_units, which compiles the program; on code_runs, which runs the code; on access_analysis, for the classes of
//! operations; on program_limits; on the law of code_rules, that the program's code means its sources; on code_numbers, by which its
//! numbers have as many bits as actions and answers give them; and on machine_laws, by which what fits stays fitting.
//!
//! A process goes on from where it stands, so that an action costs what is computed between it and the one before, and a look at each body
//! that waits. No clause says so.
//!
//! Not in it: what an instruction does (`code_steps`), and how far a run goes (`code_runs`); the fast path (`stack_machine`).
#![tactic(auto)]

mod compared;
mod copies;
mod counts;
mod machine;
mod performing;
mod processing;
mod state;

pub use machine::CodeMachine;
pub use state::CodeState;
