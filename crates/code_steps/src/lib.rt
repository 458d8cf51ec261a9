//! One instruction of compiled code, done on values: every instruction that there is.
//!
//! `step` does the instruction at which a configuration stands, as `step` of `code_rules` says, for every code and configuration: it goes
//! on, begins a turn, asks for an action, faults, ends, tests a guard, finds all of them false, or is stuck (`step`, its main clause;
//! `Effect`). It asks for nothing but that an object which this instruction makes has a number of 32 bits, and leaves open want of memory.
//!
//! It is the slow, whole machine's inside: values stand where they are read and written, and nothing is compiled further. What variables
//! hold is done by `frame_variables`, of any values. Not in it: loops over instructions, and whose meaning the code has
//! (`code_machine`); the fast path (`stack_machine`).
#![tactic(auto)]

mod actions;
mod advance;
mod arguments;
mod bodies;
mod calls;
mod config;
mod constants;
mod inner;
mod lines;
mod loops;
mod nodes;
mod operands;
mod operators;
mod paths;
mod pushing;
mod slots;
mod stepping;
#[cfg(test)]
mod tests;
mod variables;

pub use bodies::{body_at, operation_at};
pub use config::{BodyNo, Caller, Config, Effect};
pub use operands::Operands;
pub use slots::{add_copies, add_spare, first_values};
pub use stepping::step;
