//! Code as a compiler emits it: instructions with all that belongs to them, listings that grow, and the bodies and the program that are
//! made of them. It is what the compiler gives (code_exprs, code_units) and what stack_code packs; `instr_of`, `code_of` and `program_seen`
//! (specs/Views.antt) say what it is in the definitions' words (code_rules).
//!
//! Not in it: which code a phrase gets, what makes code sound, and the form in which a machine runs it.
//!
//! Its main clause is `put` of `Listing`: what was emitted stays, and one instruction more stands behind it.
#![tactic(auto)]

mod bodies;
mod instr;
mod listing;

pub use bodies::{Emitted, EmittedBody, EmittedOperation, EmittedType};
pub use instr::{Instr, Mark, Prefix, Shape};
pub use listing::{Listing, Spot};
