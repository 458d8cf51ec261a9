//! The code of a checked program: the compiler, from what the front end gives to code in words.
//!
//! The floor above uses `compile`: a program within the limits gets exactly the code that the definitions have of it (code_rules), packed
//! (stack_code), and that code means the program's sources; any other is refused by the limit that it passes (program_limits); or memory
//! lacks, of which no clause says when. It stands on the tables that program_bodies makes of a program, on code_units, which emits its
//! code, and on `length_law`, by which no body is too long to be packed. That its code can't get stuck is `code_cannot_get_stuck` of
//! stack_code, and no clause here.
//!
//! Not in it: text and typing (orca_front), which code a phrase gets (code_exprs, code_units), the listing (stack_code), and a machine.
//!
//! Its main clause is `code` of `compile`.
#![tactic(auto)]

mod programs;

pub use programs::compile;
