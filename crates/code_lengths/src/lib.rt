//! Code is no longer than its text, as a law of the definitions: the code that code_rules has of a program has at most one instruction for
//! each token of the program's texts.
//!
//! So a limit on the tokens of a program is one on its code. The compiler (code_programs) says so of the code that it gives, and by it no
//! body is too long to be packed.
//!
//! No code stands here. Its main clause is `programs` of `length_law`.
#![tactic(auto)]

mod law;

pub use law::length_law;
