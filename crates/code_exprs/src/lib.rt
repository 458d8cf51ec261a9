//! The code of phrases: for every expression and statement of the language, exactly the instructions that the definitions of code_rules say.
//!
//! The crate above uses `CodeSite`, which is where a phrase stands with the slots of its names, `emit_statements` for the statements of a
//! body, and `emit_expression` for a guard. Each call puts instructions behind those that a listing has (emitted_code); a jump whose address
//! isn't known yet is put with address 0 and fixed once what it leads past has been put.
//!
//! Not in it: bodies with what their variables open with (code_units), and what the instructions do (code_rules).
//!
//! Its main clause is that of `emit_statements`: the listing has become longer by `stmts_code` of these statements, whether they are well
//! typed or not.
#![tactic(auto)]

mod calls;
mod code_site;
mod expressions;
mod leaves;
mod names;
mod statements;

pub use code_site::CodeSite;
pub use expressions::emit_expression;
pub use statements::emit_statements;
