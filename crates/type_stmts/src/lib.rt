//! The rules of statements, in code.
//!
//! The floor above uses `stmts_breach`, the first breach of statements in text order; `body_breach`, the same of an operation's body
//! with its guards; `wants`, what a rule wants of an expression; and `BodyScope`, where statements stand. Each clause says that what is
//! found is the first of the breaches that type_rules lists (`FirstOf` of type_forms), in each scope of the definitions that this one
//! is (`IsBody` of specs/).
//!
//! It stands on type_exprs. A statement is gone through once. Each loop lends the statements inside of it a list of the open loops that
//! is one variable longer, so it costs as much as the names in it that are looked up. Statements nest no deeper than phrases of a text
//! do, and so do the calls. It says nothing of declarations.
#![tactic(auto)]

mod bodies;
mod calls;
mod changes;
mod forks;
mod guards;
mod returns;
mod statements;
mod wanted;

pub use bodies::BodyScope;
pub use guards::body_breach;
pub use statements::stmts_breach;
pub use wanted::wants;
