//! A program as code: its tables by number, the names of its bodies with their places and types, and what the phrases of a body find by
//! names and by types.
//!
//! The floors above use `Code`, made once of a checked program by `Code::new`: its functions, processes and object types by number, each
//! with its `Body`; and `Site`, where a phrase stands: a body, the loops that are open, and whether it is a guard. What a site answers of a
//! name, of a type and of what is called is what the meaning says (meaning_rules) in each scope that the site is (`IsSite` of
//! specs/), of any name and any type: the definitions have an answer for all, and so has code.
//!
//! It stands on program_tables, and on type_decls, whose tables of a checked program it asks. Each look-up
//! costs a logarithm, beside the loops that are open. An operation has a table of its own, with its object's fields in it, so the tables of
//! an object type are as large as its operations times its fields (docs/OPEN.md).
#![tactic(auto)]

mod blocks;
mod bodies;
mod callees;
mod code;
mod declared;
mod implementations;
mod names;
mod objects;
mod operations;
mod site;
mod types;

pub use blocks::BlockCode;
pub use bodies::{Body, BodyNames};
pub use callees::{Callee, function_named};
pub use code::Code;
pub use implementations::{Implementations, Implemented, implementations_of};
pub use names::Named;
pub use objects::{ObjectCode, OperationCode};
pub use site::{Site, inner_loops};
pub use types::inside;
