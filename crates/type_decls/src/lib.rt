//! The rules of declarations, and the test of a program, in code.
//!
//! The floor above uses `check`: a `Checked` program exactly where no rule of typing is broken, or else the first breach of the first unit
//! that has one (`IsTypeError` of type_rules). A `Checked` is the program beside tables of its declarations (`Symbols`), each of which is
//! what type_rules says of the program's sources (`AreSymbols` of specs/).
//!
//! It stands on type_stmts and type_cycles. Each declaration is gone through once, with the tables; the names of a body are a table of
//! their own.
#![tactic(auto)]

mod blocks;
mod checked;
mod checking;
mod context;
mod declarations;
mod fields;
mod heads;
mod implementations;
mod locals;
mod names;
mod operations;
mod specifications;
mod symbols;
mod units;

pub use checked::Checked;
pub use checking::check;
pub use context::Context;
pub use fields::{Fields, fields_of};
pub use locals::{Locals, declare_parameters, declare_values, declare_variables};
pub use symbols::Symbols;
