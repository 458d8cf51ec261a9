//! The rules of expressions and calls, in code.
//!
//! The floor above uses `typed`, the type of an expression and the first of its breaches; `arguments` and the rules of calls
//! (`function_found`, `operation_found`); `walked`, a designator's path; and `Scope`, where code stands. Each clause says that what is
//! found is what type_rules says (`Finds`, `FirstOf` of type_forms) in each scope of the definitions that this one is (`IsScope` of
//! specs/).
//!
//! It stands on type_tables. A scope is a table of a body's names with the variables of open loops in front, of which there are at most
//! as many as phrases nest. A phrase is gone through once. It says nothing of statements.
#![tactic(auto)]

mod calls;
mod designators;
mod expressions;
mod kinds;
mod lending;
mod operators;
mod places;
mod scope;
mod values;

pub use calls::{
    FunctionCallee, OperationCallee, Use, acts, called, called_well, formals_of, function_found,
    invoked, operation_formals, operation_found,
};
pub use designators::{gathering, written_root};
pub use expressions::{arguments, typed, walked};
pub use kinds::{Wanted, agree, inside_of, meets, plain, same_type};
pub use lending::roots_differ;
pub use operators::wanting;
pub use places::place_of;
pub use scope::{Local, Scope, is_plain};
pub use values::outer;
