//! Signatures, fields and operations of a program, as tables by numbers.
//!
//! The floor above uses `Tables`, a program's names, constants and types beside its signatures, fields and operations, and what it
//! answers: `signature` of a function or process by its number, `field` of a record and `operation` of an object type by their names.
//! `signatures_of`, `fields_of` and `operations_of` make the tables. Each clause says what type_rules says of the same sources
//! (`AreTables` of specs/). `own_names` and `value_names` have the names of a body in their order, `parameter_found`, `value_type` and
//! `result_type` what parameters and results are of.
//!
//! It stands on type_forms. So no call, and no step to a field, looks through a declaration again. It says nothing of statements.
#![tactic(auto)]

mod bodies;
mod entries;
mod signatures;
mod tables;

pub use bodies::{add_names, add_variables, own_names, value_names};
pub use entries::note;
pub use signatures::{
    head_signature, parameter_found, result_type, signature, type_of, value_type,
};
pub use tables::{Fields, Operations, Tables, fields_of, operations_of, signatures_of};
