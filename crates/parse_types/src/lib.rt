//! The parser of types, variables, formal parameters and definitions of types, by recursive descent on slices of tokens.
//!
//! The floor above uses `type_phrase`, `variables`, `parameters`, `definition` and their like: each answers what the reader of its
//! form gives on lists (`Parses` of `parse_exprs`, the forms of `orca_grammar`).
//!
//! It stands on the readers of single tokens and of names. It knows neither expressions nor what a name stands for. Only types stand in
//! one another; all else is loops.
#![tactic(auto)]

mod definitions;
mod formals;
mod numbers;
mod types;

pub use definitions::definition;
pub use formals::{parameters, typed_names};
pub use types::{bound, names, result_type, type_phrase, typed_name, variables};
