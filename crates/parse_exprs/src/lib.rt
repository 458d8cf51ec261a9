//! The parser of expressions: a recursive descent on slices of tokens that decides by one token.
//!
//! Each reader answers a tree and the tokens behind it, or the first token with which nothing goes on, or the one that would be nested
//! too deep. Its clause says that this is exactly what the reading of the grammar's form gives on lists (`Parses`,
//! specs/Gives.antt): the floor above, which reads statements and declarations, uses `expression`, `designator`, `argument_list` and
//! the readers of single tokens in this way. Nothing is said where memory runs out.
//!
//! It rests on the forms of orca_grammar and on the marks of trees of orca_tree. It knows no types and no names: whether an expression
//! means anything is told by the crates above. No call stands in more calls than the text has nested phrases, at some ten for each: chains,
//! arguments and selectors are loops.
#![tactic(auto)]

mod expressions;
mod factors;
mod operators;
mod read_error;
mod token_readers;

pub use expressions::{
    argument_list, arguments, designator, designator_in_parentheses, expression, in_parentheses,
    invocation_rest, selectors,
};
pub use read_error::{Parsed, ReadError};
pub use token_readers::{
    after_key, after_sign, begins_expression, comes_key, comes_name, comes_sign, first_token, key,
    key_at, name, sign, sign_at, too_nested,
};
