//! The parser of whole texts: units, and why tokens are none.
//!
//! The floor above uses `parse`: the unit that tokens are, which is one at most, or the first token with which no unit goes on, or the
//! first that would be nested too deep (specs/Refused.antt), and `parse_law`: a unit that is written down is read back.
//!
//! It stands on the tokens, the grammar, the trees and the parser of declarations. Nothing recurses deeper than a text nests.
#![tactic(auto)]

mod parse_error;
mod units;
mod whole;

pub use parse_error::{Found, ParseError};
pub use whole::{parse, parse_law};
