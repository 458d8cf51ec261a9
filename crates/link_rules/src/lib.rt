//! The rules of linking, as definitions: what the units of a program define and import, and where a rule is broken.
//!
//! The floor above uses `link_errors` of specs/Rules.antt, the list of all breaches in the order in which they are told, and `Links`,
//! that there is none; and the types `NamedUnit` and `LinkError`. `linking_law` says the five rules in plain sentences, which breach is
//! told, and what a module sees; `linking_examples` computes programs.
//!
//! It stands on the syntax of texts (orca_syntax), and says nothing of types. No code stands here: `orca_modules` links.
#![tactic(auto)]

mod law;
mod link_error;
mod named_unit;
mod role;

pub use law::{linking_examples, linking_law};
pub use link_error::LinkError;
pub use named_unit::NamedUnit;
pub use role::Role;
