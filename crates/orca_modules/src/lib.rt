//! From units to a program: linking.
//!
//! The floor above uses `link`: the program of these units exactly where they link (`Links` of link_rules, specs/Rules.antt), and otherwise
//! the first breach of the lowest rule that is broken; and `Program`, the list of its units, which keeps that they link, and of each that
//! it is a text's.
//!
//! It stands on the rules of linking (link_rules). Of a declaration it asks what names it defines, the values of an enumeration among them,
//! and no more: what names stand for is a matter of types.
#![tactic(auto)]

mod cycles;
mod linking;
mod names;
mod order;
mod program;
mod rules;
mod sites;
mod tables;

pub use link_rules::{LinkError, NamedUnit};
pub use linking::link;
pub use program::Program;
