//! What names stand for, where constants lead, and types as they are written.
//!
//! The floor above uses `Index`, the names of a program's top level by their numbers: `Index::new` makes it of units, and
//! `Index::stands_for` tells what a name stands for in a module; `chains_of`, where the chain from each constant leads; `bound` and
//! `phrase`, what a bound and a type phrase are and the first breach inside, where the types that are declared are given (`Forms`);
//! `types_of`, which types are declared, and with their table `kind_found` and `data_found`, what a type phrase of the program is;
//! `each_new`, the first name that stands behind another of its text. Each clause says what type_rules says of the same sources:
//! `Indexes`, `AreChains`, `AreForms`, `AreTypes`, `AreTyped`, `Finds` of specs/. `Found` keeps what was found and the first breach, and
//! its calls put two findings together.
//!
//! It stands on the rules of typing (type_rules). A table of names is made once, so that each name costs a logarithm; a chain of
//! constants is gone through once, in an order of which nothing is proved, since passes over all names follow until nothing is new; and so
//! are declared types, each of which is settled once all types that it names are. It doesn't say yet which types hold themselves, nor
//! anything of expressions.
#![tactic(auto)]

mod bounds;
mod chains;
mod found;
mod index;
mod measures;
mod modules;
mod numbers;
mod parts;
mod phrases;
mod records;
mod repeats;
mod settled;
mod tops;

pub use bounds::{Sense, View, bound, sense_of};
pub use chains::chains_of;
pub use found::{Found, asks, breaks, lesser};
pub use index::{Index, Standing};
pub use measures::is_object;
pub use modules::{Names, add, holds};
pub use parts::parts_of;
pub use phrases::{Forms, data_found, data_phrase, kind_found, phrase, place_of};
pub use records::definition;
pub use repeats::{each_new, name_set};
pub use settled::{Known, types_of};
pub use tops::{Top, What, module_of, top_names};
