//! Which operations of a program are reads: those that change no field of their object.
//!
//! The floors above use `class_of`, and `classes_of` for all operations at once. Each is the meaning's own definition (`class_of` of
//! meaning_rules); so an operation that is called a read leaves its object as it was, of as many arguments and fields as there are.
//!
//! It stands on type_decls, whose tables of a checked program it asks, and on the callees and implementations of program_bodies. `class_of`
//! takes no memory: it looks for the implementation among the declarations, goes through the operation's body each time, and at each name
//! through the names of the operation and of the object's fields. Who asks often makes the table of `classes_of` once, and looks into it
//! (`class_listed`).
#![tactic(auto)]

mod bodies;
mod classes;
mod declared;
mod expressions;
mod implementations;
mod loops;
mod site;
mod statements;
mod tables;

pub use classes::class_of;
pub use tables::{class_listed, classes_of};
