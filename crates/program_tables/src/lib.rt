//! What code needs by number of a checked program, made once: the numbers of object types, operations and process texts, the values of
//! constants, the fields of records by place, and the values that variables open with.
//!
//! The floor above uses `CodeTables`: `CodeTables::new` makes them of a program's names, constants and types (`Forms`), and each of its
//! calls answers what the meaning says of the same sources (meaning_rules), of any number and any name: the definitions have an answer for
//! all, and so has code. `IsTables` of specs/ says it of the tables. `CodeTables::opening` makes the value that a variable of a type opens
//! with; a type is lent as `Seen`, its layers and its base.
//!
//! It stands on type_tables and meaning_rules. Each table is made by one pass over the names of the top level; a look-up costs a logarithm,
//! and an opening value as many steps as it has parts. That numbers fit their types is asked once, where the tables are made (`AreCoded`).
#![tactic(auto)]

mod constants;
mod objects;
mod openings;
mod places;
mod records;
mod seen;
mod tables;
mod texts;

pub use places::Places;
pub use records::Record;
pub use seen::Seen;
pub use tables::CodeTables;
