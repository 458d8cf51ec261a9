//! The door of the program: what it does for its words over a shelf, a sink and a network of its own.
//!
//! `crates/orca` calls `serve` alone, which makes the wires. Its clauses are those of `orca_main` for these wires, as far as the status,
//! what was printed and what the policy was asked tell of them: they say that some run ended so, over wires that answered by their scripts.
//! It stands on `orca_cli` and on the wires, and knows no real file.
#![tactic(auto)]

mod serving;

pub use orca_cli::NO_MEMORY;
pub use serving::serve;
