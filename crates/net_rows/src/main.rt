//! Fault scripts and wires, as rows in files (`row_files`): a call, what it is given, and the answer that is wanted.
//!
//! Another case is another line of text in data/, and no proof. Behind the tables thousands of scripts, made by a
//! generator, are read by `fault_scripts` and by a slow plain reader.
#![tactic(auto)]

mod flat_script;
mod forms;
mod script_maker;
mod script_plain;
mod script_rows;
mod script_tries;
mod wire_rows;

use row_files::{Calls, Row, RowError, malformed, try_table};
use std::alloc::Global;
use std::io;

// The calls of scripts and wires.
struct Nets;

impl Calls for Nets {
    fn answer(&self, alloc: Global, table: &str, row: &Row<'_>) -> Result<String, RowError> {
        match table {
            "scripts" => script_rows::answer(alloc, row),
            "wires" => wire_rows::answer(alloc, row),
            _ => malformed("no table"),
        }
    }
}

fn main(rt: HostRuntime) -> io::Result<()> {
    for table in ["scripts", "wires"] {
        try_table(&rt, &Nets, table)?;
    }
    script_tries::run(&rt)
}
