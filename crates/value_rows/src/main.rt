//! Values, their operators, parts and bytes, and packets in bytes, as rows in files (`row_files`): a call, what it is
//! given, and the answer that is wanted.
//!
//! Another case is another line of text in data/, and no proof. Behind the tables thousands of byte strings, made by a
//! generator, are read by `value_bytes` and `packet_bytes`, and by a slow plain reader.
#![tactic(auto)]

mod byte_maker;
mod byte_plain;
mod byte_tries;
mod element_rows;
mod fields;
mod flat_packet;
mod graph_rows;
mod operator_rows;
mod packet_rows;
mod path_rows;
mod value_rows;

use row_files::{Calls, Row, RowError, malformed, try_table};
use std::alloc::Global;
use std::io;

// The tables.
const TABLES: [&str; 6] = [
    "values",
    "operators",
    "elements",
    "graphs",
    "paths",
    "packets",
];

// The calls of values and packets.
struct Values;

impl Calls for Values {
    fn answer(&self, alloc: Global, table: &str, row: &Row<'_>) -> Result<String, RowError> {
        match table {
            "values" => value_rows::answer(alloc, row),
            "operators" => operator_rows::answer(alloc, row),
            "elements" => element_rows::answer(alloc, row),
            "graphs" => graph_rows::answer(alloc, row),
            "paths" => path_rows::answer(alloc, row),
            "packets" => packet_rows::answer(alloc, row),
            _ => malformed("no table"),
        }
    }
}

fn main(rt: HostRuntime) -> io::Result<()> {
    for table in TABLES {
        try_table(&rt, &Values, table)?;
    }
    byte_tries::run(&rt)
}
