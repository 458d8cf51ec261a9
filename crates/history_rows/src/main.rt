//! Histories in texts, what is said of them, the order of the book and copies of objects, as rows in files
//! (`row_files`): a call, what it is given, and the answer that is wanted.
//!
//! Another case is another line of text in data/, and no proof. Behind the tables thousands of texts, made by a
//! generator, are read by `history_text` and by a slow plain reader.
#![tactic(auto)]

mod check_rows;
mod history_maker;
mod history_plain;
mod history_rows;
mod history_tries;
mod names;
mod object_deeds;
mod object_rows;
mod sent;
mod tables;

use row_files::{Calls, Row, RowError, malformed, try_table};
use std::alloc::Global;
use std::io;

// The calls of histories and copies.
struct Histories;

impl Calls for Histories {
    fn answer(&self, alloc: Global, table: &str, row: &Row<'_>) -> Result<String, RowError> {
        match table {
            "histories" => history_rows::answer(alloc, row),
            "checks" => check_rows::answer(alloc, row),
            "objects" => object_rows::answer(alloc, row),
            _ => malformed("no table"),
        }
    }
}

fn main(rt: HostRuntime) -> io::Result<()> {
    for table in ["histories", "checks", "objects"] {
        try_table(&rt, &Histories, table)?;
    }
    sent::all_may_be_sent();
    history_tries::run(&rt)
}
