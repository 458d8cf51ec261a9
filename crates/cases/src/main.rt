//! The program that answers tables of cases: calls of the whole product that were worked out by hand (docs/CASES.md).
//!
//! What a table is, and how a case is judged, stands in `case_tables`, below the product; the calls are those of `case_calls`. Here are
//! the two put together, and nothing else, since a program is checked with all that it calls. Nothing stands on it.
#![tactic(auto)]

use case_calls::Product;
use case_tables::answer_tables;
use std::process::ExitCode;

fn main(rt: HostRuntime) -> ExitCode {
    match answer_tables(&rt, &Product) {
        Ok(true) => ExitCode::SUCCESS,
        Ok(false) | Err(_) => ExitCode::FAILURE,
    }
}
