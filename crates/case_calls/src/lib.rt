//! The calls of the product that cases are: by the program's own door, `serve` of `orca_door`; and by `orca_main` of `orca_cli`, which
//! tells what a run left too.
//!
//! `Product` makes a call, and tells in plain values what came of it (`Outcome` of `case_tables`). Whatever stands above the top is checked
//! with all that a run promises, so each of the two is called at one place, over any shelf and sink, and what comes of it is handed out
//! with no clause. Not in it: what a case is, how what comes is judged, and how an ended run is told (`case_runs`).
#![tactic(auto)]

mod call;
mod top;

pub use call::Product;
