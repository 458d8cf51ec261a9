//! What a run left, in plain values, for whoever answers cases.
//!
//! `left_of` tells a run's history, events, members and processes in numbers and texts (`Left` of `case_tables`), so that whoever holds one
//! needs to know nothing of what a run promises. It stands on the types in which a run ends (`run_ends`), and on no call that runs a
//! program. Not in it: any call of the product, and what a case wants. It promises nothing of what it tells: `cases` compares that with
//! what was worked out by hand.
#![tactic(auto)]

mod ends;
mod events;
mod left;

pub use left::left_of;
