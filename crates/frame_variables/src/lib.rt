//! Variables of frames: what operators give, and the values at the ends of paths, read and changed.
//!
//! The crates of compiled code use `Run`, where a run of a body stands, and `Stop`, why one goes no further; what operators give; and what is
//! done to the values at the ends of paths. Each call gives what a definition of meaning_rules gives, and where it may stop, as `Gives`
//! says (specs/Gives.antt), of any values and paths: none asks that anything is of a type, since the definitions have an answer for all,
//! and code follows them; but `Frame::over` asks for sound values. So elements and nodes are found by halving where the values of a frame
//! are known to be in order, and else one after the other. It stands on the crates of values and on meaning_rules, and knows nothing of
//! phrases, names and types.
#![tactic(auto)]

mod bounds;
mod calls;
mod elements;
mod firm;
mod frame;
mod graphs;
mod halving;
mod nodes;
mod operators;
mod orders;
mod parts;
mod run;
mod sizes;
mod steps;
mod stop;
mod variables;

pub use calls::exchange_frame;
pub use frame::Frame;
pub use operators::{applied, decides, integer_in, truth_in};
pub use parts::part;
pub use run::Run;
pub use sizes::{fitting, fitting_all, fitting_passed};
pub use steps::{Passed, Step, Target};
pub use stop::Stop;
pub use variables::{add_node, delete_node, drop_element, find, put, store, take};
