//! What the traits of a machine ask of a program's meaning, whichever way the machine computes: the program is accepted, what fits stays
//! fitting and is sound, and a read leaves its object as it is (`Performer` and `Processor` of value_core).
//!
//! The floors above will be machines of a checked program within the limits. They will keep `ValueLaws` (specs/ValueLaws.antt), which one
//! call of `machine_laws` gives them, and cite the proofs of specs/MachineLaws.antt and specs/ReadsKept.antt, each for a ghost member of
//! its trait. That a read leaves its object as it is stands there alone (`read_keeps`), and in no clause.
//!
//! No code stands here but the calls of the laws of values. Not in it: what a machine computes.
#![tactic(auto)]

mod law;

pub use law::machine_laws;
