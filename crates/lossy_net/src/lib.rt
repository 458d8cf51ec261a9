//! A network that loses packets: packets in flight, and beside them the scripts and wires that decide what happens to each.
//!
//! The floor above uses that `Net` is the list of `joined`, `without` and `ticked` of `net_rules`: `put` adds what a fate makes of a
//! packet, `take` takes a ready copy out, `tick` brings all that wait one tick nearer. What travels is a packet's bytes. It stands on
//! `net_rules`, and knows nothing of members or of what the bytes say. Scripts and wires are handed on as they stand in `fault_scripts`
//! and `wires`.
#![tactic(auto)]

mod net;
mod places;

pub use fault_scripts::{Script, ScriptError, read_script};
pub use net::Net;
pub use net_rules::{Fate, Flight, WireAct};
pub use wires::{PlainWire, ScriptWire, SeededWire, Wire};
