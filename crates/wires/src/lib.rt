//! Wires: what stands between the members of a group. A wire says what happens to each packet, and what befalls members
//! (docs/RUNTIME.md, Wires).
//!
//! The floor above uses the trait `Wire`, over any wire: what it was asked and answered is told, with its script, and a question takes no
//! memory where room was made for it; a box of a wire is one. Of the three wires here each question's answer is known: `PlainWire` lets
//! all pass, `ScriptWire` answers by its script, `SeededWire` by random words. It stands on `net_rules`, which says what scripts say, and
//! `fault_scripts`, whose `Script` a wire takes. It knows nothing of packets in flight or of members.
#![tactic(auto)]

mod boxed;
mod chance;
mod counts;
mod index;
mod kept;
mod lines;
mod obeying;
mod plain;
mod progress;
mod script;
mod seeded;
mod wire;

pub use obeying::have_obeyed;
pub use plain::PlainWire;
pub use script::ScriptWire;
pub use seeded::SeededWire;
pub use wire::Wire;
