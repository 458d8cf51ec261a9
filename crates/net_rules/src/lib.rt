//! What a wire is asked and answers, and what a script says of it, as data and definitions: docs/RUNTIME.md, Fault scripts.
//!
//! The floor above uses `script_fate` and `script_act` of specs/Script.antt, what a script says after all that was asked before, and
//! `seeded_fate`, what random words say; `Answered` of specs/Answered.antt says so of a whole list. The types are `Question`, `Asked`,
//! `Fate`, `WireAct` and `ScriptLine`. It stands on `group_packets`, whose kinds of packets are counted, and on the generator of
//! `rand_pcg`. No code stands here: `fault_scripts` reads scripts, and `wires` answers by them.
#![tactic(auto)]

mod asked;
mod fate;
mod flight;
mod flight_law;
mod law;
mod line;

pub use asked::{Asked, Question};
pub use fate::{Fate, WireAct};
pub use flight::Flight;
pub use flight_law::{arriving_examples, sending_examples};
pub use law::{act_examples, chance_examples, fate_examples, plain_law};
pub use line::{Kinds, ScriptLine, Which};
