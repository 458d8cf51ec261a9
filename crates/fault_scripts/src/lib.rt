//! Scripts of faults, read from texts: docs/RUNTIME.md, Fault scripts.
//!
//! The floor above uses `Script`, seen as the list of its lines, and `read_script`: what it gives is what the text's lines say
//! (`IsScript` of specs/Says.antt), and a text that says something is read so; else the first line that is wrong is told, with the cause
//! (`IsRefusal` of specs/Script.antt). It stands on `net_rules`, which says what lines mean, and knows nothing of wires.
#![tactic(auto)]

mod error;
mod law;
mod numbers;
mod reading;
mod script;
mod table;
mod words;

pub use error::ScriptError;
pub use law::{form_examples, refusal_examples};
pub use reading::read_script;
pub use script::Script;
