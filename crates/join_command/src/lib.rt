//! The command `join`, without its files and what it prints: a run with a member that joins late, over two wires (docs/FORMATS.md, The
//! program; docs/RUNTIME.md, A member that joins late).
//!
//! `orca_cli` is to use `join_run`, which runs a machine's program with a follower by the options of the words: over the group's wire with
//! the empty script, and over the follower's with the script of the words. The main clause is `run`: what is left is the run that these
//! options ask for, the follower is where its rounds end, its wire was asked just their questions, and its line says how far it came. It
//! stands on `follower_run`, which does the rounds, and knows nothing of files, of texts, of names or of statuses.
#![tactic(auto)]

mod ending;
mod running;
mod settings;

pub use ending::FollowerEnd;
pub use running::{JoinRun, join_run};
pub use settings::{USUAL_EVENTS, USUAL_TURNS};
