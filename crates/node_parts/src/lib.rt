//! What a member of a run is made of: the processes that live on it, what goes to owners of single objects and comes back, what it did in
//! an event, and the machine of one run (docs/RUNTIME.md, The world of a run).
//!
//! The floor above, `node_core`, keeps these: `Resident` is a process as its member knows it, whose state tasks share (`Kept`); `Errand` and
//! `Given` are Asks and Answers; `Moved` tells what an event did; `OneRun` ties what a machine types to one run, and `RunMachine` is
//! such a machine by the run's name. What they show of the rules' stages and errands is in specs/Shown.antt. It stands on the values,
//! the views of objects, and the group's messages and packets. It knows nothing of how an event is done.
#![tactic(auto)]

mod errand;
mod kept;
mod moved;
mod named;
mod resident;
mod run;

pub use errand::{Errand, Given};
pub use kept::Kept;
pub use moved::Moved;
pub use named::{RunMachine, RunName};
pub use resident::{Resident, Stage};
pub use run::OneRun;
