//! What the program answers where it runs nothing: whether the program in files is accepted, its listing, the choices for its sites, and
//! whether a history is one of it; and what it says where files weren't read, a script is none, or texts are no accepted program.
//!
//! The floor above uses `job_of`, what the program does for its words, `built` of specs/Job.antt being the one place that says what of the
//! commands is built; a call for each job that is no run; and for a run what it begins with: `script_of`, `linked_program`, `machine_of`, or
//! `made_program` and `made_machine` where the program is made of a number. The
//! main clause of each call is `IsAnswer` (specs/Endings.antt): an ending by its cause, with its status, its line and what a policy was asked
//! for it. `endings_law` says that there is one ending, and that it is no run. It knows no wire and no world.
#![tactic(auto)]

mod check;
mod choice;
mod ending;
mod job;
mod laws;
mod lines;
mod listing;
mod making;
mod program;
mod replay;
mod script;

pub use check::check_files;
pub use choice::choose_files;
pub use ending::{said_refused, said_unread, said_unscripted};
pub use job::{Job, job_of};
pub use laws::endings_law;
pub use lines::{usage_line, whole};
pub use listing::{Listed, list_program};
pub use making::{made_machine, made_program, show_program};
pub use program::{ProgramFault, linked_program, machine_of};
pub use replay::replay_history;
pub use script::{ScriptFault, script_of};
