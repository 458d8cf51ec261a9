//! The files that commands read: those of a program, and a history behind them.
//!
//! The floor above uses `sources`, which reads the files of a program, and `replay_files`, which reads these and then a history; `read_file`,
//! which reads one; why one wasn't read (`LoadFault`, `ReplayFault`), with its status and line; and `front_status`, the status for texts that
//! are no program. What the files have is told by the shelf (`AreRead`, `IsRead` of specs/Sources.antt), and so is which were asked for
//! (`asked` of each call). It stands on the shelf and on the front end's sources and lines, and looks at no text.
#![tactic(auto)]

mod lines;
mod load_fault;
mod program;
mod reading;
mod replay_fault;
mod replay_reading;
mod source_files;

pub use lines::{absent_line, unread_line};
pub use load_fault::LoadFault;
pub use program::front_status;
pub use reading::read_file;
pub use replay_fault::ReplayFault;
pub use replay_reading::{ReplayFiles, replay_files};
pub use source_files::sources;
