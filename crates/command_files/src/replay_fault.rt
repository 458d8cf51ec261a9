//! Why the files of `replay` weren't read.

ghost use Rattle.std.specs.Prelude.{◌≡◌, IfOk};
ghost use Rattle.command_files.specs.Replays.{replay_line, replay_status};

use crate::lines::{absent_line, unread_line};
use crate::load_fault::LoadFault;
use command_output::{ABSENT, LIMIT, READ_FAULT};
use orca_base::{HISTORY_BYTES, NoMemory};
use orca_front::limit_line;
use std::alloc::Global;

/// Why the files of `replay` weren't read.
#[derive(Clone, Copy, Debug)]
pub enum ReplayFault<'a> {
    /// Those of the program weren't.
    Program { fault: LoadFault<'a> },
    /// There is no file of the history.
    Absent { file: &'a str },
    /// It is longer than a history may be.
    TooLong,
    /// It can't be read.
    Failed { file: &'a str },
}

impl ReplayFault<'_> {
    /// The status with which the program ends for it.
    pub fn status(self) -> u8
        ensures { result ≡ replay_status self.entry }
    {
        match self {
            ReplayFault::Program { fault } => fault.status(),
            ReplayFault::Absent { .. } => ABSENT,
            ReplayFault::TooLong => LIMIT,
            ReplayFault::Failed { .. } => READ_FAULT,
        }
    }

    /// The line that tells it.
    pub fn line(self, alloc: Global) -> Result<Vec<u8>, NoMemory>
        ensures { IfOk result (λ line. line.items ≡ replay_line self.entry) }
    {
        match self {
            ReplayFault::Program { fault } => fault.line(alloc),
            ReplayFault::Absent { file } => absent_line(alloc, file),
            ReplayFault::TooLong => limit_line(alloc, "history bytes", HISTORY_BYTES),
            ReplayFault::Failed { file } => unread_line(alloc, file),
        }
    }
}
