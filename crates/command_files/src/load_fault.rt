//! Why the files of a program weren't read.

ghost use Rattle.std.specs.Prelude.{◌≡◌, IfOk};
ghost use Rattle.command_files.specs.Loaded.{load_line, load_status};

use crate::lines::{absent_line, unread_line};
use command_output::{ABSENT, LIMIT, READ_FAULT};
use orca_base::{MODULES, NoMemory, SOURCE_BYTES};
use orca_front::limit_line;
use std::alloc::Global;

/// Why the files of a program weren't read.
#[derive(Clone, Copy, Debug)]
pub enum LoadFault<'a> {
    /// There are more than a program may have modules.
    TooMany,
    /// There is no such file.
    Absent { file: &'a str },
    /// It is longer than a text may be.
    TooLong { file: &'a str },
    /// It can't be read.
    Failed { file: &'a str },
}

impl LoadFault<'_> {
    /// The status with which the program ends for it.
    pub fn status(self) -> u8
        ensures { result ≡ load_status self.entry }
    {
        match self {
            LoadFault::TooMany | LoadFault::TooLong { .. } => LIMIT,
            LoadFault::Absent { .. } => ABSENT,
            LoadFault::Failed { .. } => READ_FAULT,
        }
    }

    /// The line that tells it.
    pub fn line(self, alloc: Global) -> Result<Vec<u8>, NoMemory>
        ensures { IfOk result (λ line. line.items ≡ load_line self.entry) }
    {
        match self {
            LoadFault::TooMany => limit_line(alloc, "modules", MODULES),
            LoadFault::Absent { file } => absent_line(alloc, file),
            LoadFault::TooLong { .. } => limit_line(alloc, "source bytes", SOURCE_BYTES),
            LoadFault::Failed { file } => unread_line(alloc, file),
        }
    }
}
