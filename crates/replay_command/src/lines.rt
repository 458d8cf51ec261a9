//! The line of a limit.

ghost use Rattle.std.specs.Prelude.{◌≡◌, IfOk};
ghost use Rattle.replay_command.specs.Endings.{passed_line};

use orca_base::{CODE_LENGTH, NoMemory, PARAMETERS};
use orca_front::limit_line;
use program_limits::PassedLimit;
use std::alloc::Global;

/// The line of a limit that a program passes.
pub fn passed_line(alloc: Global, passed: PassedLimit) -> Result<Vec<u8>, NoMemory>
    ensures { IfOk result (λ line. line.items ≡ passed_line passed) }
{
    match passed {
        PassedLimit::Parameters => limit_line(alloc, "nesting", PARAMETERS),
        PassedLimit::CodeLength => limit_line(alloc, "code length", CODE_LENGTH),
    }
}
