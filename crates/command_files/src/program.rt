//! Texts that are no program.

ghost use Rattle.std.specs.Prelude.{◌≡◌};
ghost use Rattle.command_files.specs.Loaded.{front_status};

use command_output::{LIMIT, REFUSED};
use orca_front::FrontFault;

/// The status for texts that are no program.
pub fn front_status(fault: &FrontFault) -> u8
    ensures { result ≡ front_status fault.now }
{
    match fault {
        FrontFault::TooNested => LIMIT,
        FrontFault::Faulty { .. } | FrontFault::Unlinked { .. } | FrontFault::Mistyped { .. } => {
            REFUSED
        }
    }
}
