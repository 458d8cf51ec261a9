//! The end of a command that says a line.

ghost use Rattle.std.specs.Prelude.{◌≡◌, ◌≢◌, ◌<◌, ◌≤◌, IfOk, OnErr};
ghost use Rattle.orca_io.specs.Causes.{Rose};
ghost use Rattle.command_output.specs.Printed.{Ends, EndsAs, Grew, HasStopped};

use crate::statuses::{NO_MEMORY, WRITE_FAULT};
use orca_base::NoMemory;
use orca_io::{Sink, SinkFault};

/// Prints a line, and gives the status that is wanted, or that of the write that failed. Where there was no memory for the line nothing is
/// printed.
pub fn print_ending<K: Sink>(out: &mut K, line: Result<Vec<u8>, NoMemory>, status: u8) -> u8
    requires { status ≢ WRITE_FAULT }
    ensures status { EndsAs status result }
    ensures printed { IfOk line (λ l. Grew (K.told out.old) (K.told out.new) (Ends status result l.items)) }
    ensures silent { OnErr line ((result ≡ NO_MEMORY) × (K.told out.new ≡ K.told out.old)) }

    // A write fault is told only where the sink's count of faults rose; and where it rose, that or want of memory is told.
    ensures later { K.faults out.old ≤ K.faults out.new }
    ensures failed { result ≡ WRITE_FAULT → Rose (K.faults out.old) (K.faults out.new) }
    ensures stopped { K.faults out.old < K.faults out.new → HasStopped result }
{
    match line {
        Err(_) => NO_MEMORY,
        Ok(text) => match out.put(&text) {
            Ok(()) => status,
            Err(SinkFault::Failed) => WRITE_FAULT,
            Err(SinkFault::NoMemory) => NO_MEMORY,
        },
    }
}
