//! The lines with which a run ends.

ghost use Rattle.std.specs.Prelude.{◌≡◌, IfOk};
ghost use Rattle.orca_front.specs.Lines.{limit_line};
ghost use Rattle.orca_cli.specs.Lines as lines;

use history_text::fault_name;
use orca_answers::whole;
use orca_base::{FaultKind, NoMemory, What};
use std::alloc::Global;

/// A process ended by a fault.
pub fn faulted_line(alloc: Global, process: usize, fault: FaultKind) -> Result<Vec<u8>, NoMemory>
    ensures { IfOk result (λ line. line.items ≡ lines.faulted_line process fault) }
{
    let mut line = format!(in alloc; "orca: process {process} faulted: ")?.into_bytes();
    line.extend_from_slice(fault_name(fault))?;
    line.push(b'\n')?;
    Ok(line)
}

/// A process waits for the operation of this name.
pub fn blocked_line(alloc: Global, process: usize, name: &[u8]) -> Result<Vec<u8>, NoMemory>
    ensures { IfOk result (λ line. line.items ≡ lines.blocked_line process name.now) }
{
    let mut line = format!(in alloc; "orca: blocked: process {process} waits for ")?.into_bytes();
    line.extend_from_slice(name)?;
    line.push(b'\n')?;
    Ok(line)
}

/// There is no group any more.
pub fn no_group_line(alloc: Global) -> Result<Vec<u8>, NoMemory>
    ensures { IfOk result (λ line. line.items ≡ lines.no_group_line) }
{
    whole(alloc, "orca: no group\n")
}

/// The run had its events.
pub fn events_line(alloc: Global) -> Result<Vec<u8>, NoMemory>
    ensures { IfOk result (λ line. line.items ≡ lines.events_line) }
{
    whole(alloc, "orca: out of events\n")
}

/// A process took its turns.
pub fn turns_line(alloc: Global, process: usize) -> Result<Vec<u8>, NoMemory>
    ensures { IfOk result (λ line. line.items ≡ lines.turns_line process) }
{
    let line = format!(in alloc; "orca: process {process} out of turns\n")?;
    Ok(line.into_bytes())
}

/// What a limit is of.
pub fn what_name(what: What) -> &'static str
    ensures { result.now ≡ lines.what_name what }
{
    match what {
        What::SourceBytes => "source bytes",
        What::ScriptBytes => "script bytes",
        What::HistoryBytes => "history bytes",
        What::Modules => "modules",
        What::Nesting => "nesting",
        What::CodeLength => "code length",
        What::Objects => "objects",
        What::Processes => "processes",
        What::HistoryLines => "history lines",
    }
}

/// A run would have had more of this than the number.
pub fn run_limit_line(alloc: Global, what: What, number: u64) -> Result<Vec<u8>, NoMemory>
    ensures { IfOk result (λ line. line.items ≡ limit_line (lines.what_name what) number) }
{
    let name = what_name(what);
    let line = format!(in alloc; "orca: limit of {name}: {number}\n")?;
    Ok(line.into_bytes())
}
