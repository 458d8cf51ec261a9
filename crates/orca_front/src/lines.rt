//! The line that tells why sources are no program.

ghost use Rattle.std.specs.Prelude.{◌≡◌, IfOk, string_bytes};
ghost use Rattle.orca_front.specs.Lines as lines;

use crate::fault::FrontFault;
use link_rules::LinkError;
use orca_base::{NESTING, NoMemory, Place};
use std::alloc::Global;
use type_rules::TypeError;

// A source is refused, at this place, for what is said.
fn refused_line(alloc: Global, file: &str, at: Place, said: &[u8]) -> Result<Vec<u8>, NoMemory>
    ensures { IfOk result (λ line. line.items ≡ lines.refused_line file.now at said.now) }
{
    let mut line = format!(in alloc; "orca: {file}:{}:{}: ", at.line, at.column)?.into_bytes();
    line.extend_from_slice(said)?;
    line.push(b'\n')?;
    Ok(line)
}

// What is said of a name that breaks a rule of linking.
fn link_words(alloc: Global, rule: u8, name: &str) -> Result<String, NoMemory>
    ensures { IfOk result (λ words. string_bytes words ≡ lines.link_words rule name.now) }
{
    Ok(match rule {
        1 => format!(in alloc; "{name} defined twice")?,
        2 => format!(in alloc; "unknown module {name}")?,
        3 => format!(in alloc; "import cycle through {name}")?,
        _ => format!(in alloc; "{name} has no implementation")?,
    })
}

// The line of a breach of linking.
fn link_line(alloc: Global, error: &LinkError) -> Result<Vec<u8>, NoMemory>
    ensures { IfOk result (λ line. line.items ≡ lines.link_line error.now) }
{
    if error.rule == 4 {
        return Ok(Vec::from_slice(alloc, b"orca: no OrcaMain\n")?);
    }
    let words = link_words(alloc, error.rule, error.name.as_str())?;
    refused_line(alloc, error.file.as_str(), error.at, words.as_bytes())
}

// The line of a breach of typing.
fn type_line(alloc: Global, error: &TypeError) -> Result<Vec<u8>, NoMemory>
    ensures { IfOk result (λ line. line.items ≡ lines.type_line error.now) }
{
    let words = format!(in alloc; "type rule {}", error.rule)?;
    refused_line(alloc, error.file.as_str(), error.at, words.as_bytes())
}

/// The line that tells that there is more of something than this number.
pub fn limit_line(alloc: Global, what: &str, number: u32) -> Result<Vec<u8>, NoMemory>
    ensures { IfOk result (λ line. line.items ≡ lines.limit_line what.now number) }
{
    let line = format!(in alloc; "orca: limit of {what}: {number}\n")?;
    Ok(line.into_bytes())
}

/// The line that tells why sources are no program (docs/FORMATS.md, Statuses).
pub fn fault_line(alloc: Global, fault: &FrontFault) -> Result<Vec<u8>, NoMemory>
    ensures { IfOk result (λ line. line.items ≡ lines.fault_line fault.now) }
{
    match fault {
        FrontFault::Faulty { file, at, said } => refused_line(alloc, file.as_str(), *at, said),
        FrontFault::TooNested => limit_line(alloc, "nesting", NESTING),
        FrontFault::Unlinked { error } => link_line(alloc, error),
        FrontFault::Mistyped { error } => type_line(alloc, error),
    }
}
