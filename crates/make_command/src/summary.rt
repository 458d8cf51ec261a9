//! The line that `make` prints of its run.

ghost use Rattle.std.specs.Prelude.{◌≡◌, IfOk};
ghost use Rattle.value_core.specs.History.{output_by, output_of};
ghost use Rattle.make_command.specs.Summary.{line_with, made_line, output_line, summary_line};

use orca_base::{KindNo, NoMemory};
use std::alloc::Global;
use value_core::{Action, Line, Parts, Value};
use world_rules::Standing;

/// What is told of a run that has finished: the number of its program, how many processes there were, how many entries the longest log of
/// a member has, and the history.
#[derive(Clone, Copy)]
pub struct Summary<'a> {
    pub number: u64,
    pub processes: usize,
    pub entries: u64,
    pub book: &'a [Line],
}

// The string that is the first argument, and a line feed.
fn line(alloc: Global, args: &Parts) -> Result<Vec<u8>, NoMemory>
    ensures { IfOk result (λ bytes. bytes.items ≡ line_with args.now) }
{
    let mut bytes = Vec::new(alloc);
    if let Some(Value::Text(text)) = args.as_slice().first() {
        bytes.extend_from_slice(text.as_bytes())?;
    }
    bytes.push(b'\n')?;
    Ok(bytes)
}

// What an action writes.
fn written(alloc: Global, action: &Action) -> Result<Vec<u8>, NoMemory>
    ensures { IfOk result (λ bytes. bytes.items ≡ output_by action.now) }
{
    match action {
        Action::Call { kind, op, args, .. } if *kind == KindNo::OUTPUT && op.0 == 0 => line(
            alloc, args,
        ),
        _ => Ok(Vec::new(alloc)),
    }
}

// What a history writes.
fn output(alloc: Global, book: &[Line]) -> Result<Vec<u8>, NoMemory>
    ensures { IfOk result (λ text. text.items ≡ output_of book.now) }
{
    let mut text = Vec::new(alloc);
    'lines: for line in book {
        let piece = written(alloc, &line.action)?;
        text.extend_from_slice(&piece)?;
    }
    Ok(text)
}

// The same without the line feed at its end.
fn output_line(alloc: Global, book: &[Line]) -> Result<Vec<u8>, NoMemory>
    ensures { IfOk result (λ text. text.items ≡ output_line book.now) }
{
    let mut text = output(alloc, book)?;
    text.pop();
    Ok(text)
}

impl Summary<'_> {
    /// The line that tells it (docs/FORMATS.md, The generated program).
    pub fn line(&self, alloc: Global) -> Result<Vec<u8>, NoMemory>
        ensures { IfOk result (λ line. line.items ≡ summary_line self.now.number self.now.processes self.now.entries self.now.book.now) }
    {
        let number = self.number;
        let processes = self.processes;
        let entries = self.entries;
        let lines = self.book.len();
        let counts = format!(in alloc;
            "make {number}: processes {processes}, entries {entries}, lines {lines}, output "
        )?;
        let output = output_line(alloc, self.book)?;
        let mut line = counts.into_bytes();
        line.extend_from_slice(&output)?;
        line.push(b'\n')?;
        Ok(line)
    }
}

/// The line that `make` prints of a run that stands so: the summary where it has finished, and else the line of its ending.
pub fn made_line(
    alloc: Global,
    standing: Standing,
    summary: &Summary<'_>,
    ending: Vec<u8>,
) -> Result<Vec<u8>, NoMemory>
    ensures { IfOk result (λ line. line.items ≡ made_line standing
        (summary_line summary.now.number summary.now.processes summary.now.entries summary.now.book.now) ending.items) }
{
    match standing {
        Standing::Finished => summary.line(alloc),
        Standing::Limit { .. }
        | Standing::OutOfTurns
        | Standing::OutOfEvents
        | Standing::NoGroup
        | Standing::Faulted
        | Standing::Blocked
        | Standing::Going => Ok(ending),
    }
}
