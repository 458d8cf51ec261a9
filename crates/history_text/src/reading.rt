//! Reading histories.

ghost use Rattle.std.specs.Prelude.{◌≡◌, ◌-◌, ◌<◌, ◌≤◌, ◌^◌, List, IfOk, length};
ghost use Rattle.std.specs.Option.{option_map};
ghost use Rattle.orca_base.specs.Refusal.{IfBecause, MatchRefusal};
ghost use Rattle.value_core.specs.declared.action.Line.{Line as LineSeen};
ghost use Rattle.history_text.specs.Reading.{line_at};
ghost use Rattle.history_text.specs.Sound.{AreFirst, AreLines, AreTables, BreaksAt};
ghost use Rattle.history_text.specs.Spelling.{history_text};

use crate::fault::BadLine;
use crate::lines::line_in_front;
use crate::names::Names;
use orca_base::{NoMemory, Refusal, refuse};
use std::alloc::Global;
use value_core::Line;

// The line in front of a text, and the text behind it, where one stands there.
fn next_line<'a>(
    alloc: Global,
    names: &Names,
    text: &'a [u8],
) -> Result<Option<(Line, &'a [u8])>, NoMemory>
    requires { AreTables names.now }
    ensures { IfOk result (λ next. option_map (λ x. (x.0, x.1.now)) next ≡ line_at names.now text.now) }
{
    match line_in_front(alloc, names, text) {
        Ok(next) => Ok(Some(next)),
        Err(Refusal::Because { .. }) => Ok(None),
        Err(Refusal::NoMemory) => Err(NoMemory),
    }
}

/// The lines in front of a text, and the number, from 1, of the first that isn't of the form, where one isn't.
#[derive(Debug, Drop)]
pub struct FirstLines {
    pub lines: Vec<Line>,
    pub bad: Option<u32>,
}

/// The lines in front of a text, up to the first that isn't of the form, where these names are known (docs/FORMATS.md, Histories).
/// There are fewer than 2^32 - 1 bytes, so that each line has a number.
pub fn read_lines(alloc: Global, names: &Names, text: &[u8]) -> Result<FirstLines, NoMemory>
    requires tables { AreTables names.now }
    requires fits { length text.now < 2 ^ 32 - 1 }
    ensures first { IfOk result (λ r. AreFirst names.now text.now r.lines.items r.bad) }
    // Each line has a byte at least.
    ensures few { IfOk result (λ r. length r.lines.items ≤ length text.now) }
{
    let mut lines = Vec::new(alloc);
    let mut rest = text;
    let mut number = 1;
    while !rest.is_empty() {
        match next_line(alloc, names, rest)? {
            None => {
                return Ok(FirstLines {
                    lines,
                    bad: Some(number),
                });
            }
            Some((line, after)) => {
                lines.push(line)?;
                rest = after;
                number += 1;
            }
        }
    }
    Ok(FirstLines { lines, bad: None })
}

/// The lines that a whole text spells, where these names are known; or the first line that isn't of the form
/// (docs/FORMATS.md, Histories). There are fewer than 2^32 - 1 bytes, so that each line has a number.
pub fn read_history(
    alloc: Global,
    names: &Names,
    text: &[u8],
) -> Result<Vec<Line>, Refusal<BadLine>>
    requires tables { AreTables names.now }
    requires fits { length text.now < 2 ^ 32 - 1 }
    // The lines are sound, and the text is theirs.
    ensures found { IfOk result (λ lines. AreLines names.now lines.items × (text.now ≡ history_text names.now lines.items)) }
    // The text of sound lines is read: a text is refused only where it is that of none.
    ensures only { (lines : List LineSeen) → AreLines names.now lines → text.now ≡ history_text names.now lines →
        MatchRefusal result (λ found. found.items ≡ lines) (λ bad. ⊥) }
    // The line that is told is the first that isn't one.
    ensures refused { IfBecause result (λ bad. BreaksAt names.now text.now bad.line) }
    // Each line has a byte at least.
    ensures few { IfOk result (λ lines. length lines.items ≤ length text.now) }
{
    let first = read_lines(alloc, names, text)?;
    match first.bad {
        Some(line) => refuse(BadLine { line }),
        None => Ok(first.lines),
    }
}
