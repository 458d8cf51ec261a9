//! What is said of a history's text, with its status and its line.

ghost use Rattle.std.specs.Prelude.{◌≡◌, ◌<◌, ◌≤◌, ◌-◌, ◌^◌, IfOk, length};
ghost use Rattle.orca_io.specs.Causes.{Rose};
ghost use Rattle.command_output.specs.Printed.{HasStopped};
ghost use Rattle.history_text.specs.Sound.{AreTables};
ghost use Rattle.history_commands.specs.Replays.{IsSaid, IsToldOf, answer_line, answer_status, breach_line, part_name};

use command_output::{BREACH, FINISHED, NO_MEMORY, WRITE_FAULT, print_ending};
use history_check::{BreachRule, Verdict, replay};
use history_text::{Names, read_lines};
use orca_base::NoMemory;
use orca_io::Sink;
use std::alloc::Global;
use value_core::Processor;

/// What is said of a history's text. Lines are numbered from 1.
#[derive(Clone, Copy, Debug, PartialEq, Eq)]
pub enum Answer {
    /// It is a history of the program.
    Legal,
    /// This line is the first that isn't of the form, and those before it are steps.
    Form { line: u32 },
    /// This line is the first that is no step, and this the first part of it that differs.
    Part { line: u32, rule: BreachRule },
}

/// What is said of a text as a history of this program, whose names these are. There are fewer than 2^32 - 1 bytes.
pub fn replay_text<P: Processor>(
    alloc: Global,
    program: &P,
    names: &Names,
    text: &[u8],
) -> Result<Answer, NoMemory>
    requires tables { AreTables names.now }
    requires fits { length text.now < 2 ^ 32 - 1 }
    ensures { IfOk result (IsToldOf (P.performs program.now) (P.computes program.now) names.now text.now) }
{
    let first = read_lines(alloc, names, text)?;
    match replay(alloc, program, &first.lines)? {
        Verdict::Breach { line, rule } => Ok(Answer::Part { line, rule }),
        Verdict::Legal => match first.bad {
            Some(line) => Ok(Answer::Form { line }),
            None => Ok(Answer::Legal),
        },
    }
}

// The word for a part of a line.
fn part_name(rule: BreachRule) -> &'static str
    ensures { result.now ≡ part_name rule }
{
    match rule {
        BreachRule::Process => "process",
        BreachRule::Call => "call",
        BreachRule::Action => "action",
        BreachRule::Guard => "guard",
        BreachRule::Reply => "reply",
    }
}

// The line that tells where a history breaks.
fn breach_line(alloc: Global, number: u32, part: &str) -> Result<Vec<u8>, NoMemory>
    ensures { IfOk result (λ line. line.items ≡ breach_line number part.now) }
{
    let text = format!(in alloc; "orca: history breaks at line {number}: {part}\n")?;
    Ok(text.into_bytes())
}

impl Answer {
    /// The status with which `replay` ends.
    pub fn status(self) -> u8
        ensures { result ≡ answer_status self }
    {
        match self {
            Answer::Legal => FINISHED,
            Answer::Form { .. } | Answer::Part { .. } => BREACH,
        }
    }

    /// The line that tells it.
    pub fn line(&self, alloc: Global) -> Result<Vec<u8>, NoMemory>
        ensures { IfOk result (λ line. line.items ≡ answer_line self.now) }
    {
        match self {
            Answer::Legal => Ok(Vec::from_slice(alloc, b"legal\n")?),
            Answer::Form { line } => breach_line(alloc, *line, "form"),
            Answer::Part { line, rule } => breach_line(alloc, *line, part_name(*rule)),
        }
    }
}

/// Says what a text is as a history of this program, whose names these are, and gives the status. There are fewer than 2^32 - 1 bytes.
pub fn say_answer<P: Processor, K: Sink>(
    alloc: Global,
    out: &mut K,
    program: &P,
    names: &Names,
    text: &[u8],
) -> u8
    requires tables { AreTables names.now }
    requires fits { length text.now < 2 ^ 32 - 1 }
    ensures said { IsSaid (P.performs program.now) (P.computes program.now) names.now text.now (K.told out.old) (K.told out.new) result }
    ensures later { K.faults out.old ≤ K.faults out.new }
    ensures failed { result ≡ WRITE_FAULT → Rose (K.faults out.old) (K.faults out.new) }
    ensures stopped { K.faults out.old < K.faults out.new → HasStopped result }
{
    match replay_text(alloc, program, names, text) {
        Ok(answer) => print_ending(out, answer.line(alloc), answer.status()),
        Err(_) => NO_MEMORY,
    }
}
