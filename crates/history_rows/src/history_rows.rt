//! Histories in texts, over the names of the program of one cell.
//!
//! - `history TEXT`: its lines in numbers, one line each, or the number of the first that is none. The lines are
//!   printed so again, together and one by one.
//! - `reply TEXT`: of the line that has it, 0, or 1 and a value, or 2 and a fault; or `refused`.
//! - `cut TEXT`: whether of each front of it that ends between two lines the lines are read, and in any other the last
//!   isn't one; and how many lines it has.
//! - `apart TEXT`: whether its lines, one that ended and one that faulted are each equal to their copies alone; with
//!   copies of what they do, of their replies and of their messages.

ghost use Rattle.std.specs.Prelude.{IfOk};
ghost use Rattle.history_text.specs.Sound.{AreLines, AreTables, IsLine};

use crate::names;
use history_text::{BadLine, Names, print_history, print_line, read_history, read_lines};
use orca_base::{CallNo, FaultKind, ProcessNo, Refusal};
use row_files::{Row, RowError, flat, malformed, said};
use std::alloc::Global;
use value_core::{Action, Line, Message, Reply};

// No text has more bytes.
const MOST: usize = 100_000;

/// What a row's call answers.
pub fn answer(alloc: Global, row: &Row<'_>) -> Result<String, RowError> {
    let [text] = row.given() else {
        return malformed("not one text");
    };
    let names = names::of_one_cell(alloc)?;
    match row.verb() {
        "history" => history(alloc, &names, text),
        "reply" => reply(alloc, &names, text),
        "cut" => cut(alloc, &names, text),
        "apart" => apart(alloc, &names, text),
        _ => malformed("no call"),
    }
}

/// The lines of a text, or the number of the first that is none.
pub fn lines_of(
    alloc: Global,
    names: &Names,
    text: &str,
) -> Result<Result<Vec<Line>, u32>, RowError>
    requires { AreTables names.now }
    ensures { IfOk result (λ found. IfOk found (λ lines. AreLines names.now lines.items)) }
{
    if text.len() > MOST {
        return Err(RowError::Malformed {
            why: "too long a text",
        });
    }
    match read_history(alloc, names, text.as_bytes()) {
        Ok(lines) => Ok(Ok(lines)),
        Err(
            Refusal::Because {
                cause: BadLine { line },
            },
        ) => Ok(Err(line)),
        Err(Refusal::NoMemory) => Err(RowError::NoMemory),
    }
}

// That a line is none.
fn bad_line(alloc: Global, line: u32) -> Result<String, RowError> {
    Ok(format!(in alloc; "bad line {line}")?)
}

fn history(alloc: Global, names: &Names, text: &str) -> Result<String, RowError>
    requires { AreTables names.now }
{
    match lines_of(alloc, names, text)? {
        Ok(lines) => printed_again(alloc, names, text, &lines),
        Err(line) => bad_line(alloc, line),
    }
}

// The lines in numbers, where this text is printed for them both ways.
fn printed_again(
    alloc: Global,
    names: &Names,
    text: &str,
    lines: &[Line],
) -> Result<String, RowError>
    requires tables { AreTables names.now }
    requires lines { AreLines names.now lines.now }
{
    let mut single = String::new(alloc);
    for line in lines {
        let line = print_line(alloc, names, line)?;
        single.push_str(line.as_str())?;
    }
    let printed = print_history(alloc, names, lines)?;
    if printed.as_str() != text || single.as_str() != text {
        return said(alloc, "printed otherwise");
    }
    numbers_of(alloc, lines)
}

fn numbers_of(alloc: Global, lines: &[Line]) -> Result<String, RowError> {
    let mut answer = String::new(alloc);
    for line in lines {
        if !answer.is_empty() {
            answer.push_str("\n")?;
        }
        let mut numbers = Vec::new(alloc);
        flat::put_line(&mut numbers, line)?;
        let line = flat::text_of(alloc, &numbers)?;
        answer.push_str(line.as_str())?;
    }
    Ok(answer)
}

fn reply(alloc: Global, names: &Names, reply: &str) -> Result<String, RowError>
    requires { AreTables names.now }
{
    let text = format!(in alloc; "0 2 call Cell$Value o0.1 () guard 0 {reply}\n")?;
    match lines_of(alloc, names, text.as_str())? {
        Ok(lines) => {
            let printed = print_history(alloc, names, &lines)?;
            if printed.as_str() != text.as_str() {
                return said(alloc, "printed otherwise");
            }
            reply_text(alloc, &lines)
        }
        Err(1) => said(alloc, "refused"),
        Err(line) => bad_line(alloc, line),
    }
}

// The reply of a line in numbers.
fn reply_text(alloc: Global, lines: &[Line]) -> Result<String, RowError> {
    let [line] = lines else {
        return said(alloc, "not one line");
    };
    let mut numbers = Vec::new(alloc);
    flat::put_reply(&mut numbers, &line.reply)?;
    flat::text_of(alloc, &numbers)
}

fn cut(alloc: Global, names: &Names, text: &str) -> Result<String, RowError>
    requires { AreTables names.now }
{
    let mut front = Vec::new(alloc);
    let mut feeds = 0u32;
    for byte in text.as_bytes() {
        front.push(*byte)?;
        let is_between = *byte == b'\n';
        if is_between {
            feeds = feeds.saturating_add(1);
        }
        if !is_front(alloc, names, &front, feeds, is_between)? {
            return Ok(format!(in alloc; "otherwise at {} bytes", front.len())?);
        }
    }
    Ok(format!(in alloc; "{feeds} lines")?)
}

// Whether a front has so many lines, and ends between two or not.
fn is_front(
    alloc: Global,
    names: &Names,
    front: &[u8],
    feeds: u32,
    is_between: bool,
) -> Result<bool, RowError>
    requires { AreTables names.now }
{
    if front.len() > MOST {
        return malformed("too long a text");
    }
    let found = read_lines(alloc, names, front)?;
    let bad = if is_between {
        None
    } else {
        Some(feeds.saturating_add(1))
    };
    Ok(found.bad == bad && found.lines.len() == feeds as usize)
}

// A line that does this.
fn doing(action: Action, reply: Reply) -> Line {
    Line {
        process: ProcessNo(0),
        call: CallNo(1),
        action,
        guard: 0,
        reply,
    }
}

fn apart(alloc: Global, names: &Names, text: &str) -> Result<String, RowError>
    requires { AreTables names.now }
{
    let mut lines = match lines_of(alloc, names, text)? {
        Ok(lines) => lines,
        Err(line) => return bad_line(alloc, line),
    };
    let fault = FaultKind::Overflow;
    lines.push(doing(Action::Ended, Reply::Done))?;
    lines.push(doing(Action::Faulted { fault }, Reply::Broke { fault }))?;
    for (low, one) in lines.iter().enumerate() {
        for (high, two) in lines.iter().enumerate() {
            if !is_beside(alloc, one, two, low == high)? {
                return Ok(format!(in alloc; "otherwise at {low} and {high}")?);
            }
        }
    }
    Ok(format!(in alloc; "{} apart", lines.len())?)
}

// Whether a line's copy is another line where it should be. Of one line also what it does, its reply and its message are copied.
fn is_beside(alloc: Global, one: &Line, two: &Line, same: bool) -> Result<bool, RowError> {
    let copy = one.copy(alloc)?;
    if copy.is(two) != same {
        return Ok(false);
    }
    if same {
        is_copied(alloc, one)
    } else {
        Ok(true)
    }
}

fn is_copied(alloc: Global, line: &Line) -> Result<bool, RowError> {
    if is_reply_copied(alloc, &line.reply)? {
        is_message_copied(alloc, line)
    } else {
        Ok(false)
    }
}

fn is_reply_copied(alloc: Global, reply: &Reply) -> Result<bool, RowError> {
    let copy = reply.copy(alloc)?;
    Ok(copy.is(reply))
}

// What a line's process sends for it; nothing where it ends or faults.
fn message_of(alloc: Global, line: &Line) -> Result<Option<Message>, RowError> {
    let process = line.process;
    let call = line.call;
    Ok(match line.action.copy(alloc)? {
        Action::Make { kind, object } => Some(Message {
            process,
            call,
            action: Action::Make { kind, object },
        }),
        Action::Call {
            kind,
            op,
            object,
            args,
        } => Some(Message {
            process,
            call,
            action: Action::Call {
                kind,
                op,
                object,
                args,
            },
        }),
        Action::Fork {
            process: text,
            args,
            place_on,
        } => Some(Message {
            process,
            call,
            action: Action::Fork {
                process: text,
                args,
                place_on,
            },
        }),
        Action::Ended | Action::Faulted { .. } => None,
    })
}

fn is_message_copied(alloc: Global, line: &Line) -> Result<bool, RowError> {
    let Some(message) = message_of(alloc, line)? else {
        return Ok(true);
    };
    let copy = message.copy(alloc)?;
    Ok(copy.is(&message) && message.action.is(&line.action))
}
