//! What is said of histories of the program of pools and flags whose processes are scripts, and the order of its book.
//!
//! The history that rows speak of has two processes side by side, and a third whose making faults.
//!
//! - `history OLD, NEW`: what is told of its text where this stands in place of what stood there.
//! - `text TEXT`: what is told of another text.
//! - `behind NUMBER, LINE`: what is told of so many of its lines and one more. That is
//!   `PROCESS CALL ACTION guard GUARD REPLY`, whose action is `make TYPE`, `call TYPE OPERATION`,
//!   `call TYPE OPERATION INTEGER`, `fork TEXT` or `ended`, by numbers and with the process's first object, and whose
//!   reply is `none`, `broke` for a division by zero, or an integer.
//! - `book LINES`: operations `PLACE PROCESS CALL` sorted by place.

ghost use Rattle.std.specs.Prelude.{IfOk};

use crate::history_rows::lines_of;
use crate::names;
use bag_processes::Scripts;
use book_law::{Placed, sort_by_place};
use history_check::{Verdict, replay};
use history_commands::replay_text;
use orca_base::{CallNo, FaultKind, KindNo, ObjectId, OpNo, ProcessNo, TextNo};
use row_files::{
    Row, RowError, add_part, integer, malformed, number_16, number_32, number_64, said, words,
};
use std::alloc::Global;
use value_core::{Action, Line, Parts, Reply, Value};

// The history.
const HISTORY: &str = "0 0 make Flag o0.1 none
0 1 call Flag$Set o0.1 (1) guard 0 none
0 2 fork Second () on parent none
1 0 make Pool o1.1 none
0 3 call Flag$Step o0.1 () guard 2 none
1 1 call Pool$Put o1.1 (5) guard 0 none
1 2 call Pool$Take o1.1 () guard 1 5
0 4 fork Third () on parent none
2 0 make Broken o2.1 fault DivideByZero
";

// No text has more bytes.
const MOST: usize = 100_000;

/// What a row's call answers.
pub fn answer(alloc: Global, row: &Row<'_>) -> Result<String, RowError> {
    match (row.verb(), row.given()) {
        ("history", [old, new]) => {
            let text = HISTORY.replace(alloc, old, new)?;
            told_of(alloc, text.as_str())
        }
        ("text", [text]) => told_of(alloc, text),
        ("behind", [number, line]) => behind(alloc, number_32(number)?, line),
        ("behind", [number]) => {
            let lines = front(alloc, number_32(number)?)?;
            verdict_text(alloc, &lines)
        }
        ("book", [lines]) => book(alloc, lines),
        _ => malformed("no call"),
    }
}

// What is told of a text, without its line feed.
fn told_of(alloc: Global, text: &str) -> Result<String, RowError> {
    if text.len() > MOST {
        return malformed("too long a text");
    }
    let names = names::of_scripts(alloc)?;
    let answer = replay_text(alloc, &Scripts, &names, text.as_bytes())?;
    let line = answer.line(alloc)?;
    match str::from_utf8(&line) {
        Ok(line) => said(alloc, line),
        Err(_) => malformed("no text is told"),
    }
}

// So many of the history's lines.
fn front(alloc: Global, number: u32) -> Result<Vec<Line>, RowError> {
    let names = names::of_scripts(alloc)?;
    match lines_of(alloc, &names, HISTORY)? {
        Ok(lines) => {
            let mut lines = lines;
            lines.truncate(number as usize);
            Ok(lines)
        }
        Err(_) => malformed("the history isn't read"),
    }
}

fn behind(alloc: Global, number: u32, line: &str) -> Result<String, RowError> {
    let mut lines = front(alloc, number)?;
    lines.push(line_of(alloc, line)?)?;
    verdict_text(alloc, &lines)
}

fn verdict_text(alloc: Global, lines: &[Line]) -> Result<String, RowError> {
    if lines.len() > MOST {
        return malformed("too many lines");
    }
    match replay(alloc, &Scripts, lines)? {
        Verdict::Legal => said(alloc, "legal"),
        Verdict::Breach { line, rule } => Ok(format!(in alloc; "line {line}: {rule:?}")?),
    }
}

fn line_of(alloc: Global, text: &str) -> Result<Line, RowError> {
    let Some((before, after)) = text.split_once(" guard ") else {
        return malformed("no guard");
    };
    let Some((guard, reply)) = after.split_once(' ') else {
        return malformed("no reply");
    };
    let before = words(alloc, before)?;
    let [process, call, action @ ..] = before.as_slice() else {
        return malformed("no process and call");
    };
    let process = number_16(process)?;
    Ok(Line {
        process: ProcessNo(process),
        call: CallNo(number_64(call)?),
        action: action_of(alloc, process, action)?,
        guard: number_16(guard)?,
        reply: reply_of(reply)?,
    })
}

fn reply_of(text: &str) -> Result<Reply, RowError> {
    match text {
        "none" => Ok(Reply::Done),
        "broke" => Ok(Reply::Broke {
            fault: FaultKind::DivideByZero,
        }),
        _ => Ok(Reply::Gave {
            value: Value::Int(integer(text)?),
        }),
    }
}

fn action_of(alloc: Global, process: u16, text: &[&str]) -> Result<Action, RowError> {
    let object = ObjectId { process, number: 1 };
    match text {
        [verb] if *verb == "ended" => Ok(Action::Ended),
        [verb, kind] if *verb == "make" => Ok(Action::Make {
            kind: KindNo(number_16(kind)?),
            object,
        }),
        [verb, text] if *verb == "fork" => Ok(Action::Fork {
            process: TextNo(number_16(text)?),
            args: Parts::new(alloc),
            place_on: None,
        }),
        [verb, kind, op, args @ ..] if *verb == "call" => Ok(Action::Call {
            kind: KindNo(number_16(kind)?),
            op: OpNo(number_16(op)?),
            object,
            args: integers_of(alloc, args)?,
        }),
        _ => malformed("no action"),
    }
}

fn integers_of(alloc: Global, words: &[&str]) -> Result<Parts, RowError> {
    let mut parts = Parts::new(alloc);
    for word in words {
        parts.push(Value::Int(integer(word)?))?;
    }
    Ok(parts)
}

// A make by a process with a call number, at a place.
fn placed(alloc: Global, text: &str) -> Result<Placed, RowError> {
    let given = words(alloc, text)?;
    let [place, process, call] = given.as_slice() else {
        return malformed("no place, process and call");
    };
    let process = number_16(process)?;
    Ok(Placed {
        place: number_64(place)?,
        line: Line {
            process: ProcessNo(process),
            call: CallNo(number_64(call)?),
            action: Action::Make {
                kind: KindNo(1),
                object: ObjectId { process, number: 1 },
            },
            guard: 0,
            reply: Reply::Done,
        },
    })
}

fn book(alloc: Global, lines: &str) -> Result<String, RowError> {
    let mut performed = Vec::new(alloc);
    for line in lines.split(", ") {
        performed.push(placed(alloc, line)?)?;
    }
    sort_by_place(&mut performed)?;
    let mut answer = String::new(alloc);
    for one in &performed {
        let line = &one.line;
        let text = format!(in alloc; "{} {} {}", one.place, line.process.0, line.call.0)?;
        add_part(&mut answer, text.as_str())?;
    }
    Ok(answer)
}
