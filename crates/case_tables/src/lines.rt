//! The lines of a history.

use orca_base::{NoMemory, ObjectId};
use std::alloc::Global;
use value_core::{Action, Line, Reply, Value};

/// How many lines of a history make objects, fork, and call an operation of the first declared type, or of another.
#[derive(Clone, Copy)]
pub struct Sorts {
    pub makes: u64,
    pub forks: u64,
    pub calls: u64,
    pub others: u64,
}

/// The lines by sort.
pub fn sorted(book: &[Line]) -> Sorts {
    let mut found = Sorts {
        makes: 0,
        forks: 0,
        calls: 0,
        others: 0,
    };
    for line in book {
        let one = match &line.action {
            Action::Make { .. } => &mut found.makes,
            Action::Fork { .. } => &mut found.forks,
            Action::Call { kind, .. } if kind.0 == 1 => &mut found.calls,
            _ => &mut found.others,
        };
        *one = one.saturating_add(1);
    }
    found
}

/// The integers that calls gave.
pub fn given(alloc: Global, book: &[Line]) -> Result<Vec<i64>, NoMemory> {
    let mut given = Vec::new(alloc);
    for line in book {
        if let Some(number) = gave(line) {
            given.push(number)?;
        }
    }
    Ok(given)
}

// The integer that a line's call gave.
fn gave(line: &Line) -> Option<i64> {
    match (&line.action, &line.reply) {
        (
            Action::Call { .. },
            Reply::Gave {
                value: Value::Int(number),
            },
        ) => Some(*number),
        _ => None,
    }
}

/// What the last line writes.
pub fn written(book: &[Line]) -> Option<&str> {
    match &book.last()?.action {
        Action::Call { args, .. } => match args.as_slice().first()? {
            Value::Text(text) => Some(text.as_str()),
            _ => None,
        },
        _ => None,
    }
}

// How many lines and replies are spelled.
const SPELLED: usize = 100;

/// The lines by numbers, `; ` between two, of the first hundred: as in docs/FORMATS.md, Histories, with the numbers of types, operations
/// and texts in the place of their names, and a guard in each.
pub fn history_of(alloc: Global, book: &[Line]) -> Result<String, NoMemory> {
    let mut text = String::new(alloc);
    for line in book.iter().take(SPELLED) {
        if !text.is_empty() {
            text.push_str("; ")?;
        }
        let action = action_text(alloc, &line.action)?;
        let reply = reply_text(alloc, &line.reply)?;
        let (process, call, guard) = (line.process.0, line.call.0, line.guard);
        let spelled = format!(in alloc; "{process} {call} {action} guard {guard} {reply}")?;
        text.push_str(spelled.as_str())?;
    }
    Ok(text)
}

/// The replies, `; ` between two, of the first hundred.
pub fn replies_of(alloc: Global, replies: &[Reply]) -> Result<String, NoMemory> {
    let mut text = String::new(alloc);
    for reply in replies.iter().take(SPELLED) {
        if !text.is_empty() {
            text.push_str("; ")?;
        }
        let spelled = reply_text(alloc, reply)?;
        text.push_str(spelled.as_str())?;
    }
    Ok(text)
}

// An action by numbers.
fn action_text(alloc: Global, action: &Action) -> Result<String, NoMemory> {
    match action {
        Action::Make { kind, object } => {
            let object = object_text(alloc, *object)?;
            Ok(format!(in alloc; "make {} {object}", kind.0)?)
        }
        Action::Call {
            kind,
            op,
            object,
            args,
        } => {
            let object = object_text(alloc, *object)?;
            let args = values_text(alloc, args.as_slice())?;
            Ok(format!(in alloc; "call {}${} {object} ({args})", kind.0, op.0)?)
        }
        Action::Fork { process, args, .. } => {
            let args = values_text(alloc, args.as_slice())?;
            Ok(format!(in alloc; "fork {} ({args})", process.0)?)
        }
        Action::Ended | Action::Faulted { .. } => Ok(String::from_str(alloc, "end")?),
    }
}

// A reply.
fn reply_text(alloc: Global, reply: &Reply) -> Result<String, NoMemory> {
    match reply {
        Reply::Done => Ok(String::from_str(alloc, "none")?),
        Reply::Gave { value } => value_text(alloc, value),
        Reply::Broke { fault } => Ok(format!(in alloc; "fault {fault:?}")?),
    }
}

// Values with a space between two.
fn values_text(alloc: Global, values: &[Value]) -> Result<String, NoMemory> {
    let mut text = String::new(alloc);
    for value in values {
        if !text.is_empty() {
            text.push_str(" ")?;
        }
        let spelled = value_text(alloc, value)?;
        text.push_str(spelled.as_str())?;
    }
    Ok(text)
}

// A value; one that has parts is not spelled.
fn value_text(alloc: Global, value: &Value) -> Result<String, NoMemory> {
    match value {
        Value::Int(number) => Ok(format!(in alloc; "{number}")?),
        Value::Truth(truth) => Ok(format!(in alloc; "{truth}")?),
        Value::Char(code) => Ok(format!(in alloc; "c{code}")?),
        Value::Enum(number) => Ok(format!(in alloc; "e{number}")?),
        Value::Text(text) => Ok(format!(in alloc; "{:?}", text.as_str())?),
        Value::Object(object) => object_text(alloc, *object),
        Value::Array(_) | Value::Fields(_) | Value::Set(_) | Value::Bag(_) => {
            Ok(String::from_str(alloc, "parts")?)
        }
    }
}

// An object's name.
fn object_text(alloc: Global, object: ObjectId) -> Result<String, NoMemory> {
    let (process, number) = (object.process, object.number);
    Ok(format!(in alloc; "o{process}.{number}")?)
}
