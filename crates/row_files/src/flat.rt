//! Values and lines, told in numbers: what was read, as the plain readers tell it and as rows want it.
//!
//! A value is its tag and its content. An integer is 1 and the number, a truth 2 and 0 or 1, a char 3 and its code, a
//! value of an enumeration 4 and its number, a string 5, its codes and -1, an array 6, its parts and -1, a record 7, a
//! set 8, a bag 9 likewise, an object 10, its process and its number.

use crate::rows::RowError;
use orca_base::{FaultKind, ObjectId};
use std::alloc::{AllocError, Global};
use value_core::{Action, Line, Parts, Reply, Value};

/// How many levels values nest.
pub const LEVELS: u8 = 16;

/// A list of numbers that tells what was read. A value is its tag and its content; strings and lists end in `END`. So the order of values
/// is that of their lists from the left.
pub type Numbers = Vec<i128>;

/// What ends a string or a list: less than any tag or char.
pub const END: i128 = -1;

/// Adds a value; of one that nests more levels than there may be, the front.
#[cycle(values)]
pub fn put_value(numbers: &mut Numbers, levels: u8, value: &Value) -> Result<(), AllocError> {
    match value {
        Value::Int(number) => put(numbers, &[1, i128::from(*number)]),
        Value::Truth(truth) => put(numbers, &[2, i128::from(*truth)]),
        Value::Char(code) => put(numbers, &[3, i128::from(*code)]),
        Value::Enum(number) => put(numbers, &[4, i128::from(*number)]),
        Value::Text(text) => {
            numbers.push(5)?;
            for code in text.as_bytes() {
                numbers.push(i128::from(*code))?;
            }
            Ok(numbers.push(END)?)
        }
        Value::Array(parts) => put_list(numbers, levels, 6, parts.as_parts()),
        Value::Fields(parts) => put_list(numbers, levels, 7, parts.as_parts()),
        Value::Set(parts) => put_list(numbers, levels, 8, parts.as_parts()),
        Value::Bag(parts) => put_list(numbers, levels, 9, parts.as_parts()),
        Value::Object(object) => {
            numbers.push(10)?;
            put_object(numbers, object)
        }
    }
}

// Adds a list with this tag.
#[cycle(values)]
fn put_list(numbers: &mut Numbers, levels: u8, tag: i128, parts: &Parts) -> Result<(), AllocError> {
    numbers.push(tag)?;
    if levels > 0 {
        for part in parts.as_slice() {
            put_value(numbers, levels - 1, part)?;
        }
    }
    Ok(numbers.push(END)?)
}

/// Adds these numbers.
pub fn put(numbers: &mut Numbers, more: &[i128]) -> Result<(), AllocError> {
    numbers.extend_from_slice(more)
}

/// Adds the process and the number of an object.
pub fn put_object(numbers: &mut Numbers, object: &ObjectId) -> Result<(), AllocError> {
    put(
        numbers,
        &[i128::from(object.process), i128::from(object.number)],
    )
}

/// Adds values, and what ends them.
pub fn put_arguments(numbers: &mut Numbers, args: &Parts) -> Result<(), AllocError> {
    for value in args.as_slice() {
        put_value(numbers, LEVELS, value)?;
    }
    Ok(numbers.push(END)?)
}

// Adds an action and its guard; what isn't one of a line, as a number that no line has.
fn put_action(numbers: &mut Numbers, action: &Action, guard: u16) -> Result<(), AllocError> {
    match action {
        Action::Make { kind, object } => {
            put(numbers, &[1, i128::from(kind.0)])?;
            put_object(numbers, object)?;
            put_no_guard(numbers, guard)
        }
        Action::Call {
            kind,
            op,
            object,
            args,
        } => {
            put(numbers, &[2, i128::from(kind.0), i128::from(op.0)])?;
            put_object(numbers, object)?;
            put_arguments(numbers, args)?;
            put(numbers, &[i128::from(guard)])
        }
        Action::Fork {
            process,
            args,
            place_on,
        } => {
            put(numbers, &[3, i128::from(process.0)])?;
            put_arguments(numbers, args)?;
            put_no_guard(numbers, guard)?;
            match place_on {
                None => put(numbers, &[0]),
                Some(place) => put(numbers, &[1, i128::from(*place)]),
            }
        }
        Action::Ended | Action::Faulted { .. } => put(numbers, &[END]),
    }
}

// Of a make and a fork the guard is 0, and isn't told; another is.
fn put_no_guard(numbers: &mut Numbers, guard: u16) -> Result<(), AllocError> {
    if guard > 0 {
        put(numbers, &[i128::from(guard)])?;
    }
    Ok(())
}

/// Adds 0, or 1 and a value, or 2 and a fault.
pub fn put_reply(numbers: &mut Numbers, reply: &Reply) -> Result<(), AllocError> {
    match reply {
        Reply::Done => put(numbers, &[0]),
        Reply::Gave { value } => {
            numbers.push(1)?;
            put_value(numbers, LEVELS, value)
        }
        Reply::Broke { fault } => put(numbers, &[2, number_of(*fault)]),
    }
}

fn number_of(fault: FaultKind) -> i128 {
    match fault {
        FaultKind::Overflow => 0,
        FaultKind::DivideByZero => 1,
        FaultKind::IndexOutside => 2,
        FaultKind::FromEmpty => 3,
        FaultKind::TooLarge => 4,
        FaultKind::TooLong => 5,
        FaultKind::TooDeep => 6,
        FaultKind::NoReturn => 7,
    }
}

/// Adds a line.
pub fn put_line(numbers: &mut Numbers, line: &Line) -> Result<(), AllocError> {
    put(
        numbers,
        &[i128::from(line.process.0), i128::from(line.call.0)],
    )?;
    put_action(numbers, &line.action, line.guard)?;
    put_reply(numbers, &line.reply)
}

/// Numbers with a space between two.
pub fn text_of(alloc: Global, numbers: &[i128]) -> Result<String, RowError> {
    let mut text = String::new(alloc);
    for number in numbers {
        if !text.is_empty() {
            text.push_str(" ")?;
        }
        let number = format!(in alloc; "{number}")?;
        text.push_str(number.as_str())?;
    }
    Ok(text)
}

/// A value in numbers, with a space between two.
pub fn value_text(alloc: Global, value: &Value) -> Result<String, RowError> {
    let mut numbers = Vec::new(alloc);
    put_value(&mut numbers, LEVELS, value)?;
    text_of(alloc, &numbers)
}
