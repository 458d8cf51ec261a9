//! Operators on numbers and strings, and sizes.
//!
//! - `add A B`, `subtract A B`, `multiply A B`, `divide A B`, `remainder A B`, `negate A`: the result or the fault.
//! - `place LENGTH LOW INDEX`: where the part of an array stands, or the fault.
//! - `join TEXT, TEXT`: both in one. `join letters NUMBER NUMBER`: the length of two strings of so many letters,
//!   joined, or the fault.
//! - `size TEXT`: of a value. `size of letters NUMBER`, `size of array NUMBER`, `size of bag NUMBER`: of a string, an
//!   array or a bag of so many parts. `sizes NUMBER`: of so many integers together.
//! - `text VALUE, NAMES`: what `WriteLine` writes of a value whose type has these names.
//! - `ordinal VALUE`: its ordinal.

use crate::value_rows::value_of;
use orca_base::{FaultKind, NoMemory, Refusal};
use row_files::{Row, RowError, integer, integers, malformed, number_32, said, words};
use std::alloc::Global;
use std::fmt::Display;
use value_core::{BoxedParts, Parts, TextValue, Value};
use value_ops::{
    add, divide, join_texts, multiply, negate, ordinal, place_in, remainder, size_of, size_of_all,
    subtract, text_of,
};

// A string or a list has at most so many parts.
const MOST: u32 = 100_000;

/// What a row's call answers.
pub fn answer(alloc: Global, row: &Row<'_>) -> Result<String, RowError> {
    match row.given() {
        [given] => of_one(alloc, row.verb(), given),
        [left, right] => of_two(alloc, row.verb(), left, right),
        _ => malformed("no call"),
    }
}

fn of_two(alloc: Global, verb: &str, left: &str, right: &str) -> Result<String, RowError> {
    match verb {
        "join" => joined(alloc, left, right),
        "text" => text(alloc, left, right),
        _ => malformed("no call"),
    }
}

fn of_one(alloc: Global, verb: &str, given: &str) -> Result<String, RowError> {
    match verb {
        "add" | "subtract" | "multiply" | "divide" | "remainder" => calculated(alloc, verb, given),
        "negate" => result_text(alloc, negate(integer(given)?)),
        "place" => place(alloc, given),
        "join letters" => joined_letters(alloc, given),
        "size" => number_text(alloc, size_of(&value_of(alloc, given)?)),
        "ordinal" => number_text(alloc, ordinal(&value_of(alloc, given)?)),
        _ => measured(alloc, verb, number_32(given)?),
    }
}

fn number_text<T: Display + Drop>(alloc: Global, number: T) -> Result<String, RowError> {
    Ok(format!(in alloc; "{number}")?)
}

fn result_text<T: Display + Drop>(
    alloc: Global,
    given: Result<T, FaultKind>,
) -> Result<String, RowError> {
    match given {
        Ok(value) => Ok(format!(in alloc; "{value}")?),
        Err(fault) => Ok(format!(in alloc; "fault {fault:?}")?),
    }
}

fn calculated(alloc: Global, verb: &str, given: &str) -> Result<String, RowError> {
    let numbers = integers(alloc, given)?;
    let [left, right] = numbers.as_slice() else {
        return malformed("not two numbers");
    };
    let result = match verb {
        "add" => add(*left, *right),
        "subtract" => subtract(*left, *right),
        "multiply" => multiply(*left, *right),
        "divide" => divide(*left, *right),
        _ => remainder(*left, *right),
    };
    result_text(alloc, result)
}

fn place(alloc: Global, given: &str) -> Result<String, RowError> {
    let given = words(alloc, given)?;
    let [length, low, index] = given.as_slice() else {
        return malformed("not three numbers");
    };
    let place = place_in(number_32(length)?, integer(low)?, integer(index)?);
    result_text(alloc, place)
}

// A string of so many letters.
fn letters(alloc: Global, number: u32) -> Result<TextValue, RowError> {
    if number > MOST {
        return malformed("too many letters");
    }
    let mut text = String::new(alloc);
    for _ in 0..number {
        text.push_str("a")?;
    }
    Ok(TextValue::from_str(alloc, text.as_str())?)
}

// Two strings joined, or the fault.
fn join(
    alloc: Global,
    left: &TextValue,
    right: &TextValue,
) -> Result<Result<TextValue, FaultKind>, RowError> {
    match join_texts(alloc, left, right) {
        Ok(text) => Ok(Ok(text)),
        Err(Refusal::Because { cause }) => Ok(Err(cause)),
        Err(Refusal::NoMemory) => Err(RowError::NoMemory),
    }
}

fn joined(alloc: Global, left: &str, right: &str) -> Result<String, RowError> {
    let left = TextValue::from_str(alloc, left)?;
    let right = TextValue::from_str(alloc, right)?;
    match join(alloc, &left, &right)? {
        Ok(text) => said(alloc, text.as_str()),
        Err(fault) => result_text(alloc, Err::<u32, FaultKind>(fault)),
    }
}

fn joined_letters(alloc: Global, given: &str) -> Result<String, RowError> {
    let given = words(alloc, given)?;
    let [left, right] = given.as_slice() else {
        return malformed("not two numbers");
    };
    let left = letters(alloc, number_32(left)?)?;
    let right = letters(alloc, number_32(right)?)?;
    match join(alloc, &left, &right)? {
        Ok(text) => number_text(alloc, text.as_bytes().len()),
        Err(fault) => result_text(alloc, Err::<u32, FaultKind>(fault)),
    }
}

// So many integers.
fn numbers(alloc: Global, number: u32) -> Result<Parts, NoMemory> {
    let mut parts = Parts::new(alloc);
    for _ in 0..number {
        parts.push(Value::Int(5))?;
    }
    Ok(parts)
}

fn measured(alloc: Global, verb: &str, number: u32) -> Result<String, RowError> {
    match verb {
        "size of letters" => number_text(alloc, size_of(&Value::Text(letters(alloc, number)?))),
        "sizes" => number_text(alloc, size_of_all(&numbers(alloc, number)?)),
        "size of array" => {
            let parts = BoxedParts::new(alloc, numbers(alloc, number)?)?;
            number_text(alloc, size_of(&Value::Array(parts)))
        }
        "size of bag" => {
            let parts = BoxedParts::new(alloc, numbers(alloc, number)?)?;
            number_text(alloc, size_of(&Value::Bag(parts)))
        }
        _ => malformed("no call"),
    }
}

fn text(alloc: Global, value: &str, names: &str) -> Result<String, RowError> {
    let mut own = Vec::new(alloc);
    for name in &words(alloc, names)? {
        own.push(TextValue::from_str(alloc, name)?)?;
    }
    let text = text_of(alloc, &value_of(alloc, value)?, &own)?;
    said(alloc, text.as_str())
}
