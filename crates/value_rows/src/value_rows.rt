//! Values in texts and in bytes, and in their order.
//!
//! - `read TEXT`: the value that a text spells, in numbers, or `refused`. It is written so again.
//! - `front TEXT`, `list in front TEXT`: the value or the values in round brackets with which a text begins, in
//!   numbers, and behind a line feed what follows. Values are written so again.
//! - `bytes BYTES`, `bytes at PLACE, BYTES`: the value whose spelling stands at a place, in numbers, and where it ends;
//!   or the fault. All of the bytes are written so again.
//! - `written TEXT`: a value's spelling in bytes. `behind BYTES, TEXT`: the same behind other bytes.
//! - `rises VALUES`: whether each of them is less than those behind it, and equal to itself and its copy alone.
//! - `sorted VALUES`: in their order. `put in VALUES, PLACE, VALUE`: two lists that share these values, of which one has one
//!   more put in at a place: both of them.
//! - `parts VALUE`: its parts, if both what is copied for a value that is shared and what is moved out are the same.
//! - `instance VALUES`: whether the state of an object is copied.

ghost use Rattle.std.specs.Prelude.{IfOk};
ghost use Rattle.value_core.specs.Sound.{AreSound, IsSound};
ghost use Rattle.value_core.specs.View.{datum_of};

use orca_base::{KindNo, Refusal};
use row_files::flat::Numbers;
use row_files::{Row, RowError, bytes, flat, malformed, number_32, said};
use std::alloc::Global;
use std::cmp::Ordering;
use value_bytes::{ValueError, push_value as push_bytes, read_value as read_bytes, write_value};
use value_core::{BoxedParts, Instance, Parts, Value};
use value_texts::{
    print_value, push_value, push_values, read_value, value_in_front, values_in_front,
};

// No text or byte string has more bytes.
const MOST: usize = 100_000;

/// What a row's call answers.
pub fn answer(alloc: Global, row: &Row<'_>) -> Result<String, RowError> {
    match row.given() {
        [given] => of_one(alloc, row.verb(), given),
        [first, second] => of_two(alloc, row.verb(), first, second),
        [first, second, third] if row.verb() == "put in" => put_in(alloc, first, second, third),
        _ => malformed("no call"),
    }
}

fn of_one(alloc: Global, verb: &str, given: &str) -> Result<String, RowError> {
    match verb {
        "read" => read(alloc, given),
        "front" => front(alloc, given),
        "list in front" => list_in_front(alloc, given),
        "bytes" => read_from_bytes(alloc, &bytes(alloc, given)?),
        "written" => written(alloc, given),
        "rises" => rises(alloc, given),
        "sorted" => sorted(alloc, given),
        "parts" => parts(alloc, given),
        "instance" => instance(alloc, given),
        _ => malformed("no call"),
    }
}

fn of_two(alloc: Global, verb: &str, first: &str, second: &str) -> Result<String, RowError> {
    match verb {
        "bytes at" => read_at(alloc, number_32(first)?, &bytes(alloc, second)?),
        "behind" => written_behind(alloc, bytes(alloc, first)?, second),
        _ => malformed("no call"),
    }
}

/// The value that a text spells.
pub fn value_of(alloc: Global, text: &str) -> Result<Value, RowError>
    ensures { IfOk result (λ v. IsSound (datum_of v)) }
{
    if text.len() > MOST {
        return Err(RowError::Malformed {
            why: "too long a text",
        });
    }
    match read_value(alloc, text.as_bytes()) {
        Ok(value) => Ok(value),
        Err(Refusal::Because { .. }) => Err(RowError::Malformed { why: "no value" }),
        Err(Refusal::NoMemory) => Err(RowError::NoMemory),
    }
}

/// The values in round brackets that a text is.
pub fn values_of(alloc: Global, text: &str) -> Result<Parts, RowError>
    ensures { IfOk result AreSound }
{
    if text.len() > MOST {
        return Err(RowError::Malformed {
            why: "too long a text",
        });
    }
    match values_in_front(alloc, text.as_bytes()) {
        Ok((values, rest)) => {
            if rest.is_empty() {
                Ok(values)
            } else {
                Err(RowError::Malformed {
                    why: "more than values",
                })
            }
        }
        Err(Refusal::Because { .. }) => Err(RowError::Malformed { why: "no values" }),
        Err(Refusal::NoMemory) => Err(RowError::NoMemory),
    }
}

fn read(alloc: Global, text: &str) -> Result<String, RowError> {
    if text.len() > MOST {
        return malformed("too long a text");
    }
    match read_value(alloc, text.as_bytes()) {
        Ok(value) => printed_again(alloc, text, &value),
        Err(Refusal::Because { .. }) => said(alloc, "refused"),
        Err(Refusal::NoMemory) => Err(RowError::NoMemory),
    }
}

// The value in numbers, where this text is printed for it both ways.
fn printed_again(alloc: Global, text: &str, value: &Value) -> Result<String, RowError>
    requires { IsSound (datum_of value.now) }
{
    let printed = print_value(alloc, value)?;
    let mut pushed = Vec::new(alloc);
    push_value(&mut pushed, value)?;
    if printed.as_slice() != text.as_bytes() || pushed.as_slice() != text.as_bytes() {
        return said(alloc, "printed otherwise");
    }
    flat::value_text(alloc, value)
}

// An answer, and what follows in the text behind a line feed.
fn with_rest(alloc: Global, answer: &str, rest: &[u8]) -> Result<String, RowError> {
    match str::from_utf8(rest) {
        Ok(rest) => Ok(format!(in alloc; "{answer}\n{rest}")?),
        Err(_) => malformed("no text"),
    }
}

fn front(alloc: Global, text: &str) -> Result<String, RowError> {
    match value_in_front(alloc, text.as_bytes()) {
        Ok((value, rest)) => {
            let value = flat::value_text(alloc, &value)?;
            with_rest(alloc, value.as_str(), rest)
        }
        Err(Refusal::Because { .. }) => said(alloc, "refused"),
        Err(Refusal::NoMemory) => Err(RowError::NoMemory),
    }
}

fn list_in_front(alloc: Global, text: &str) -> Result<String, RowError> {
    if text.len() > MOST {
        return malformed("too long a text");
    }
    match values_in_front(alloc, text.as_bytes()) {
        Ok((values, rest)) => listed_again(alloc, text, &values, rest),
        Err(Refusal::Because { .. }) => said(alloc, "refused"),
        Err(Refusal::NoMemory) => Err(RowError::NoMemory),
    }
}

// The values in numbers, where they are printed so in front of the rest.
fn listed_again(alloc: Global, text: &str, values: &Parts, rest: &[u8]) -> Result<String, RowError>
    requires { AreSound values.now }
{
    let mut printed = Vec::new(alloc);
    push_values(&mut printed, values)?;
    printed.extend_from_slice(rest)?;
    if printed.as_slice() != text.as_bytes() {
        return said(alloc, "printed otherwise");
    }
    let mut numbers = Vec::new(alloc);
    flat::put_arguments(&mut numbers, values)?;
    let numbers = flat::text_of(alloc, &numbers)?;
    with_rest(alloc, numbers.as_str(), rest)
}

// A value with its end.
fn with_end(alloc: Global, value: &Value, end: u32) -> Result<String, RowError> {
    let value = flat::value_text(alloc, value)?;
    Ok(format!(in alloc; "{value} up to {end}")?)
}

// What is told of a fault.
fn fault_text(alloc: Global, refusal: Refusal<ValueError>) -> Result<String, RowError> {
    match refusal {
        Refusal::Because { cause } => Ok(format!(in alloc; "{cause:?}")?),
        Refusal::NoMemory => Err(RowError::NoMemory),
    }
}

fn read_at(alloc: Global, at: u32, bytes: &[u8]) -> Result<String, RowError> {
    if bytes.len() > MOST {
        return malformed("too many bytes");
    }
    match read_bytes(alloc, bytes, at) {
        Ok((value, end)) => with_end(alloc, &value, end),
        Err(refusal) => fault_text(alloc, refusal),
    }
}

fn read_from_bytes(alloc: Global, bytes: &[u8]) -> Result<String, RowError> {
    if bytes.len() > MOST {
        return malformed("too many bytes");
    }
    match read_bytes(alloc, bytes, 0) {
        Ok((value, end)) => written_again(alloc, bytes, &value, end),
        Err(refusal) => fault_text(alloc, refusal),
    }
}

// The value with its end, where these bytes are written for it.
fn written_again(alloc: Global, bytes: &[u8], value: &Value, end: u32) -> Result<String, RowError>
    requires { IsSound (datum_of value.now) }
{
    let written = write_value(alloc, value)?;
    if written.as_slice() != bytes {
        return said(alloc, "written otherwise");
    }
    with_end(alloc, value, end)
}

// Bytes in decimal, with a space between two.
fn bytes_text(alloc: Global, bytes: &[u8]) -> Result<String, RowError> {
    let mut numbers: Numbers = Vec::new(alloc);
    for byte in bytes {
        numbers.push(i128::from(*byte))?;
    }
    flat::text_of(alloc, &numbers)
}

fn written(alloc: Global, text: &str) -> Result<String, RowError> {
    let value = value_of(alloc, text)?;
    let written = write_value(alloc, &value)?;
    bytes_text(alloc, &written)
}

fn written_behind(alloc: Global, bytes: Vec<u8>, text: &str) -> Result<String, RowError> {
    let mut written = bytes;
    let value = value_of(alloc, text)?;
    push_bytes(&mut written, &value)?;
    bytes_text(alloc, &written)
}

// Whether a value and its copy are as they should be beside another: equal, less or greater.
fn is_beside(alloc: Global, one: &Value, two: &Value, order: Ordering) -> Result<bool, RowError> {
    let copy = one.copy(alloc)?;
    Ok(copy.compare(two) == order && copy.is(two) == (order == Ordering::Equal))
}

fn rises(alloc: Global, text: &str) -> Result<String, RowError> {
    let values = values_of(alloc, text)?;
    for (low, one) in values.as_slice().iter().enumerate() {
        for (high, two) in values.as_slice().iter().enumerate() {
            if !is_beside(alloc, one, two, low.cmp(&high))? {
                return Ok(format!(in alloc; "otherwise at {low} and {high}")?);
            }
        }
    }
    Ok(format!(in alloc; "{} rise", values.len())?)
}

// Values in numbers.
fn list_text(alloc: Global, values: &[Value]) -> Result<String, RowError> {
    let mut numbers = Vec::new(alloc);
    for value in values {
        flat::put_value(&mut numbers, 16, value)?;
    }
    flat::text_of(alloc, &numbers)
}

fn sorted(alloc: Global, text: &str) -> Result<String, RowError> {
    let mut values = values_of(alloc, text)?.into_vec();
    values.sort()?;
    list_text(alloc, &values)
}

// Puts one more value into a list, at a place.
fn insert_at(list: &mut Parts, place: u32, value: Value) -> Result<(), RowError> {
    let place = place as usize;
    if place > list.len() {
        return malformed("no place");
    }
    Ok(list.insert(place, value)?)
}

// Lists that share their values, of which one has one more put in at a place.
fn put_in(alloc: Global, values: &str, place: &str, value: &str) -> Result<String, RowError> {
    let kept = BoxedParts::new(alloc, values_of(alloc, values)?)?;
    let mut list = kept.copy()?;
    let place = number_32(place)?;
    let value = value_of(alloc, value)?;
    insert_at(list.as_parts_mut(alloc)?, place, value)?;
    let list = list_text(alloc, list.as_parts().as_slice())?;
    let kept = list_text(alloc, kept.as_parts().as_slice())?;
    Ok(format!(in alloc; "{list} of {kept}")?)
}

// What `into_parts` gives of a value that is shared, and then of it alone.
fn parts(alloc: Global, text: &str) -> Result<String, RowError> {
    let value = value_of(alloc, text)?;
    let copied = value.copy(alloc)?.into_parts(alloc)?;
    let moved = value.into_parts(alloc)?;
    if copied == moved {
        list_text(alloc, moved.as_slice())
    } else {
        said(alloc, "otherwise where it is shared")
    }
}

fn instance(alloc: Global, text: &str) -> Result<String, RowError> {
    let kept = Instance {
        kind: KindNo(1),
        state: values_of(alloc, text)?,
    };
    if kept.copy(alloc)?.is(&kept) {
        said(alloc, "copied")
    } else {
        said(alloc, "another")
    }
}
