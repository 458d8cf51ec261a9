//! Printing values.

ghost use Rattle.std.specs.Prelude.{◌≡◌, ◌≤◌, ◌++◌, ◌∷◌, ◌==◌, if◌then◌else◌, [], IfOk, OnOk, OnErr};
ghost use Rattle.std.specs.Fmt.{decimal, signed_decimal};
ghost use Rattle.std.specs.List.{flat_map};
ghost use Rattle.value_core.specs.Sound.{AreSound, IsSound, nesting, nesting_of_all};
ghost use Rattle.value_core.specs.Datum as datum;
ghost use Rattle.value_core.specs.View.{datum_of};
ghost use Rattle.value_texts.specs.Spelling.{escaped, parts_text, value_text};

use crate::strings::{hex_digit, is_plain};
use orca_base::{NoMemory, ObjectId, VALUE_NESTING};
use std::alloc::Global;
use value_core::{Parts, Value};

/// Adds an integer in decimal behind these bytes. Where there is no memory, they stay as they were.
pub fn push_integer(out: &mut Vec<u8>, number: i64) -> Result<(), NoMemory>
    ensures ok { OnOk result (out.new.items ≡ out.old.items ++ signed_decimal number) }
    ensures err { OnErr result (out.new.items ≡ out.old.items) }
{
    let digits = number.to_string(*out.allocator())?;
    out.extend_from_slice(digits.as_bytes())?;
    Ok(())
}

/// Adds a number in decimal behind these bytes. Where there is no memory, they stay as they were.
pub fn push_number(out: &mut Vec<u8>, number: u64) -> Result<(), NoMemory>
    ensures ok { OnOk result (out.new.items ≡ out.old.items ++ decimal number) }
    ensures err { OnErr result (out.new.items ≡ out.old.items) }
{
    let digits = number.to_string(*out.allocator())?;
    out.extend_from_slice(digits.as_bytes())?;
    Ok(())
}

// Adds a letter and a number in decimal.
fn put_lettered(out: &mut Vec<u8>, letter: u8, number: u32) -> Result<(), NoMemory>
    ensures { OnOk result (out.new.items ≡ out.old.items ++ letter ∷ decimal number) }
{
    out.push(letter)?;
    push_number(out, u64::from(number))
}

// Adds a truth.
fn put_truth(out: &mut Vec<u8>, truth: bool) -> Result<(), NoMemory>
    ensures { OnOk result (out.new.items ≡ out.old.items ++ value_text (datum.truth truth)) }
{
    let word: &[u8] = if truth { b"true" } else { b"false" };
    out.extend_from_slice(word)?;
    Ok(())
}

// Adds a character of a string.
#[tactic(auto, unfolding(crate::specs::Spelling::escaped))]
fn put_character(out: &mut Vec<u8>, code: u8) -> Result<(), NoMemory>
    ensures { OnOk result (out.new.items ≡ out.old.items ++ escaped code) }
{
    match code {
        b'\n' => out.extend_from_slice(b"\\n")?,
        b'\t' => out.extend_from_slice(b"\\t")?,
        b'\\' | b'"' => out.extend_from_slice(&[b'\\', code])?,
        _ if is_plain(code) => out.push(code)?,
        _ => out.extend_from_slice(&[b'\\', b'x', hex_digit(code / 16), hex_digit(code % 16)])?,
    }
    Ok(())
}

// Adds characters of a string.
fn put_characters(out: &mut Vec<u8>, characters: &[u8]) -> Result<(), NoMemory>
    ensures { OnOk result (out.new.items ≡ out.old.items ++ flat_map escaped characters.now) }
{
    'characters: for character in characters {
        put_character(out, *character)?;
    }
    Ok(())
}

// Adds a string in its quotes.
fn put_text(out: &mut Vec<u8>, characters: &[u8]) -> Result<(), NoMemory>
    ensures { OnOk result (out.new.items ≡ out.old.items ++ 34 ∷ (flat_map escaped characters.now ++ 34 ∷ [])) }
{
    out.push(b'"')?;
    put_characters(out, characters)?;
    out.push(b'"')?;
    Ok(())
}

// Adds an object's name.
fn put_object(out: &mut Vec<u8>, object: ObjectId) -> Result<(), NoMemory>
    ensures { OnOk result (out.new.items ≡ out.old.items ++ 111 ∷ (decimal object.process ++ 46 ∷ decimal object.number)) }
{
    put_lettered(out, b'o', u32::from(object.process))?;
    put_lettered(out, b'.', object.number)
}

// Adds the space in front of a part that isn't the first.
fn put_space(out: &mut Vec<u8>, index: usize) -> Result<(), NoMemory>
    ensures { OnOk result (out.new.items ≡ out.old.items ++ (if index == 0 then [] else 32 ∷ [])) }
{
    if index > 0 {
        out.push(b' ')?;
    }
    Ok(())
}

// Adds parts with one space between two, and the bytes around them.
#[cycle(writes)]
fn put_parts(
    out: &mut Vec<u8>,
    levels: u32,
    opens: u8,
    parts: &Parts,
    closes: u8,
) -> Result<(), NoMemory>
    requires { nesting_of_all parts.now ≤ levels }
    ensures { OnOk result (out.new.items ≡ out.old.items ++ opens ∷ (parts_text parts.now ++ closes ∷ [])) }
{
    out.push(opens)?;
    for (index, part) in parts.as_slice().iter().enumerate() {
        put_space(out, index)?;
        put_value(out, levels, part)?;
    }
    out.push(closes)?;
    Ok(())
}

// Adds the spelling of a value that nests at most so many levels.
#[cycle(writes)]
fn put_value(out: &mut Vec<u8>, levels: u32, value: &Value) -> Result<(), NoMemory>
    requires { nesting (datum_of value.now) ≤ levels }
    ensures { OnOk result (out.new.items ≡ out.old.items ++ value_text (datum_of value.now)) }
{
    match value {
        Value::Int(number) => push_integer(out, *number),
        Value::Truth(truth) => put_truth(out, *truth),
        Value::Char(code) => put_lettered(out, b'c', u32::from(*code)),
        Value::Enum(number) => put_lettered(out, b'e', u32::from(*number)),
        Value::Text(text) => put_text(out, text.as_bytes()),
        Value::Array(parts) => put_parts(out, levels - 1, b'[', parts.as_parts(), b']'),
        Value::Fields(parts) => put_parts(out, levels - 1, b'(', parts.as_parts(), b')'),
        Value::Set(parts) => put_parts(out, levels - 1, b'{', parts.as_parts(), b'}'),
        Value::Bag(parts) => put_parts(out, levels - 1, b'<', parts.as_parts(), b'>'),
        Value::Object(object) => put_object(out, *object),
    }
}

/// The one spelling of a sound value (docs/FORMATS.md, Histories).
pub fn print_value(alloc: Global, value: &Value) -> Result<Vec<u8>, NoMemory>
    requires { IsSound (datum_of value.now) }
    ensures { IfOk result (λ v. v.items ≡ value_text (datum_of value.now)) }
{
    let mut out = Vec::new(alloc);
    put_value(&mut out, VALUE_NESTING, value)?;
    Ok(out)
}

/// Adds the one spelling of a sound value behind these bytes. Where there is no memory, they stay as they were.
pub fn push_value(out: &mut Vec<u8>, value: &Value) -> Result<(), NoMemory>
    requires { IsSound (datum_of value.now) }
    ensures ok { OnOk result (out.new.items ≡ out.old.items ++ value_text (datum_of value.now)) }
    ensures err { OnErr result (out.new.items ≡ out.old.items) }
{
    let text = print_value(*out.allocator(), value)?;
    out.extend_from_slice(&text)?;
    Ok(())
}

/// Adds sound values in round brackets behind these bytes, with one space between two. Where there is no memory, they stay as they
/// were.
pub fn push_values(out: &mut Vec<u8>, values: &Parts) -> Result<(), NoMemory>
    requires { AreSound values.now }
    ensures ok { OnOk result (out.new.items ≡ out.old.items ++ 40 ∷ (parts_text values.now ++ 41 ∷ [])) }
    ensures err { OnErr result (out.new.items ≡ out.old.items) }
{
    let mut text = Vec::new(*out.allocator());
    put_parts(&mut text, VALUE_NESTING, b'(', values, b')')?;
    out.extend_from_slice(&text)?;
    Ok(())
}
