//! Writing values.

ghost use Rattle.std.specs.Prelude.{◌≡◌, ◌+◌, ◌<◌, ◌≤◌, ◌^◌, ◌++◌, ◌∷◌, length, IfOk, OnOk, OnErr};
ghost use Rattle.std.specs.Int.{w16, w32, to_be_bytes};
ghost use Rattle.value_core.specs.Datum.{list_of};
ghost use Rattle.value_core.specs.Lengths.{value_length};
ghost use Rattle.value_core.specs.Sound.{AreWellFormed, IsShort, IsSound, IsWellFormed, nesting, nesting_of_all};
ghost use Rattle.value_core.specs.View.{datum_of};
ghost use Rattle.value_bytes.specs.Spelling.{counted, spelling, spellings};

use orca_base::{NoMemory, VALUE_NESTING};
use std::alloc::Global;
use value_core::{Parts, Value};

// Adds a tag and these bytes.
fn put(out: &mut Vec<u8>, tag: u8, bytes: &[u8]) -> Result<(), NoMemory>
    ensures { OnOk result (out.new.items ≡ out.old.items ++ tag ∷ bytes.now) }
{
    out.push(tag)?;
    out.extend_from_slice(bytes)?;
    Ok(())
}

// Adds the spelling of a string with these bytes.
fn put_text(out: &mut Vec<u8>, text: &[u8]) -> Result<(), NoMemory>
    requires { length text.now < 2 ^ 32 }
    ensures { OnOk result (out.new.items ≡ out.old.items ++ 5 ∷ counted (length text.now) text.now) }
{
    put(out, 5, &(text.len() as u32).to_be_bytes())?;
    out.extend_from_slice(text)?;
    Ok(())
}

// Adds the spelling of an object's name.
fn put_object(out: &mut Vec<u8>, process: u16, number: u32) -> Result<(), NoMemory>
    ensures { OnOk result (out.new.items ≡ out.old.items ++ 10 ∷ to_be_bytes w16 process ++ to_be_bytes w32 number) }
{
    put(out, 10, &process.to_be_bytes())?;
    out.extend_from_slice(&number.to_be_bytes())?;
    Ok(())
}

// Adds a tag, the number of the parts and their spellings.
#[cycle(writes)]
fn put_parts(out: &mut Vec<u8>, levels: u32, tag: u8, parts: &Parts) -> Result<(), NoMemory>
    requires well_formed { AreWellFormed parts.now × IsShort (list_of parts.now) }
    requires shallow { nesting_of_all parts.now ≤ levels }
    ensures { OnOk result (out.new.items ≡ out.old.items ++ tag ∷ counted (length (list_of parts.now)) (spellings parts.now)) }
{
    put(out, tag, &(parts.len() as u32).to_be_bytes())?;
    for part in parts.as_slice() {
        put_value(out, levels, part)?;
    }
    Ok(())
}

// Adds the spelling of a value that nests at most so many levels.
#[cycle(writes)]
fn put_value(out: &mut Vec<u8>, levels: u32, value: &Value) -> Result<(), NoMemory>
    requires well_formed { IsWellFormed (datum_of value.now) }
    requires shallow { nesting (datum_of value.now) ≤ levels }
    ensures { OnOk result (out.new.items ≡ out.old.items ++ spelling (datum_of value.now)) }
{
    match value {
        Value::Int(number) => put(out, 1, &number.to_be_bytes()),
        Value::Truth(truth) => put(out, 2, &[u8::from(*truth)]),
        Value::Char(code) => put(out, 3, &[*code]),
        Value::Enum(number) => put(out, 4, &number.to_be_bytes()),
        Value::Text(text) => put_text(out, text.as_bytes()),
        Value::Array(parts) => put_parts(out, levels - 1, 6, parts.as_parts()),
        Value::Fields(parts) => put_parts(out, levels - 1, 7, parts.as_parts()),
        Value::Set(parts) => put_parts(out, levels - 1, 8, parts.as_parts()),
        Value::Bag(parts) => put_parts(out, levels - 1, 9, parts.as_parts()),
        Value::Object(object) => put_object(out, object.process, object.number),
    }
}

/// The one spelling of a sound value (docs/LANGUAGE.md, Values).
pub fn write_value(alloc: Global, value: &Value) -> Result<Vec<u8>, NoMemory>
    requires { IsSound (datum_of value.now) }
    ensures spelled { IfOk result (λ v. v.items ≡ spelling (datum_of value.now)) }
    ensures length { IfOk result (λ v. length v.items ≡ value_length (datum_of value.now)) }
{
    let mut out = Vec::new(alloc);
    put_value(&mut out, VALUE_NESTING, value)?;
    Ok(out)
}

/// Adds the one spelling of a sound value behind these bytes. Where there is no memory, they stay as they were.
pub fn push_value(out: &mut Vec<u8>, value: &Value) -> Result<(), NoMemory>
    requires { IsSound (datum_of value.now) }
    ensures ok { OnOk result (out.new.items ≡ out.old.items ++ spelling (datum_of value.now)) }
    ensures length { OnOk result (length out.new.items ≡ length out.old.items + value_length (datum_of value.now)) }
    ensures err { OnErr result (out.new.items ≡ out.old.items) }
{
    let bytes = write_value(*out.allocator(), value)?;
    out.extend_from_slice(&bytes)?;
    Ok(())
}
