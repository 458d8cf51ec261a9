//! Sizes, counts, ordinals and places.

ghost use Rattle.std.specs.Prelude.{◌≡◌, ◌+◌, ◌-◌, ◌<◌, ◌^◌, length, pos};
ghost use Rattle.value_core.specs.Size.{size_of, size_of_all};
ghost use Rattle.value_core.specs.View.{data_in, datum_of};
ghost use Rattle.value_ops.specs.Sizes.{number_in, ordinal_of, place_of, told_size};

use orca_base::{FaultKind, VALUE_SIZE};
use value_core::{Parts, Value};

// What is left of so much room beside a value.
#[cycle(sizes)]
fn room_beside(value: &Value, room: u32) -> u32
    ensures { result ≡ room - size_of (datum_of value.now) }
{
    if room == 0 {
        return 0;
    }
    match value {
        Value::Text(text) => room_beside_text(text.as_bytes(), room),
        Value::Array(parts) | Value::Fields(parts) | Value::Set(parts) | Value::Bag(parts) => {
            room_beside_all(parts.as_parts().as_slice(), room - 1)
        }
        _ => room - 1,
    }
}

// What is left of so much room beside values. It looks at no more of them than there is room for.
#[cycle(sizes)]
fn room_beside_all(values: &[Value], room: u32) -> u32
    ensures { result ≡ room - size_of_all (data_in values.now) }
{
    let mut left = room;
    for value in values {
        if left == 0 {
            return 0;
        }
        left = room_beside(value, left);
    }
    left
}

// What is left of so much room beside a string with these characters.
fn room_beside_text(text: &[u8], room: u32) -> u32
    requires { 0 < room }
    ensures { result ≡ room - (length text.now + 1) }
{
    if text.len() < room as usize {
        room - 1 - text.len() as u32
    } else {
        0
    }
}

/// The size of a value, or 10,001 where it is greater. It looks at no more parts than that.
pub fn size_of(value: &Value) -> u32
    ensures { result ≡ told_size (size_of (datum_of value.now)) }
{
    let most = VALUE_SIZE + 1;
    most - room_beside(value, most)
}

/// The sizes of values together, or 10,001 where that is greater. It looks at no more parts than that.
pub fn size_of_all(values: &Parts) -> u32
    ensures { result ≡ told_size (size_of_all values.now) }
{
    let most = VALUE_SIZE + 1;
    most - room_beside_all(values.as_slice(), most)
}

/// How many characters a string has, or how many elements a set or bag: the language's `size`.
pub fn count(value: &Value) -> i64
    ensures { result ≡ pos (number_in (datum_of value.now)) }
{
    match value {
        Value::Text(text) => text.as_bytes().len() as i64,
        Value::Set(parts) | Value::Bag(parts) => parts.as_parts().len() as i64,
        _ => 0,
    }
}

/// A char's code, or the number of an enumeration's value from 0: `ord`.
pub fn ordinal(value: &Value) -> i64
    ensures { result ≡ pos (ordinal_of (datum_of value.now)) }
{
    match value {
        Value::Char(code) => i64::from(*code),
        Value::Enum(number) => i64::from(*number),
        _ => 0,
    }
}

/// The place from 0 of the part at an index, in an array with so many parts from a low bound on.
///
/// # Errors
/// `IndexOutside` where the index is below the low bound, or not below the low bound and the length.
pub fn place_in(length: u32, low: i64, index: i64) -> Result<u32, FaultKind>
    ensures { result ≡ place_of length low index }
{
    match index.checked_sub(low) {
        Some(behind) if behind >= 0 && behind < i64::from(length) => Ok(behind as u32),
        _ => Err(FaultKind::IndexOutside),
    }
}
