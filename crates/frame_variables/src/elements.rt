//! The elements of sets and bags, looked for one after the other.

ghost use Rattle.std.specs.Prelude.{◌≡◌, ◌≢◌, ◌≤◌, OnOk, length, map, not, position};
ghost use Rattle.std.specs.Ordering.{is_eq, is_lt};
ghost use Rattle.value_core.specs.Datum.{data_of, list_of};
ghost use Rattle.value_core.specs.Order.{datum_cmp};
ghost use Rattle.value_core.specs.View.{datum_of};
ghost use Rattle.value_ops.specs.Elements as rules;
ghost use Rattle.value_ops.specs.Elements.{elements, put_in, with_once, without};

use orca_base::NoMemory;
use std::alloc::Global;
use value_core::{Parts, Value};

// The elements of a set or bag; other values have none.
fn elements_of(value: &Value) -> &[Value]
    ensures { map datum_of result.now ≡ elements (datum_of value.now) }
{
    match value {
        Value::Set(parts) | Value::Bag(parts) => parts.as_parts().as_slice(),
        _ => &[],
    }
}

/// How many elements a set or bag has; other values have none.
pub fn count(all: &Value) -> usize
    ensures { result ≡ length (elements (datum_of all.now)) }
{
    elements_of(all).len()
}

/// So much, where a set or bag has more or fewer elements than it had, and else nothing.
pub fn moved(size: u32, before: usize, all: &Value) -> u32
    ensures moved { length (elements (datum_of all.now)) ≢ before → result ≡ size }
    ensures stayed { length (elements (datum_of all.now)) ≡ before → result ≡ 0 }
    ensures most { result ≤ size }
{
    if count(all) == before { 0 } else { size }
}

// Whether values have this one.
fn has(values: &[Value], element: &Value) -> bool
    ensures { result ≡ rules.has (datum_of element.now) (map datum_of values.now) }
{
    'values: for value in values {
        if value.compare(element).is_eq() {
            return true;
        }
    }
    false
}

/// Whether a set or bag has this element: `in`. Other values have none. It compares one element after the other.
pub(crate) fn is_in(element: &Value, all: &Value) -> bool
    ensures { result ≡ rules.has (datum_of element.now) (elements (datum_of all.now)) }
{
    has(elements_of(all), element)
}

// The place of the first value that isn't below this one.
fn place_for(values: &[Value], element: &Value) -> Option<usize>
    ensures { result ≡ position (λ v. not (is_lt (datum_cmp (datum_of v) (datum_of element.now)))) values.now }
{
    values
        .iter()
        .position(|value| !value.compare(element).is_lt())
}

// The place of the first value that is this one.
fn place_of(values: &[Value], element: &Value) -> Option<usize>
    ensures { result ≡ position (λ v. is_eq (datum_cmp (datum_of v) (datum_of element.now))) values.now }
{
    values
        .iter()
        .position(|value| value.compare(element).is_eq())
}

// Adds an element.
fn insert_again(all: &mut Parts, element: Value) -> Result<(), NoMemory>
    ensures { OnOk result (all.new ≡ data_of (put_in (datum_of element) (list_of all.old))) }
{
    let place = place_for(all.as_slice(), &element).unwrap_or(all.len());
    all.insert(place, element)
}

// Adds an element, unless it is there.
fn insert_once(all: &mut Parts, element: Value) -> Result<(), NoMemory>
    ensures { OnOk result (all.new ≡ with_once (datum_of element) all.old) }
{
    if has(all.as_slice(), &element) {
        return Ok(());
    }
    insert_again(all, element)
}

/// Adds an element to a set that doesn't have it, or to a bag.
///
/// # Errors
/// Want of memory.
pub fn insert(alloc: Global, all: &mut Value, element: Value) -> Result<(), NoMemory>
    ensures { OnOk result (datum_of all.new ≡ rules.inserted (datum_of element) (datum_of all.old)) }
{
    match all {
        Value::Set(parts) => insert_once(parts.as_parts_mut(alloc)?, element),
        Value::Bag(parts) => insert_again(parts.as_parts_mut(alloc)?, element),
        _ => Ok(()),
    }
}

// Takes out the first value that is this one.
fn delete_once(all: &mut Parts, element: &Value)
    ensures { all.new ≡ data_of (without (datum_of element.now) (list_of all.old)) }
{
    match place_of(all.as_slice(), element) {
        Some(place) => {
            all.remove(place);
        }
        None => {}
    }
}

/// Takes one equal element out of a set or bag, where there is one.
///
/// # Errors
/// Want of memory.
pub fn delete(alloc: Global, all: &mut Value, element: &Value) -> Result<(), NoMemory>
    ensures { OnOk result (datum_of all.new ≡ rules.deleted (datum_of element.now) (datum_of all.old)) }
{
    match all {
        Value::Set(parts) => delete_once(parts.as_parts_mut(alloc)?, element),
        Value::Bag(parts) => delete_once(parts.as_parts_mut(alloc)?, element),
        _ => {}
    }
    Ok(())
}
