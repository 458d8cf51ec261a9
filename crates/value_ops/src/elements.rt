//! The elements of sets and bags.

ghost use Rattle.std.specs.Prelude.{◌≡◌, ◌↔◌, ◌≤◌, length, map, IsTrue, OnErr, OnOk, Ok, Err};
ghost use Rattle.orca_base.specs.Refusal.{MatchRefusal};
ghost use Rattle.std.specs.List.{Contains};
ghost use Rattle.std.specs.List.Sorted.{IsSorted, IsStrictlySortedBy};
ghost use Rattle.value_core.specs.Datum.{data_of, list_of};
ghost use Rattle.value_core.specs.Order.{datum_cmp};
ghost use Rattle.value_core.specs.View.{datum_of};
ghost use Rattle.value_ops.specs.Elements.{IsInOrder, deleted, elements, first_of, has, inserted, least_of, put_in, rest_of, with_once, without, without_least};
ghost use Rattle.value_ops.specs.Spots.{IsSpot, Parted};

use orca_base::{FaultKind, NoMemory, Refusal};
use std::alloc::Global;
use value_core::{Parts, Value};

// Where an element stands among others in order or would stand, and whether it stands there.
#[derive(Clone, Copy)]
struct Spot {
    place: usize,
    is_there: bool,
}

// How many values are below this one, of values that never fall. It compares some log2 of them.
fn place_of(values: &[Value], element: &Value) -> usize
    requires { IsSorted datum_cmp (map datum_of values.now) }
    ensures within { result ≤ length values.now }
    ensures parted { Parted (datum_of element.now) values.now result }
{
    values.partition_point(|value| value.compare(element).is_lt())
}

// Where an element stands among values that never fall.
fn spot_of(values: &[Value], element: &Value) -> Spot
    requires { IsSorted datum_cmp (map datum_of values.now) }
    ensures { IsSpot (datum_of element.now) (map datum_of values.now) result.place result.is_there }
{
    let place = place_of(values, element);
    let is_there = match values.get(place) {
        Some(value) => value.compare(element).is_eq(),
        None => false,
    };
    Spot { place, is_there }
}

/// Whether a list whose values never fall has this one: `in`. It compares some log2 of them.
pub fn contains(all: &Parts, element: &Value) -> bool
    requires { IsSorted datum_cmp (list_of all.now) }
    ensures is { result ≡ has (datum_of element.now) (list_of all.now) }
    ensures there { IsTrue result ↔ Contains (list_of all.now) (datum_of element.now) }
{
    spot_of(all.as_slice(), element).is_there
}

/// Whether a set or bag has this element: `in`. It compares some log2 of the elements. Other values have none.
#[tactic(auto, using(crate::proofs::Orders::rising_sorted))]
pub fn is_in(element: &Value, all: &Value) -> bool
    requires { IsInOrder (datum_of all.now) }
    ensures { result ≡ has (datum_of element.now) (elements (datum_of all.now)) }
{
    match all {
        Value::Set(parts) => contains(parts.as_parts(), element),
        Value::Bag(parts) => contains(parts.as_parts(), element),
        _ => false,
    }
}

// Adds an element to values that never fall.
fn insert_again(all: &mut Parts, element: Value) -> Result<(), NoMemory>
    requires { IsSorted datum_cmp (list_of all.old) }
    ensures ok { OnOk result (all.new ≡ data_of (put_in (datum_of element) (list_of all.old))) }
    ensures err { OnErr result (all.new ≡ all.old) }
    ensures sorted { IsSorted datum_cmp (list_of all.new) }
{
    let spot = spot_of(all.as_slice(), &element);
    all.insert(spot.place, element)
}

// Adds an element to values that never fall, unless it is there.
fn insert_once(all: &mut Parts, element: Value) -> Result<(), NoMemory>
    requires { IsSorted datum_cmp (list_of all.old) }
    ensures ok { OnOk result (all.new ≡ with_once (datum_of element) all.old) }
    ensures err { OnErr result (all.new ≡ all.old) }
    ensures rises { IsStrictlySortedBy datum_cmp (list_of all.old) → IsStrictlySortedBy datum_cmp (list_of all.new) }
{
    let spot = spot_of(all.as_slice(), &element);
    if spot.is_there {
        return Ok(());
    }
    all.insert(spot.place, element)
}

// Takes out the first value that is this one, of values that never fall.
fn delete_once(all: &mut Parts, element: &Value)
    requires { IsSorted datum_cmp (list_of all.old) }
    ensures left { all.new ≡ data_of (without (datum_of element.now) (list_of all.old)) }
    ensures sorted { IsSorted datum_cmp (list_of all.new) }
    ensures rises { IsStrictlySortedBy datum_cmp (list_of all.old) → IsStrictlySortedBy datum_cmp (list_of all.new) }
{
    let spot = spot_of(all.as_slice(), element);
    if spot.is_there {
        all.remove(spot.place);
    }
}

// Takes out the first value.
fn take_first(all: &mut Parts) -> Result<Value, Refusal<FaultKind>>
    ensures taken { MatchRefusal result (λ v. first_of (list_of all.old) ≡ Ok (datum_of v)) (λ f. first_of (list_of all.old) ≡ Err f) }
    ensures rest { OnOk result (all.new ≡ rest_of all.old) }
    ensures err { OnErr result (all.new ≡ all.old) }
    ensures sorted { IsSorted datum_cmp (list_of all.old) → IsSorted datum_cmp (list_of all.new) }
    ensures rises { IsStrictlySortedBy datum_cmp (list_of all.old) → IsStrictlySortedBy datum_cmp (list_of all.new) }
{
    if all.is_empty() {
        return Err(Refusal::Because {
            cause: FaultKind::FromEmpty,
        });
    }
    Ok(all.remove(0))
}

/// Adds an element to a set that doesn't have it, or to a bag. It compares some log2 of the elements, and moves those behind it.
///
/// # Errors
/// Want of memory; then nothing has changed.
#[tactic(auto, using(crate::proofs::Orders::rising_sorted))]
pub fn insert(alloc: Global, all: &mut Value, element: Value) -> Result<(), NoMemory>
    requires { IsInOrder (datum_of all.old) }
    ensures ok { OnOk result (datum_of all.new ≡ inserted (datum_of element) (datum_of all.old)) }
    ensures err { OnErr result (all.new ≡ all.old) }
    ensures in_order { IsInOrder (datum_of all.new) }
{
    match all {
        Value::Set(parts) => insert_once(parts.as_parts_mut(alloc)?, element),
        Value::Bag(parts) => insert_again(parts.as_parts_mut(alloc)?, element),
        _ => Ok(()),
    }
}

/// Takes one equal element out of a set or bag, where there is one. It compares some log2 of the elements, and moves those
/// behind it.
///
/// # Errors
/// Want of memory; then nothing has changed.
#[tactic(auto, using(crate::proofs::Orders::rising_sorted))]
pub fn delete(alloc: Global, all: &mut Value, element: &Value) -> Result<(), NoMemory>
    requires { IsInOrder (datum_of all.old) }
    ensures left { OnOk result (datum_of all.new ≡ deleted (datum_of element.now) (datum_of all.old)) }
    ensures err { OnErr result (all.new ≡ all.old) }
    ensures in_order { IsInOrder (datum_of all.new) }
{
    match all {
        Value::Set(parts) => delete_once(parts.as_parts_mut(alloc)?, element),
        Value::Bag(parts) => delete_once(parts.as_parts_mut(alloc)?, element),
        _ => {}
    }
    Ok(())
}

/// Takes the least element out of a set or bag: `from`. It moves the others.
///
/// # Errors
/// `FromEmpty` where there is none, and want of memory; then nothing has changed.
pub fn take_least(alloc: Global, all: &mut Value) -> Result<Value, Refusal<FaultKind>>
    ensures taken { MatchRefusal result (λ v. least_of (datum_of all.old) ≡ Ok (datum_of v))
        (λ f. least_of (datum_of all.old) ≡ Err f) }
    ensures rest { OnOk result (datum_of all.new ≡ without_least (datum_of all.old)) }
    ensures err { OnErr result (all.new ≡ all.old) }
    ensures in_order { IsInOrder (datum_of all.old) → IsInOrder (datum_of all.new) }
{
    match all {
        Value::Set(parts) => take_first(parts.as_parts_mut(alloc)?),
        Value::Bag(parts) => take_first(parts.as_parts_mut(alloc)?),
        _ => Err(Refusal::Because {
            cause: FaultKind::FromEmpty,
        }),
    }
}
