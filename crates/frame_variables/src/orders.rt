//! Whether values are in order at whatever depth, so that elements and nodes can be found by halving.

ghost use Rattle.std.specs.Prelude.{◌≡◌, IsTrue, false, map, true};
ghost use Rattle.std.specs.List.Sorted.{IsSorted, IsStrictlySortedBy};
ghost use Rattle.std.specs.Ordering.{is_lt};
ghost use Rattle.value_core.specs.Datum.{list_of};
ghost use Rattle.value_core.specs.Order.{datum_cmp};
ghost use Rattle.value_core.specs.OrderLaws.{parts_in};
ghost use Rattle.value_core.specs.View.{datum_of};
ghost use Rattle.value_ops.specs.Elements.{IsInOrder};
ghost use Rattle.frame_variables.specs.Ordered.{AllOrdered, Follow, IsOrdered};

use orca_base::VALUE_NESTING;
use value_core::Value;

// Whether each of these values is above the one before it, and the first above this one.
fn rise_from(first: &Value, values: &[Value]) -> bool
    ensures { IsTrue result → Follow (λ x y. is_lt (datum_cmp x y) ≡ true) (datum_of first.now) (map datum_of values.now) }
{
    let mut last = first;
    'values: for value in values {
        if !last.compare(value).is_lt() {
            return false;
        }
        last = value;
    }
    true
}

// Whether each of these values is not below the one before it, and the first not below this one.
fn follow_from(first: &Value, values: &[Value]) -> bool
    ensures { IsTrue result → Follow (λ x y. is_lt (datum_cmp y x) ≡ false) (datum_of first.now) (map datum_of values.now) }
{
    let mut last = first;
    'values: for value in values {
        if value.compare(last).is_lt() {
            return false;
        }
        last = value;
    }
    true
}

// Whether values rise, as those of a set.
fn rise(values: &[Value]) -> bool
    ensures { IsTrue result → IsStrictlySortedBy datum_cmp (map datum_of values.now) }
{
    match values.split_first() {
        None => true,
        Some((first, rest)) => rise_from(first, rest),
    }
}

// Whether values never fall, as those of a bag.
fn follow(values: &[Value]) -> bool
    ensures { IsTrue result → IsSorted datum_cmp (map datum_of values.now) }
{
    match values.split_first() {
        None => true,
        Some((first, rest)) => follow_from(first, rest),
    }
}

// Whether the elements of a set rise, and those of a bag never fall.
fn is_in_order(value: &Value) -> bool
    ensures { IsTrue result → IsInOrder (datum_of value.now) }
{
    match value {
        Value::Set(parts) => rise(parts.as_parts().as_slice()),
        Value::Bag(parts) => follow(parts.as_parts().as_slice()),
        _ => true,
    }
}

// The parts of a value; others have none.
fn parts_of(value: &Value) -> &[Value]
    ensures { map datum_of result.now ≡ list_of (parts_in (datum_of value.now)) }
{
    match value {
        Value::Array(parts) | Value::Fields(parts) | Value::Set(parts) | Value::Bag(parts) => {
            parts.as_parts().as_slice()
        }
        _ => &[],
    }
}

// Whether a value is in order, and nests no deeper than so many levels.
#[cycle(orders)]
fn is_ordered_within(value: &Value, levels: u32) -> bool
    ensures { IsTrue result → IsOrdered (datum_of value.now) }
{
    if levels == 0 {
        return false;
    }
    if is_in_order(value) {
        are_ordered_within(parts_of(value), levels - 1)
    } else {
        false
    }
}

// Whether values are in order, and nest no deeper than so many levels.
#[cycle(orders)]
fn are_ordered_within(values: &[Value], levels: u32) -> bool
    ensures { IsTrue result → AllOrdered (map datum_of values.now) }
{
    'values: for value in values {
        if !is_ordered_within(value, levels) {
            return false;
        }
    }
    true
}

/// Whether a value is in order, and nests no deeper than values may. It compares each element with the next.
pub fn is_ordered(value: &Value) -> bool
    ensures { IsTrue result → IsOrdered (datum_of value.now) }
{
    is_ordered_within(value, VALUE_NESTING)
}

/// Whether values are in order, and nest no deeper than values may.
pub fn are_ordered(values: &[Value]) -> bool
    ensures { IsTrue result → AllOrdered (map datum_of values.now) }
{
    are_ordered_within(values, VALUE_NESTING)
}
