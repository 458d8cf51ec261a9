//! Nodes, found by their names: by halving where values are known to rise, and else one after the other.

ghost use Rattle.std.specs.Prelude.{◌≡◌, ◌≢◌, ◌≤◌, IsTrue, length, map, pos, position};
ghost use Rattle.std.specs.List.Sorted.{IsStrictlySortedBy};
ghost use Rattle.value_core.specs.Order.{datum_cmp};
ghost use Rattle.value_core.specs.View.{datum_of};
ghost use Rattle.graph_values.specs.Graphs.{is_named, name_in};
ghost use Rattle.frame_variables.specs.Naming.{AreBefore, Precedes, is_before};

use value_core::Value;

/// The name of a node, or the next name of a graph; 0 of any other value.
pub fn name_of(value: &Value) -> i64
    ensures { result ≡ name_in (datum_of value.now) }
{
    match value {
        Value::Fields(fields) => match fields.as_parts().get(0) {
            Some(Value::Int(name)) => *name,
            _ => 0,
        },
        _ => 0,
    }
}

/// Whether a value has this name.
pub fn is_named(name: i64, value: &Value) -> bool
    ensures { result ≡ is_named name (datum_of value.now) }
{
    name_of(value) == name
}

// Whether a value is below the fields of a name alone. Where values rise, the nodes of that name stand from the first on that isn't.
fn is_before(name: i64, value: &Value) -> bool
    ensures { result ≡ is_before name (datum_of value.now) }
{
    match value {
        Value::Fields(fields) => match fields.as_parts().get(0) {
            Some(Value::Int(first)) => *first < name,
            Some(_) => false,
            None => true,
        },
        Value::Set(_) | Value::Bag(_) | Value::Object(_) => false,
        _ => true,
    }
}

/// Whether values that rise are below the fields of a name alone. It looks at the last.
pub fn are_before(name: i64, values: &[Value]) -> bool
    requires { IsStrictlySortedBy datum_cmp (map datum_of values.now) }
    ensures { IsTrue result → AreBefore name (map datum_of values.now) }
{
    match values.last() {
        Some(last) => is_before(name, last),
        None => true,
    }
}

// How many values are below the fields of a name alone, of values that rise. It looks at some log2 of them.
fn count_before(values: &[Value], name: i64) -> usize
    requires { IsStrictlySortedBy datum_cmp (map datum_of values.now) }
    ensures within { result ≤ length values.now }
    ensures parted { Precedes name values.now result }
{
    values.partition_point(|value| is_before(name, value))
}

// The place of the first node with this name, of values that rise. What is no node has the name 0, wherever it stands.
fn place_by_halving(values: &[Value], name: i64) -> Option<usize>
    requires named { name ≢ pos 0 }
    requires rising { IsStrictlySortedBy datum_cmp (map datum_of values.now) }
    ensures { result ≡ position (λ v. is_named name (datum_of v)) values.now }
{
    let place = count_before(values, name);
    match values.get(place) {
        Some(value) => {
            if is_named(name, value) {
                Some(place)
            } else {
                None
            }
        }
        None => None,
    }
}

/// The place of the first node with this name. It looks at some log2 of the values where they are known to rise, and else at one
/// after the other.
pub fn place_of(values: &[Value], name: i64, rising: bool) -> Option<usize>
    requires { IsTrue rising → IsStrictlySortedBy datum_cmp (map datum_of values.now) }
    ensures { result ≡ position (λ v. is_named name (datum_of v)) values.now }
{
    if rising && name != 0 {
        place_by_halving(values, name)
    } else {
        values.iter().position(|value| is_named(name, value))
    }
}
