//! Where nodes stand among the nodes of a graph, and parts among those of an array.

ghost use Rattle.std.specs.Prelude.{◌≡◌, ◌≤◌, None, MatchOption, length, map};
ghost use Rattle.std.specs.List.Sorted.{IsStrictlySortedBy};
ghost use Rattle.std.specs.Ordering.{int_cmp};
ghost use Rattle.value_core.specs.View.{datum_of};
ghost use Rattle.value_ops.specs.Sizes.{place_of};
ghost use Rattle.graph_values.specs.Graphs.{AreNamed, name_in, value_at};
ghost use Rattle.graph_values.specs.Places.{Parted, StandsAt};

use orca_base::FaultKind;
use value_core::Value;

// The name of a node, or the next name of a graph.
pub(crate) fn name_of(value: &Value) -> i64
    ensures { result ≡ name_in (datum_of value.now) }
{
    match value {
        Value::Fields(fields) => match fields.as_parts().get(0) {
            Some(Value::Int(name)) => *name,
            _ => 0,
        },
        _ => 0,
    }
}

// How many nodes have names below this one, of nodes whose names rise. It compares some log2 of them.
fn nodes_before(nodes: &[Value], name: i64) -> usize
    requires { IsStrictlySortedBy int_cmp (map name_in (map datum_of nodes.now)) }
    ensures within { result ≤ length nodes.now }
    ensures parted { Parted name nodes.now result }
{
    nodes.partition_point(|node| name_of(node) < name)
}

// Where the node with this name stands, of nodes whose names rise.
pub(crate) fn node_place(nodes: &[Value], name: i64) -> Option<usize>
    requires { AreNamed (map datum_of nodes.now) }
    ensures { MatchOption result (value_at name (map datum_of nodes.now) ≡ None) (StandsAt name (map datum_of nodes.now)) }
{
    let place = nodes_before(nodes, name);
    match nodes.get(place) {
        Some(node) => {
            if name_of(node) == name {
                Some(place)
            } else {
                None
            }
        }
        None => None,
    }
}

// The place from 0 of the part at an index, in an array with so many parts from a low bound on.
pub(crate) fn part_place(count: usize, low: i64, index: i64) -> Result<usize, FaultKind>
    ensures { result ≡ place_of count low index }
{
    if index < low {
        return Err(FaultKind::IndexOutside);
    }
    let place = index.abs_diff(low);
    if place < count as u64 {
        Ok(place as usize)
    } else {
        Err(FaultKind::IndexOutside)
    }
}
