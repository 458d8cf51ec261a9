//! Graphs.

ghost use Rattle.std.specs.Prelude.{◌≡◌, ◌≤◌, [], None, IfOk, MatchOption, length, map, option_map, slice_get};
ghost use Rattle.std.specs.List.Sorted.{IsStrictlySortedBy};
ghost use Rattle.std.specs.Option.{option_copied};
ghost use Rattle.std.specs.Ordering.{int_cmp};
ghost use Rattle.value_core.specs.Datum.{list_of};
ghost use Rattle.value_core.specs.View.{datum_of};
ghost use Rattle.graph_values.specs.Graphs.{AreNamed, IsGraph, empty_graph, fields_in, name_in, node_in, node_of, nodes_in, value_at};
ghost use Rattle.graph_values.specs.Places.{Parted, StandsAt};

use orca_base::NoMemory;
use std::alloc::Global;
use value_core::{BoxedParts, Parts, Value};

// A field of a record, if there is one.
fn field_of(value: &Value, index: usize) -> Option<&Value>
    ensures { option_map datum_of (option_copied result) ≡ slice_get (fields_in (datum_of value.now)) index }
{
    match value {
        Value::Fields(fields) => fields.as_parts().get(index),
        _ => None,
    }
}

// The name of a node, or the next name of a graph.
fn name_of(value: &Value) -> i64
    ensures { result ≡ name_in (datum_of value.now) }
{
    match field_of(value, 0) {
        Some(Value::Int(name)) => *name,
        _ => 0,
    }
}

// The nodes of a graph, if it is one.
fn nodes_of(graph: &Value) -> Option<&Parts>
    ensures { MatchOption result (nodes_in (datum_of graph.now) ≡ []) (λ nodes. list_of nodes.now ≡ nodes_in (datum_of graph.now)) }
{
    match field_of(graph, 1) {
        Some(Value::Set(nodes)) => Some(nodes.as_parts()),
        _ => None,
    }
}

// How many nodes have names below this one, of nodes whose names rise. It compares some log2 of them.
fn nodes_before(nodes: &[Value], name: i64) -> usize
    requires { IsStrictlySortedBy int_cmp (map name_in (map datum_of nodes.now)) }
    ensures within { result ≤ length nodes.now }
    ensures parted { Parted name nodes.now result }
{
    nodes.partition_point(|node| name_of(node) < name)
}

// Where the node with this name stands, of nodes whose names rise.
fn place_of(nodes: &[Value], name: i64) -> Option<usize>
    requires { AreNamed (map datum_of nodes.now) }
    ensures { MatchOption result (value_at name (map datum_of nodes.now) ≡ None) (StandsAt name (map datum_of nodes.now)) }
{
    let place = nodes_before(nodes, name);
    match nodes.get(place) {
        Some(node) => {
            if name_of(node) == name {
                Some(place)
            } else {
                None
            }
        }
        None => None,
    }
}

/// The value of a graph's node, if it has one of this name: `g[n]`. It compares some log2 of the names.
pub fn node(graph: &Value, name: i64) -> Option<&Value>
    requires { IsGraph (datum_of graph.now) }
    ensures { option_map datum_of (option_copied result) ≡ node_in name (datum_of graph.now) }
{
    let nodes = nodes_of(graph)?;
    let place = place_of(nodes.as_slice(), name)?;
    field_of(nodes.get(place)?, 1)
}

/// A graph that has given no name.
///
/// # Errors
/// Want of memory.
pub fn new_graph(alloc: Global) -> Result<Value, NoMemory>
    ensures empty { IfOk result (λ g. datum_of g ≡ empty_graph) }
    ensures graph { IfOk result (λ g. IsGraph (datum_of g)) }
{
    let nodes = BoxedParts::new(alloc, Parts::new(alloc))?;
    pair_of(alloc, 1, Value::Set(nodes))
}

// A record of an integer and a value.
fn pair_of(alloc: Global, first: i64, second: Value) -> Result<Value, NoMemory>
    ensures { IfOk result (λ v. datum_of v ≡ node_of first (datum_of second)) }
{
    let mut fields = Parts::new(alloc);
    fields.push(Value::Int(first))?;
    fields.push(second)?;
    Ok(Value::Fields(BoxedParts::new(alloc, fields)?))
}
