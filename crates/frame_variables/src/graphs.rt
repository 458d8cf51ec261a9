//! Graphs, taken apart and put together again.

ghost use Rattle.std.specs.Int.{w64};
ghost use Rattle.std.specs.Prelude.{◌≡◌, ◌≤◌, ◌+◌, FitsSigned, IfOk, IsTrue, Some, map, pos, slice_get, unwrap_or};
ghost use Rattle.std.specs.List.Sorted.{IsStrictlySortedBy};
ghost use Rattle.value_core.specs.Datum as datum;
ghost use Rattle.value_core.specs.Datum.{data_of, list_of};
ghost use Rattle.value_core.specs.Order.{datum_cmp};
ghost use Rattle.value_core.specs.Size.{size_of, size_of_all};
ghost use Rattle.value_core.specs.View.{datum_of};
ghost use Rattle.graph_values.specs.Graphs as rules;
ghost use Rattle.graph_values.specs.Graphs.{graph_of, name_in, node_of, nodes_in, value_in};
ghost use Rattle.meaning_rules.specs.States.{State, gives};
ghost use Rattle.frame_variables.specs.Gives.{Gives};
ghost use Rattle.frame_variables.specs.Naming.{AreBefore};
ghost use Rattle.frame_variables.specs.Ordered.{IsOrdered};

use crate::nodes::{are_before, name_of, place_of};
use crate::orders::is_ordered;
use crate::stop::Stop;
use orca_base::{FaultKind, NoMemory};
use std::alloc::Global;
use value_core::{BoxedParts, Parts, Value};

/// A graph's next name and its nodes, or what the definitions take for these of any other value.
#[derive(Drop)]
pub struct Graph {
    pub next: i64,
    pub nodes: Parts,
}

/// The nodes of a graph; of any other value none.
pub fn nodes_of(value: &Value) -> &[Value]
    ensures { map datum_of result.now ≡ nodes_in (datum_of value.now) }
{
    match value {
        Value::Fields(fields) => match fields.as_parts().get(1) {
            Some(Value::Set(nodes)) => nodes.as_parts().as_slice(),
            _ => &[],
        },
        _ => &[],
    }
}

// The fields of a record; of any other value none.
fn fields_in(alloc: Global, value: Value) -> Result<Parts, NoMemory>
    ensures { IfOk result (λ fields. list_of fields ≡ rules.fields_in (datum_of value)) }
{
    if !matches!(&value, Value::Fields(_)) {
        return Ok(Parts::new(alloc));
    }
    value.into_parts(alloc)
}

// The part at a place from 0, taken out, and 0 where there is none.
fn taken(parts: Parts, place: usize) -> Value
    ensures { datum_of result ≡ unwrap_or (slice_get (list_of parts) place) (datum.int (pos 0)) }
{
    let mut parts = parts;
    if place < parts.len() {
        parts.remove(place)
    } else {
        Value::Int(0)
    }
}

// The elements of a set; of any other value none.
fn set_in(alloc: Global, value: Value) -> Result<Parts, NoMemory>
    ensures { IfOk result (λ nodes. list_of nodes ≡ rules.nodes_of (Some (datum_of value))) }
{
    if !matches!(&value, Value::Set(_)) {
        return Ok(Parts::new(alloc));
    }
    value.into_parts(alloc)
}

impl Graph {
    /// A graph, taken apart.
    ///
    /// # Errors
    /// Want of memory.
    pub fn of(alloc: Global, value: Value) -> Result<Graph, NoMemory>
        ensures next { IfOk result (λ graph. graph.next ≡ name_in (datum_of value)) }
        ensures nodes { IfOk result (λ graph. list_of graph.nodes ≡ nodes_in (datum_of value)) }
    {
        let next = name_of(&value);
        let second = taken(fields_in(alloc, value)?, 1);
        let nodes = set_in(alloc, second)?;
        Ok(Graph { next, nodes })
    }

    /// The graph, put together.
    ///
    /// # Errors
    /// Want of memory.
    #[tactic(auto, using(crate::proofs::Pairing::whole_data))]
    pub fn value(self, alloc: Global) -> Result<Value, NoMemory>
        ensures { IfOk result (λ v. datum_of v ≡ graph_of self.next (list_of self.nodes)) }
    {
        let nodes = BoxedParts::new(alloc, self.nodes)?;
        pair_of(alloc, self.next, Value::Set(nodes))
    }
}

// A record of an integer and a value.
fn pair_of(alloc: Global, first: i64, second: Value) -> Result<Value, NoMemory>
    ensures { IfOk result (λ v. datum_of v ≡ node_of first (datum_of second)) }
{
    let mut fields = Parts::new(alloc);
    fields.push(Value::Int(first))?;
    fields.push(second)?;
    Ok(Value::Fields(BoxedParts::new(alloc, fields)?))
}

/// A node of this name and value.
///
/// # Errors
/// Want of memory.
pub fn node(alloc: Global, name: i64, value: Value) -> Result<Value, NoMemory>
    ensures { IfOk result (λ v. datum_of v ≡ node_of name (datum_of value)) }
{
    pair_of(alloc, name, value)
}

/// The value of a node, taken out of it, and 0 of what has none.
///
/// # Errors
/// Want of memory.
pub fn value_of(alloc: Global, node: Value) -> Result<Value, NoMemory>
    ensures { IfOk result (λ v. datum_of v ≡ value_in (datum_of node)) }
{
    Ok(taken(fields_in(alloc, node)?, 1))
}

/// What a node adds to the size of a graph beside its value: 2, and at most 4 where there was none, since what isn't a graph is taken
/// for one.
pub fn beside_node(graph: &Value) -> u32
    ensures grows { size_of_all (data_of (nodes_in (datum_of graph.now))) + 5 ≤ size_of (datum_of graph.now) + result }
    ensures few { result ≤ 4 }
{
    if nodes_of(graph).is_empty() { 4 } else { 2 }
}

// Whether nodes that are known to rise, or not, do so with a node of this name and value behind them, whose value is in order.
fn may_follow(fresh: &Value, name: i64, nodes: &[Value], rising: bool) -> bool
    requires { IsTrue rising → IsStrictlySortedBy datum_cmp (map datum_of nodes.now) }
    ensures rising { IsTrue result → IsTrue rising }
    ensures before { IsTrue result → AreBefore name (map datum_of nodes.now) }
    ensures value { IsTrue result → IsOrdered (datum_of fresh.now) }
{
    if !rising {
        return false;
    }
    if are_before(name, nodes) {
        is_ordered(fresh)
    } else {
        false
    }
}

/// A graph with one node more, the node's name, and whether the graph is known to be in order: `addnode`.
///
/// # Errors
/// `Overflow` where the graph has given its last name, and want of memory.
pub fn added(
    alloc: Global,
    fresh: Value,
    value: Value,
    in_order: bool,
) -> Result<(i64, Value, bool), Stop>
    requires { IsTrue in_order → IsOrdered (datum_of value) }
    ensures given { (s : State) → Gives (λ p. (p.0, datum_of p.1)) result s (gives (rules.added (datum_of fresh) (datum_of value)) s) }
    ensures range { IfOk result (λ p. FitsSigned w64 p.0) }
    ensures ordered { IfOk result (λ p. IsTrue p.2 → IsOrdered (datum_of p.1)) }
{
    let mut graph = Graph::of(alloc, value)?;
    let name = graph.next;
    if name == i64::MAX {
        return Err(Stop::Faults {
            fault: FaultKind::Overflow,
        });
    }
    let stays = may_follow(&fresh, name, graph.nodes.as_slice(), in_order);
    graph.nodes.push(node(alloc, name, fresh)?)?;
    graph.next = name + 1;
    Ok((name, graph.value(alloc)?, stays))
}

/// A graph without the node of this name: `deletenode`.
///
/// # Errors
/// `IndexOutside` where it has none, and want of memory.
pub fn deleted(alloc: Global, name: i64, value: Value, in_order: bool) -> Result<Value, Stop>
    requires { IsTrue in_order → IsOrdered (datum_of value) }
    ensures ordered { IfOk result (λ v. IsTrue in_order → IsOrdered (datum_of v)) }
    ensures given { (s : State) → Gives datum_of result s (gives (rules.deleted name (datum_of value)) s) }
{
    let mut graph = Graph::of(alloc, value)?;
    match place_of(graph.nodes.as_slice(), name, in_order) {
        None => Err(Stop::Faults {
            fault: FaultKind::IndexOutside,
        }),
        Some(place) => {
            graph.nodes.remove(place);
            Ok(graph.value(alloc)?)
        }
    }
}
