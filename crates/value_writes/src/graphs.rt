//! Calls on graphs.

ghost use Rattle.std.specs.Prelude.{◌≡◌, ◌++◌, ◌∷◌, [], IfOk, OnErr, OnOk, Ok, Err};
ghost use Rattle.value_core.specs.Datum as datum;
ghost use Rattle.value_core.specs.Datum.{list_of};
ghost use Rattle.value_core.specs.View.{datum_of};
ghost use Rattle.graph_values.specs.Graphs.{AreNamed, HasForm, IsGraph, added, assigned, deleted, graph_of, node_of, nodes_in};
ghost use Rattle.value_writes.specs.Changes.{IfFault, nodes_assigned, nodes_deleted};

use crate::error::{GraphError, fail};
use crate::finding::{name_of, node_place};
use graph_values::graphs_law;
use orca_base::{FaultKind, NoMemory};
use std::alloc::Global;
use value_core::{BoxedParts, Parts, Value};

// A node with this name and value.
fn node_with(alloc: Global, name: i64, value: Value) -> Result<Value, NoMemory>
    ensures { IfOk result (λ v. datum_of v ≡ node_of name (datum_of value)) }
{
    let mut fields = Parts::new(alloc);
    fields.push(Value::Int(name))?;
    fields.push(value)?;
    Ok(Value::Fields(BoxedParts::new(alloc, fields)?))
}

// Puts a node behind the nodes of a graph, of which these are the fields, and gives the graph this next name.
fn push_node(alloc: Global, fields: &mut Parts, node: Value, next: i64) -> Result<(), NoMemory>
    requires { HasForm (datum.fields fields.old) }
    ensures ok { OnOk result (datum.fields fields.new ≡ graph_of next (nodes_in (datum.fields fields.old) ++ datum_of node ∷ [])) }
    ensures err { OnErr result (fields.new ≡ fields.old) }
{
    match fields.part_mut(1) {
        Value::Set(nodes) => nodes.as_parts_mut(alloc)?.push(node)?,
        _ => unreachable!(),
    }
    fields.set(0, Value::Int(next));
    Ok(())
}

/// Adds a node with this value to a graph, and gives its name: `addnode` (docs/LANGUAGE.md, Graphs).
///
/// # Errors
/// `Overflow` where the next name is 9223372036854775807, and want of memory; then nothing has changed.
pub fn add_node(alloc: Global, graph: &mut Value, fresh: Value) -> Result<i64, GraphError>
    requires { IsGraph (datum_of graph.old) }
    ensures ok { IfOk result (λ name. added (datum_of fresh) (datum_of graph.old) ≡ Ok (name, datum_of graph.new)) }
    ensures fault { IfFault result (λ fault. added (datum_of fresh) (datum_of graph.old) ≡ Err fault) }
    ensures err { OnErr result (graph.new ≡ graph.old) }
    ensures graph { IsGraph (datum_of graph.new) }
{
    graphs_law();
    let name = name_of(graph);
    if name == i64::MAX {
        return fail(FaultKind::Overflow);
    }
    let node = node_with(alloc, name, fresh)?;
    match graph {
        Value::Fields(fields) => push_node(alloc, fields.as_parts_mut(alloc)?, node, name + 1)?,
        _ => unreachable!(),
    }
    Ok(name)
}

// Takes the node with this name out of the nodes of a graph.
fn drop_node(nodes: &mut Parts, name: i64) -> Result<(), GraphError>
    requires { AreNamed (list_of nodes.old) }
    ensures ok { OnOk result (nodes_deleted name (list_of nodes.old) ≡ Ok (list_of nodes.new)) }
    ensures fault { IfFault result (λ fault. nodes_deleted name (list_of nodes.old) ≡ Err fault) }
    ensures err { OnErr result (nodes.new ≡ nodes.old) }
{
    match node_place(nodes.as_slice(), name) {
        Some(place) => {
            nodes.remove(place);
            Ok(())
        }
        None => fail(FaultKind::IndexOutside),
    }
}

/// Takes the node with this name out of a graph: `deletenode` (docs/LANGUAGE.md, Graphs). It compares some log2 of the names, and
/// moves the nodes behind.
///
/// # Errors
/// `IndexOutside` where the graph has no node of this name, and want of memory; then nothing has changed.
pub fn delete_node(alloc: Global, graph: &mut Value, name: i64) -> Result<(), GraphError>
    requires { IsGraph (datum_of graph.old) }
    ensures ok { OnOk result (deleted name (datum_of graph.old) ≡ Ok (datum_of graph.new)) }
    ensures fault { IfFault result (λ fault. deleted name (datum_of graph.old) ≡ Err fault) }
    ensures err { OnErr result (graph.new ≡ graph.old) }
    ensures graph { IsGraph (datum_of graph.new) }
{
    graphs_law();
    match graph {
        Value::Fields(fields) => match fields.as_parts_mut(alloc)?.part_mut(1) {
            Value::Set(nodes) => drop_node(nodes.as_parts_mut(alloc)?, name),
            _ => unreachable!(),
        },
        _ => unreachable!(),
    }
}

// Gives the node with this name, among the nodes of a graph, a value.
fn assign(alloc: Global, nodes: &mut Parts, name: i64, value: Value) -> Result<(), GraphError>
    requires { AreNamed (list_of nodes.old) }
    ensures ok { OnOk result (nodes_assigned name (datum_of value) (list_of nodes.old) ≡ Ok (list_of nodes.new)) }
    ensures fault { IfFault result (λ fault. nodes_assigned name (datum_of value) (list_of nodes.old) ≡ Err fault) }
    ensures err { OnErr result (nodes.new ≡ nodes.old) }
{
    let Some(place) = node_place(nodes.as_slice(), name) else {
        return fail(FaultKind::IndexOutside);
    };
    match nodes.part_mut(place) {
        Value::Fields(node) => node.as_parts_mut(alloc)?.set(1, value),
        _ => unreachable!(),
    }
    Ok(())
}

/// Gives the node with this name a value: an assignment to `g[n]` (docs/LANGUAGE.md, Graphs). It compares some log2 of the names.
///
/// # Errors
/// `IndexOutside` where the graph has no node of this name, and want of memory; then nothing has changed.
pub fn set_node(alloc: Global, graph: &mut Value, name: i64, value: Value) -> Result<(), GraphError>
    requires { IsGraph (datum_of graph.old) }
    ensures ok { OnOk result (assigned name (datum_of value) (datum_of graph.old) ≡ Ok (datum_of graph.new)) }
    ensures fault { IfFault result (λ fault. assigned name (datum_of value) (datum_of graph.old) ≡ Err fault) }
    ensures err { OnErr result (graph.new ≡ graph.old) }
    ensures graph { IsGraph (datum_of graph.new) }
{
    graphs_law();
    match graph {
        Value::Fields(fields) => match fields.as_parts_mut(alloc)?.part_mut(1) {
            Value::Set(nodes) => assign(alloc, nodes.as_parts_mut(alloc)?, name, value),
            _ => unreachable!(),
        },
        _ => unreachable!(),
    }
}
