//! Parts that are put.

ghost use Rattle.std.specs.Prelude.{ℤ, ◌∷◌, IfOk, drop};
ghost use Rattle.value_core.specs.Datum as datum;
ghost use Rattle.value_core.specs.Datum.{list_of};
ghost use Rattle.value_core.specs.View.{datum_of};
ghost use Rattle.value_core.specs.declared.value.Value.TheVariants.{Array, Fields};
ghost use Rattle.graph_values.specs.Graphs.{AreNamed, value_at};
ghost use Rattle.value_paths.specs.declared.step.Step.TheVariants.{Index, Field, Node};
ghost use Rattle.value_paths.specs.Paths.{CanWalk, found};
ghost use Rattle.value_writes.specs.Puts.{Puts, graph_with};

use crate::finding::{node_place, part_place};
use orca_base::{FaultKind, Refusal, refuse};
use std::alloc::Global;
use std::mem;
use value_core::{Parts, Value};
use value_paths::Step;

// Puts a part into an array that has these parts, at the end of a path behind an index.
#[cycle(puts)]
fn put_in_array(
    alloc: Global,
    parts: &mut Parts,
    low: i64,
    index: i64,
    path: &[Step],
    from: usize,
    part: Value,
) -> Result<Value, Refusal<FaultKind>>
    requires { CanWalk (Index low index ∷ drop from path.now) (datum.array parts.old) }
    ensures { Puts (Index low index ∷ drop from path.now) (datum_of part) (Array parts.old) result (Array parts.new) }
{
    match part_place(parts.len(), low, index) {
        Ok(place) => put_from(alloc, parts.part_mut(place), path, from, part),
        Err(fault) => refuse(fault),
    }
}

// Puts a part into a record that has these fields, at the end of a path behind a field.
#[cycle(puts)]
fn put_in_record(
    alloc: Global,
    fields: &mut Parts,
    place: u16,
    path: &[Step],
    from: usize,
    part: Value,
) -> Result<Value, Refusal<FaultKind>>
    requires { CanWalk (Field place ∷ drop from path.now) (datum.fields fields.old) }
    ensures { Puts (Field place ∷ drop from path.now) (datum_of part) (Fields fields.old) result (Fields fields.new) }
{
    if place as usize >= fields.len() {
        return refuse(FaultKind::IndexOutside);
    }
    put_from(alloc, fields.part_mut(place as usize), path, from, part)
}

// Puts a part into a graph that has these nodes, at the end of a path behind a node.
#[cycle(puts)]
fn put_in_nodes(
    alloc: Global,
    nodes: &mut Parts,
    name: i64,
    path: &[Step],
    from: usize,
    part: Value,
) -> Result<Value, Refusal<FaultKind>>
    requires named { AreNamed (list_of nodes.old) }
    requires walks { IfOk (found (value_at name (list_of nodes.old))) (CanWalk (drop from path.now)) }
    ensures { (next : ℤ) →
        Puts (Node name ∷ drop from path.now) (datum_of part) (graph_with next nodes.old) result (graph_with next nodes.new) }
{
    match node_place(nodes.as_slice(), name) {
        Some(place) => match nodes.part_mut(place) {
            Value::Fields(node) => {
                put_from(
                    alloc,
                    node.as_parts_mut(alloc)?.part_mut(1),
                    path,
                    from,
                    part,
                )
            }
            _ => unreachable!(),
        },
        None => refuse(FaultKind::IndexOutside),
    }
}

// Puts a part into a graph, at the end of a path behind a node.
#[cycle(puts)]
fn put_in_graph(
    alloc: Global,
    graph: &mut Value,
    name: i64,
    path: &[Step],
    from: usize,
    part: Value,
) -> Result<Value, Refusal<FaultKind>>
    requires { CanWalk (Node name ∷ drop from path.now) (datum_of graph.old) }
    ensures { Puts (Node name ∷ drop from path.now) (datum_of part) graph.old result graph.new }
{
    match graph {
        Value::Fields(fields) => match fields.as_parts_mut(alloc)?.part_mut(1) {
            Value::Set(nodes) => {
                put_in_nodes(alloc, nodes.as_parts_mut(alloc)?, name, path, from, part)
            }
            _ => unreachable!(),
        },
        _ => unreachable!(),
    }
}

// Puts a part into a value, at the end of a path behind this step.
#[cycle(puts)]
fn put_behind(
    alloc: Global,
    value: &mut Value,
    step: Step,
    path: &[Step],
    from: usize,
    part: Value,
) -> Result<Value, Refusal<FaultKind>>
    requires { CanWalk (step ∷ drop from path.now) (datum_of value.old) }
    ensures { Puts (step ∷ drop from path.now) (datum_of part) value.old result value.new }
{
    match step {
        Step::Index { low, index } => match value {
            Value::Array(parts) => {
                put_in_array(
                    alloc,
                    parts.as_parts_mut(alloc)?,
                    low,
                    index,
                    path,
                    from,
                    part,
                )
            }
            _ => refuse(FaultKind::IndexOutside),
        },
        Step::Field { place } => match value {
            Value::Fields(fields) => {
                put_in_record(alloc, fields.as_parts_mut(alloc)?, place, path, from, part)
            }
            _ => refuse(FaultKind::IndexOutside),
        },
        Step::Node { name } => put_in_graph(alloc, value, name, path, from, part),
    }
}

// Puts a part at the end of what a path has from here on.
#[cycle(puts)]
fn put_from(
    alloc: Global,
    value: &mut Value,
    path: &[Step],
    from: usize,
    part: Value,
) -> Result<Value, Refusal<FaultKind>>
    requires { CanWalk (drop from path.now) (datum_of value.old) }
    ensures { Puts (drop from path.now) (datum_of part) value.old result value.new }
{
    match path.get(from) {
        None => Ok(mem::replace(value, part)),
        Some(step) => put_behind(alloc, value, *step, path, from + 1, part),
    }
}

/// Puts a part in place of the one at the end of a path, and gives that one. Nothing else changes. Lists on the way that others
/// share are copied first.
///
/// # Errors
/// `IndexOutside` where a step leads nowhere, and want of memory; then nothing has changed.
pub fn replace_part(
    alloc: Global,
    value: &mut Value,
    path: &[Step],
    part: Value,
) -> Result<Value, Refusal<FaultKind>>
    requires { CanWalk path.now (datum_of value.old) }
    ensures { Puts path.now (datum_of part) value.old result value.new }
{
    put_from(alloc, value, path, 0, part)
}
