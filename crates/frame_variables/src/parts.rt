//! Parts of values at the ends of paths, of any values.

ghost use Rattle.std.specs.Prelude.{◌≡◌, ◌∷◌, IsTrue, Ok, Err, MatchResult, drop, pos, slice_get, unwrap_or};
ghost use Rattle.graph_values.specs.Graphs.{fields_in};
ghost use Rattle.value_core.specs.Datum as datum;
ghost use Rattle.value_core.specs.View.{datum_of};
ghost use Rattle.value_ops.specs.Sizes.{place_of};
ghost use Rattle.value_paths.specs.Paths.{part_at, part_to};
ghost use Rattle.value_paths.specs.declared.step.Step.TheVariants as value_step;
ghost use Rattle.frame_variables.specs.Exchanges.{PutsPart};
ghost use Rattle.frame_variables.specs.Gives.{path_of, step_of};
ghost use Rattle.frame_variables.specs.Ordered.{IsOrdered};

use crate::graphs::{Graph, node, nodes_of, value_of};
use crate::nodes::place_of as node_place;
use crate::steps::Step;
use crate::stop::Stop;
use orca_base::FaultKind;
use std::alloc::Global;
use std::mem;
use value_core::Value;

// The place from 0 of the part at an index, in an array with so many parts from a low bound on.
fn place_of(count: usize, low: i128, index: i64) -> Result<usize, FaultKind>
    ensures { result ≡ place_of count low index }
{
    let index = i128::from(index);
    if index < low {
        return Err(FaultKind::IndexOutside);
    }
    let place = index.abs_diff(low);
    if place < count as u128 {
        Ok(place as usize)
    } else {
        Err(FaultKind::IndexOutside)
    }
}

// The part of an array at an index.
fn part_of_array(value: &Value, low: i128, index: i64) -> Result<&Value, FaultKind>
    ensures { MatchResult result (λ p. part_to (value_step.Index low index) (datum_of value.now) ≡ Ok (datum_of p.now))
        (λ f. part_to (value_step.Index low index) (datum_of value.now) ≡ Err f) }
{
    match value {
        Value::Array(parts) => {
            let parts = parts.as_parts();
            let place = place_of(parts.len(), low, index)?;
            parts.get(place).ok_or(FaultKind::IndexOutside)
        }
        _ => Err(FaultKind::IndexOutside),
    }
}

// The field of a record at a place.
fn part_of_record(value: &Value, place: usize) -> Result<&Value, FaultKind>
    ensures { MatchResult result (λ p. part_to (value_step.Field place) (datum_of value.now) ≡ Ok (datum_of p.now))
        (λ f. part_to (value_step.Field place) (datum_of value.now) ≡ Err f) }
{
    match value {
        Value::Fields(fields) => fields.as_parts().get(place).ok_or(FaultKind::IndexOutside),
        _ => Err(FaultKind::IndexOutside),
    }
}

// The second field of a record, or what stands for it.
fn second_field<'a>(value: &'a Value, other: &'a Value) -> &'a Value
    ensures { datum_of result.now ≡ unwrap_or (slice_get (fields_in (datum_of value.now)) 1) (datum_of other.now) }
{
    match value {
        Value::Fields(fields) => match fields.as_parts().get(1) {
            Some(second) => second,
            None => other,
        },
        _ => other,
    }
}

// The value of a graph's node. `zero` stands for the value of what is no node.
fn part_of_graph<'a>(
    value: &'a Value,
    name: i64,
    zero: &'a Value,
    in_order: bool,
) -> Result<&'a Value, FaultKind>
    requires zero { datum_of zero.now ≡ datum.int (pos 0) }
    requires ordered { IsTrue in_order → IsOrdered (datum_of value.now) }
    ensures { MatchResult result (λ p. part_to (value_step.Node name) (datum_of value.now) ≡ Ok (datum_of p.now))
        (λ f. part_to (value_step.Node name) (datum_of value.now) ≡ Err f) }
{
    let nodes = nodes_of(value);
    match node_place(nodes, name, in_order) {
        Some(place) => Ok(second_field(&nodes[place], zero)),
        None => Err(FaultKind::IndexOutside),
    }
}

/// The part to which one step leads. `zero` stands for the value of what is no node.
///
/// # Errors
/// `IndexOutside` where it leads nowhere.
pub fn part_to<'a>(
    value: &'a Value,
    step: Step,
    zero: &'a Value,
    in_order: bool,
) -> Result<&'a Value, FaultKind>
    requires zero { datum_of zero.now ≡ datum.int (pos 0) }
    requires ordered { IsTrue in_order → IsOrdered (datum_of value.now) }
    ensures { MatchResult result (λ p. part_to (step_of step) (datum_of value.now) ≡ Ok (datum_of p.now))
        (λ f. part_to (step_of step) (datum_of value.now) ≡ Err f) }
{
    match step {
        Step::Index { low, index } => part_of_array(value, low, index),
        Step::Field { place } => part_of_record(value, place),
        Step::Node { name } => part_of_graph(value, name, zero, in_order),
    }
}

/// The part at the end of a path, of a value of which it is told whether it is known to be in order. `zero` stands for the value of
/// what is no node.
///
/// # Errors
/// `IndexOutside` where a step leads nowhere.
pub fn find_part<'a>(
    value: &'a Value,
    path: &[Step],
    zero: &'a Value,
    in_order: bool,
) -> Result<&'a Value, FaultKind>
    requires zero { datum_of zero.now ≡ datum.int (pos 0) }
    requires ordered { IsTrue in_order → IsOrdered (datum_of value.now) }
    ensures { MatchResult result (λ p. part_at (path_of path.now) (datum_of value.now) ≡ Ok (datum_of p.now))
        (λ f. part_at (path_of path.now) (datum_of value.now) ≡ Err f) }
{
    let mut at = value;
    'path: for step in path {
        at = part_to(at, *step, zero, in_order)?;
    }
    Ok(at)
}

/// The part at the end of a path, of any value. `zero` stands for the value of what is no node.
///
/// # Errors
/// `IndexOutside` where a step leads nowhere.
pub fn part<'a>(value: &'a Value, path: &[Step], zero: &'a Value) -> Result<&'a Value, FaultKind>
    requires { datum_of zero.now ≡ datum.int (pos 0) }
    ensures { MatchResult result (λ p. part_at (path_of path.now) (datum_of value.now) ≡ Ok (datum_of p.now))
        (λ f. part_at (path_of path.now) (datum_of value.now) ≡ Err f) }
{
    find_part(value, path, zero, false)
}

// Puts a part into an array, at the end of a path behind an index.
#[cycle(puts)]
fn put_in_array(
    alloc: Global,
    value: &mut Value,
    low: i128,
    index: i64,
    path: &[Step],
    from: usize,
    part: Value,
    in_order: bool,
) -> Result<Value, Stop>
    requires { IsTrue in_order → IsOrdered (datum_of value.old) }
    ensures { PutsPart (value_step.Index low index ∷ path_of (drop from path.now)) (datum_of part) (datum_of value.old) result (datum_of value.new) }
{
    match value {
        Value::Array(parts) => {
            let parts = parts.as_parts_mut(alloc)?;
            let place = place_of(parts.len(), low, index)?;
            put_from(alloc, parts.part_mut(place), path, from, part, in_order)
        }
        _ => Err(Stop::Faults {
            fault: FaultKind::IndexOutside,
        }),
    }
}

// Puts a part into a record, at the end of a path behind a field.
#[cycle(puts)]
fn put_in_record(
    alloc: Global,
    value: &mut Value,
    place: usize,
    path: &[Step],
    from: usize,
    part: Value,
    in_order: bool,
) -> Result<Value, Stop>
    requires { IsTrue in_order → IsOrdered (datum_of value.old) }
    ensures { PutsPart (value_step.Field place ∷ path_of (drop from path.now)) (datum_of part) (datum_of value.old) result (datum_of value.new) }
{
    match value {
        Value::Fields(fields) => {
            let fields = fields.as_parts_mut(alloc)?;
            if place >= fields.len() {
                return Err(Stop::Faults {
                    fault: FaultKind::IndexOutside,
                });
            }
            put_from(alloc, fields.part_mut(place), path, from, part, in_order)
        }
        _ => Err(Stop::Faults {
            fault: FaultKind::IndexOutside,
        }),
    }
}

// Puts a part into a graph, at the end of a path behind a node.
#[cycle(puts)]
fn put_in_graph(
    alloc: Global,
    value: &mut Value,
    name: i64,
    path: &[Step],
    from: usize,
    part: Value,
    in_order: bool,
) -> Result<Value, Stop>
    requires { IsTrue in_order → IsOrdered (datum_of value.old) }
    ensures { PutsPart (value_step.Node name ∷ path_of (drop from path.now)) (datum_of part) (datum_of value.old) result (datum_of value.new) }
{
    let mut graph = Graph::of(alloc, mem::replace(value, Value::Int(0)))?;
    let Some(place) = node_place(graph.nodes.as_slice(), name, in_order) else {
        return Err(Stop::Faults {
            fault: FaultKind::IndexOutside,
        });
    };
    let mut inside = value_of(alloc, graph.nodes.replace(place, Value::Int(0)))?;
    let old = put_from(alloc, &mut inside, path, from, part, in_order)?;
    graph.nodes.set(place, node(alloc, name, inside)?);
    *value = graph.value(alloc)?;
    Ok(old)
}

// Puts a part at the end of what a path has from here on.
#[cycle(puts)]
fn put_from(
    alloc: Global,
    value: &mut Value,
    path: &[Step],
    from: usize,
    part: Value,
    in_order: bool,
) -> Result<Value, Stop>
    requires { IsTrue in_order → IsOrdered (datum_of value.old) }
    ensures { PutsPart (path_of (drop from path.now)) (datum_of part) (datum_of value.old) result (datum_of value.new) }
{
    match path.get(from) {
        None => Ok(mem::replace(value, part)),
        Some(step) => match *step {
            Step::Index { low, index } => put_in_array(
                alloc,
                value,
                low,
                index,
                path,
                from + 1,
                part,
                in_order,
            ),
            Step::Field { place } => put_in_record(
                alloc,
                value,
                place,
                path,
                from + 1,
                part,
                in_order,
            ),
            Step::Node { name } => put_in_graph(alloc, value, name, path, from + 1, part, in_order),
        },
    }
}

/// Puts a part in place of the one at the end of a path, and gives that one; it is told whether the value is known to be in order.
/// After an error nothing is said of the value.
///
/// # Errors
/// `IndexOutside` where a step leads nowhere, and want of memory.
pub fn exchange_part(
    alloc: Global,
    value: &mut Value,
    path: &[Step],
    part: Value,
    in_order: bool,
) -> Result<Value, Stop>
    requires { IsTrue in_order → IsOrdered (datum_of value.old) }
    ensures { PutsPart (path_of path.now) (datum_of part) (datum_of value.old) result (datum_of value.new) }
{
    put_from(alloc, value, path, 0, part, in_order)
}
