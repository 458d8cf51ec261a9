//! Firm paths: whatever is put at the end of one, graphs that are in order stay so.

ghost use Rattle.std.specs.Prelude.{◌≡◌, ◌≢◌, ◌≤◌, IfSome, IsTrue, Ok, Some, false, length, map, pos, slice_get};
ghost use Rattle.value_core.specs.Datum as datum;
ghost use Rattle.value_core.specs.Datum.{Datum};
ghost use Rattle.value_core.specs.View.{datum_of};
ghost use Rattle.graph_values.specs.Graphs.{fields_in, is_named as has_name};
ghost use Rattle.value_paths.specs.Paths.{part_to as part_behind};
ghost use Rattle.value_paths.specs.declared.step.Step.TheVariants as value_step;
ghost use Rattle.frame_variables.specs.Firm.{IsFirm, IsFirmStep};
ghost use Rattle.frame_variables.specs.Gives.{path_of, step_of};
ghost use Rattle.frame_variables.specs.Ordered.{IsOrdered};

use crate::graphs::nodes_of;
use crate::nodes::{is_named, place_of};
use crate::parts::part_to;
use crate::steps::Step;
use value_core::Value;

// Whether a node has a value.
fn has_value(node: &Value) -> bool
    ensures { IsTrue result → 2 ≤ length (fields_in (datum_of node.now)) }
{
    match node {
        Value::Fields(fields) => fields.as_parts().len() >= 2,
        _ => false,
    }
}

// Whether no node with this name stands at a place.
fn has_other(nodes: &[Value], place: usize, name: i64) -> bool
    ensures { IsTrue result → (x : Datum) → slice_get (map datum_of nodes.now) place ≡ Some x → has_name name x ≡ false }
{
    match nodes.get(place) {
        Some(node) => !is_named(name, node),
        None => true,
    }
}

// Whether a step to a node is firm. It looks at the first node of the name, which isn't 0, and at the one behind it.
fn is_firm_node(value: &Value, name: i64, in_order: bool) -> bool
    requires named { name ≢ pos 0 }
    requires ordered { IsTrue in_order → IsOrdered (datum_of value.now) }
    ensures { IsTrue result → IsFirmStep (value_step.Node name) (datum_of value.now) }
{
    let nodes = nodes_of(value);
    match place_of(nodes, name, in_order) {
        Some(place) => {
            if has_value(&nodes[place]) {
                has_other(nodes, place + 1, name)
            } else {
                false
            }
        }
        None => false,
    }
}

// Whether a step is firm.
fn is_firm_step(value: &Value, step: Step, in_order: bool) -> bool
    requires { IsTrue in_order → IsOrdered (datum_of value.now) }
    ensures { IsTrue result → IsFirmStep (step_of step) (datum_of value.now) }
{
    match step {
        Step::Node { name } => {
            if name != 0 {
                is_firm_node(value, name, in_order)
            } else {
                false
            }
        }
        _ => true,
    }
}

// The part to which a step leads, where the step is firm. `zero` stands for the value of what is no node.
fn firm_part<'a>(value: &'a Value, step: Step, zero: &'a Value, in_order: bool) -> Option<&'a Value>
    requires zero { datum_of zero.now ≡ datum.int (pos 0) }
    requires ordered { IsTrue in_order → IsOrdered (datum_of value.now) }
    ensures firm { IfSome result (λ p. IsFirmStep (step_of step) (datum_of value.now)) }
    ensures leads { IfSome result (λ p. part_behind (step_of step) (datum_of value.now) ≡ Ok (datum_of p.now)) }
{
    if is_firm_step(value, step, in_order) {
        match part_to(value, step, zero, in_order) {
            Ok(part) => Some(part),
            Err(_) => None,
        }
    } else {
        None
    }
}

/// Whether a path is firm. It goes along the path once.
pub fn is_firm(value: &Value, path: &[Step], in_order: bool) -> bool
    requires { IsTrue in_order → IsOrdered (datum_of value.now) }
    ensures { IsTrue result → IsFirm (path_of path.now) (datum_of value.now) }
{
    let zero = Value::Int(0);
    let mut at = value;
    'path: for step in path {
        let Some(part) = firm_part(at, *step, &zero, in_order) else {
            return false;
        };
        at = part;
    }
    true
}
