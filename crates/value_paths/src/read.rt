//! Parts that are read.

ghost use Rattle.std.specs.Prelude.{◌≡◌, Ok, Err, MatchResult};
ghost use Rattle.value_core.specs.View.{datum_of};
ghost use Rattle.value_paths.specs.declared.step.Step.TheVariants.{Index, Field, Node};
ghost use Rattle.value_paths.specs.Paths.{CanStep, CanWalk, part_at, part_to};

use crate::place::place_of;
use crate::step::Step;
use graph_values::node;
use orca_base::FaultKind;
use value_core::Value;

// The part of an array at an index.
fn part_of_array(value: &Value, low: i64, index: i64) -> Result<&Value, FaultKind>
    ensures { MatchResult result (λ p. part_to (Index low index) (datum_of value.now) ≡ Ok (datum_of p.now))
        (λ f. part_to (Index low index) (datum_of value.now) ≡ Err f) }
{
    match value {
        Value::Array(parts) => {
            let parts = parts.as_parts();
            let place = place_of(parts.len(), low, index)?;
            parts.get(place).ok_or(FaultKind::IndexOutside)
        }
        _ => Err(FaultKind::IndexOutside),
    }
}

// The field of a record at a place.
fn part_of_record(value: &Value, place: u16) -> Result<&Value, FaultKind>
    ensures { MatchResult result (λ p. part_to (Field place) (datum_of value.now) ≡ Ok (datum_of p.now))
        (λ f. part_to (Field place) (datum_of value.now) ≡ Err f) }
{
    match value {
        Value::Fields(fields) => fields
            .as_parts()
            .get(place as usize)
            .ok_or(FaultKind::IndexOutside),
        _ => Err(FaultKind::IndexOutside),
    }
}

// The part to which one step leads.
fn part_to(value: &Value, step: Step) -> Result<&Value, FaultKind>
    requires { CanStep step (datum_of value.now) }
    ensures { MatchResult result (λ p. part_to step (datum_of value.now) ≡ Ok (datum_of p.now))
        (λ f. part_to step (datum_of value.now) ≡ Err f) }
{
    match step {
        Step::Index { low, index } => part_of_array(value, low, index),
        Step::Field { place } => part_of_record(value, place),
        Step::Node { name } => node(value, name).ok_or(FaultKind::IndexOutside),
    }
}

/// The part at the end of a path. It takes some log2 of a graph's nodes for each step.
///
/// # Errors
/// `IndexOutside` where a step leads nowhere.
pub fn part<'a>(value: &'a Value, path: &[Step]) -> Result<&'a Value, FaultKind>
    requires { CanWalk path.now (datum_of value.now) }
    ensures { MatchResult result (λ p. part_at path.now (datum_of value.now) ≡ Ok (datum_of p.now))
        (λ f. part_at path.now (datum_of value.now) ≡ Err f) }
{
    let mut at = value;
    for step in path {
        at = part_to(at, *step)?;
    }
    Ok(at)
}
