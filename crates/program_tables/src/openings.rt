//! The values that variables open with.

ghost use Rattle.std.specs.Prelude.{◌≡◌, ◌+◌, ◌-ℤ◌, ℕ, List, IfOk, map, nat_abs, option_map, replicate, unwrap_or};
ghost use Rattle.link_rules.specs.Units.{Source};
ghost use Rattle.type_rules.specs.declared.types.Base.{Base as BaseType};
ghost use Rattle.value_core.specs.Datum.{Datum, data_of, list_of};
ghost use Rattle.value_core.specs.Datum as datum;
ghost use Rattle.value_core.specs.View.{datum_of};
ghost use Rattle.meaning_rules.specs.Openings as rules;
ghost use Rattle.meaning_rules.specs.Openings.{layers_opening};
ghost use Rattle.program_tables.specs.Listed.{HaveTypes};
ghost use Rattle.program_tables.specs.Layers.{empty_within, type_seen};

use crate::records::{Record, types_at};
use crate::seen::Seen;
use graph_values::new_graph;
use orca_base::{NoMemory, ObjectId, VALUE_NESTING};
use std::alloc::Global;
use type_rules::{Base, DataType, Layer};
use value_core::{BoxedParts, Parts, TextValue, Value};

// No values, behind a pointer.
fn nothing(alloc: Global) -> Result<BoxedParts, NoMemory>
    ensures { IfOk result (λ b. b ≡ datum.none) }
{
    let none = Parts::new(alloc);
    Ok(BoxedParts::new(alloc, none)?)
}

// The set, bag or graph that stands in a type's outer arrays, empty; none where these arrays are all of its layers.
fn empty_within(alloc: Global, layers: &[Layer]) -> Result<Option<Value>, NoMemory>
    ensures { IfOk result (λ o. option_map datum_of o ≡ empty_within layers.now) }
{
    'layers: for layer in layers {
        match layer {
            Layer::Array { .. } => {}
            Layer::Set => return Ok(Some(Value::Set(nothing(alloc)?))),
            Layer::Bag => return Ok(Some(Value::Bag(nothing(alloc)?))),
            Layer::Graph => return Ok(Some(new_graph(alloc)?)),
        }
    }
    Ok(None)
}

// A value, and so many more that are equal.
fn copies(alloc: Global, value: Value, more: u128) -> Result<Vec<Value>, NoMemory>
    ensures { IfOk result (λ v. map datum_of v.items ≡ replicate (more + 1) (datum_of value)) }
{
    let mut all = Vec::new(alloc);
    'copies: for _copy in 0..more {
        all.push(value.copy(alloc)?)?;
    }
    all.push(value)?;
    Ok(all)
}

// An array with these bounds, each of whose elements is this value.
fn array_of(alloc: Global, low: i128, high: i128, element: Value) -> Result<Value, NoMemory>
    ensures { IfOk result (λ v. datum_of v ≡
        datum.array (data_of (replicate (nat_abs (high -ℤ low) + 1) (datum_of element)))) }
{
    let all = copies(alloc, element, high.abs_diff(low))?;
    Ok(Value::Array(BoxedParts::new(alloc, Parts::from_vec(all))?))
}

// The outer arrays of a type round the value that stands in them.
fn in_arrays(alloc: Global, layers: &[Layer], value: Value) -> Result<Value, NoMemory>
    ensures { (of_record : ℕ → Datum) (b : BaseType) →
        datum_of value ≡ unwrap_or (empty_within layers.now) (rules.base_opening of_record b) →
        IfOk result (λ v. datum_of v ≡ layers_opening of_record layers.now b) }
{
    match layers.first() {
        Some(Layer::Array { low, high }) => {
            let element = in_arrays(alloc, &layers[1..], value)?;
            array_of(alloc, *low, *high, element)
        }
        _ => Ok(value),
    }
}

// What a base opens with, where so many records at most stand in one another.
#[cycle(openings)]
fn base_opening(
    alloc: Global,
    records: &[Record<'_>],
    base: Base,
    levels: u32,
) -> Result<Value, NoMemory>
    ensures { (us : List Source) → HaveTypes us records.now →
        IfOk result (λ v. datum_of v ≡ rules.base_opening (rules.record_opening us levels) base) }
{
    match base {
        Base::Integer | Base::NodeName => Ok(Value::Int(0)),
        Base::Boolean => Ok(Value::Truth(false)),
        Base::Character => Ok(Value::Char(0)),
        Base::String => Ok(Value::Text(TextValue::from_str(alloc, "")?)),
        Base::Enumeration { .. } => Ok(Value::Enum(0)),
        Base::Record { number } => Ok(record_opening(alloc, records, number, levels)?),
        Base::Object { .. } => Ok(Value::Object(ObjectId::OUTPUT)),
    }
}

// What the record with this number opens with, where so many records at most stand in one another.
#[cycle(openings)]
fn record_opening(
    alloc: Global,
    records: &[Record<'_>],
    number: usize,
    levels: u32,
) -> Result<Value, NoMemory>
    ensures { (us : List Source) → HaveTypes us records.now →
        IfOk result (λ v. datum_of v ≡ rules.record_opening us levels number) }
{
    if levels == 0 {
        return Ok(Value::Fields(nothing(alloc)?));
    }
    let fields = fields_opening(alloc, records, types_at(records, number), levels - 1)?;
    Ok(Value::Fields(BoxedParts::new(alloc, fields)?))
}

// What fields of these types open with.
#[cycle(openings)]
fn fields_opening(
    alloc: Global,
    records: &[Record<'_>],
    types: &[Option<DataType>],
    levels: u32,
) -> Result<Parts, NoMemory>
    ensures { (us : List Source) → HaveTypes us records.now →
        IfOk result (λ p. list_of p ≡ map (rules.type_opening (rules.record_opening us levels)) types.now) }
{
    let mut fields = Parts::new(alloc);
    'fields: for kind in types {
        let value = type_opening(alloc, records, Seen::of_known(kind), levels)?;
        fields.push(value)?;
    }
    Ok(fields)
}

// What a type opens with, where so many records at most stand in one another.
#[cycle(openings)]
fn type_opening(
    alloc: Global,
    records: &[Record<'_>],
    kind: Option<Seen<'_>>,
    levels: u32,
) -> Result<Value, NoMemory>
    ensures { (us : List Source) → HaveTypes us records.now →
        IfOk result (λ v. datum_of v ≡ rules.type_opening (rules.record_opening us levels) (option_map type_seen kind.entry)) }
{
    match kind {
        None => Ok(Value::Int(0)),
        Some(kind) => {
            let inside = match empty_within(alloc, kind.layers)? {
                Some(empty) => empty,
                None => base_opening(alloc, records, kind.base, levels)?,
            };
            in_arrays(alloc, kind.layers, inside)
        }
    }
}

/// The value that a variable of a type opens with.
pub fn opening(
    alloc: Global,
    records: &[Record<'_>],
    kind: Option<Seen<'_>>,
) -> Result<Value, NoMemory>
    ensures { (us : List Source) → HaveTypes us records.now →
        IfOk result (λ v. datum_of v ≡ rules.opening us (option_map type_seen kind.entry)) }
{
    type_opening(alloc, records, kind, VALUE_NESTING)
}
