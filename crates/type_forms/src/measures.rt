//! Sizes of types.

ghost use Rattle.std.specs.Prelude.{◌≡◌, ◌+◌, ◌*◌, ◌-ℤ◌, min, nat_abs, int_le, true, IfOk};
ghost use Rattle.type_rules.specs.Types.{is_object as rule_of_object, layered as layered_type};
ghost use Rattle.type_rules.specs.TypePhrases.{single as single_type};
ghost use Rattle.type_forms.specs.Measures.{if_small, wrapped as wrapped_type};

use orca_base::{Items, NoMemory, VALUE_NESTING, VALUE_SIZE};
use std::alloc::Global;
use type_rules::{Base, DataType, Layer, Measured};

/// How many elements an array with these bounds has, where they are at most 10,000, and else 10,001.
pub fn elements(low: i128, high: i128) -> u32
    ensures { int_le low high ≡ true → result ≡ min (nat_abs (high -ℤ low) + 1) 10001 }
{
    match high.checked_sub(low) {
        None => 10_001,
        Some(far) => {
            if far < 0 {
                return 10_001;
            }
            if far >= 10_000 {
                return 10_001;
            }
            far as u32 + 1
        }
    }
}

/// The size of an array with so many elements of this size, where it is at most 10,000, and else 10,001.
pub fn array_size(elements: u32, size: u32) -> u32
    ensures { result ≡ min (1 + elements * size) 10001 }
{
    let all = (elements as u64) * (size as u64);
    if all >= 10_000 {
        return 10_001;
    }
    all as u32 + 1
}

/// A type without layers, which nests one deep and opens with one value.
pub fn single(alloc: Global, base: Base) -> Measured
    ensures { result ≡ single_type base }
{
    Measured {
        kind: DataType {
            layers: Items::new(Vec::new(alloc)),
            base,
        },
        size: 1,
        nesting: 1,
    }
}

/// The same type once more.
pub fn copy(alloc: Global, found: &Measured) -> Result<Measured, NoMemory>
    ensures { IfOk result (λ m. m ≡ found.now) }
{
    let layers = Vec::from_slice(alloc, found.kind.layers.as_slice())?;
    Ok(Measured {
        kind: DataType {
            layers: Items::new(layers),
            base: found.kind.base,
        },
        size: found.size,
        nesting: found.nesting,
    })
}

// A type with a layer more.
fn layered(layer: Layer, kind: DataType) -> Result<DataType, NoMemory>
    ensures { IfOk result (λ t. t ≡ layered_type layer kind) }
{
    let base = kind.base;
    let mut layers = kind.layers.into_vec();
    layers.insert(0, layer)?;
    Ok(DataType {
        layers: Items::new(layers),
        base,
    })
}

/// A type with a layer more, of this size and so many deeper, where it is within the limits.
pub fn wrapped(
    layer: Layer,
    size: u32,
    depth: u8,
    of: Measured,
) -> Result<Option<Measured>, NoMemory>
    ensures { IfOk result (λ o. o ≡ if_small (wrapped_type layer size depth of)) }
{
    if size > VALUE_SIZE {
        return Ok(None);
    }
    if of.nesting > VALUE_NESTING {
        return Ok(None);
    }
    let nesting = depth as u32 + of.nesting;
    if nesting > VALUE_NESTING {
        return Ok(None);
    }
    let kind = layered(layer, of.kind)?;
    Ok(Some(Measured {
        kind,
        size,
        nesting,
    }))
}

/// Whether a type is an object type.
pub fn is_object(kind: &DataType) -> bool
    ensures { result ≡ rule_of_object kind.now }
{
    if !kind.layers.as_slice().is_empty() {
        return false;
    }
    matches!(kind.base, Base::Object { .. })
}
