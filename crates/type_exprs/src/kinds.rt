//! Tests of types.

ghost use Rattle.std.specs.Prelude.{◌≡◌, drop, IfOk};
ghost use Rattle.type_rules.specs.Rules.{agree as rule_agree, fits};
ghost use Rattle.type_rules.specs.Types as rules;
ghost use Rattle.type_rules.specs.Expressions as judged;
ghost use Rattle.type_exprs.specs.Wanted.{outside_by, test};

use orca_base::{Items, NoMemory};
use std::alloc::Global;
use type_forms::is_object;
use type_rules::{Base, DataType, Layer};

/// What a rule wants a type to be.
#[derive(Clone, Copy)]
pub enum Wanted {
    Boolean,
    Integer,
    Text,
    NodeName,
    /// A set or a bag.
    Gathering,
    Graph,
    /// What `ord` may have.
    Numbered,
    /// What `size` may have.
    Counted,
    /// What `WriteLine` may have.
    Printed,
}

/// A type without layers.
pub fn plain(alloc: Global, base: Base) -> DataType
    ensures { result ≡ rules.plain base }
{
    DataType {
        layers: Items::new(Vec::new(alloc)),
        base,
    }
}

/// The same type once more.
pub fn copy(alloc: Global, kind: &DataType) -> Result<DataType, NoMemory>
    ensures { IfOk result (λ t. t ≡ kind.now) }
{
    let layers = Vec::from_slice(alloc, kind.layers.as_slice())?;
    Ok(DataType {
        layers: Items::new(layers),
        base: kind.base,
    })
}

/// The same once more, where it is known.
pub fn copy_known(alloc: Global, kind: &Option<DataType>) -> Result<Option<DataType>, NoMemory>
    ensures { IfOk result (λ t. t ≡ kind.now) }
{
    match kind {
        None => Ok(None),
        Some(kind) => Ok(Some(copy(alloc, kind)?)),
    }
}

// The layers inside of the outermost.
fn inner(layers: &[Layer]) -> &[Layer]
    ensures { result.now ≡ drop 1 layers.now }
{
    if layers.is_empty() {
        return layers;
    }
    &layers[1..]
}

/// Of a layered type, what the layer is of.
pub fn inside_of(alloc: Global, kind: &DataType) -> Result<DataType, NoMemory>
    ensures { IfOk result (λ t. t ≡ rules.inside_of kind.now) }
{
    let layers = Vec::from_slice(alloc, inner(kind.layers.as_slice()))?;
    Ok(DataType {
        layers: Items::new(layers),
        base: kind.base,
    })
}

// Whether two bases are one.
fn same_base(one: Base, other: Base) -> bool
    ensures { result ≡ rules.same_base one other }
{
    match (one, other) {
        (Base::Integer, Base::Integer)
        | (Base::Boolean, Base::Boolean)
        | (Base::Character, Base::Character)
        | (Base::String, Base::String)
        | (Base::NodeName, Base::NodeName) => true,
        (Base::Enumeration { number: one }, Base::Enumeration { number: other })
        | (Base::Record { number: one }, Base::Record { number: other })
        | (Base::Object { number: one }, Base::Object { number: other }) => one == other,
        _ => false,
    }
}

// Whether two layers are one.
fn same_layer(one: Layer, other: Layer) -> bool
    ensures { result ≡ rules.same_layer one other }
{
    match (one, other) {
        (
            Layer::Array { low, high },
            Layer::Array {
                low: other_low,
                high: other_high,
            },
        ) => low == other_low && high == other_high,
        (Layer::Set, Layer::Set) | (Layer::Bag, Layer::Bag) | (Layer::Graph, Layer::Graph) => true,
        _ => false,
    }
}

// Whether two rows of layers are one, from a place on.
fn same_layers(one: &[Layer], other: &[Layer]) -> bool
    ensures { result ≡ rules.same_layers one.now other.now }
{
    if one.len() != other.len() {
        return false;
    }
    let mut left = one.len();
    let mut same = true;
    'layers: while left > 0 {
        left -= 1;
        same = same_layer(one[left], other[left]) && same;
    }
    same
}

/// Whether two types are one.
pub fn same_type(one: &DataType, other: &DataType) -> bool
    ensures { result ≡ rules.same_type one.now other.now }
{
    same_layers(one.layers.as_slice(), other.layers.as_slice()) && same_base(one.base, other.base)
}

/// Whether two types are one, as far as they are known.
pub fn agree(one: &Option<DataType>, other: &Option<DataType>) -> bool
    ensures { result ≡ rule_agree one.now other.now }
{
    match one {
        None => true,
        Some(one) => match other {
            None => true,
            Some(other) => same_type(one, other),
        },
    }
}

// The outermost layer of a type.
fn outermost(kind: &DataType) -> Option<Layer>
    ensures { outside_by result kind.now.base ≡ rules.outside_of kind.now }
{
    kind.layers.as_slice().first().copied()
}

// Whether a type is the one without layers of this base.
fn is_plain(kind: &DataType, base: Base) -> bool
    ensures { result ≡ rules.same_type kind.now (rules.plain base) }
{
    kind.layers.as_slice().is_empty() && same_base(kind.base, base)
}

// Whether a type is a set or a bag.
fn is_gathering(kind: &DataType) -> bool
    ensures { result ≡ rules.is_gathering kind.now }
{
    match outermost(kind) {
        Some(Layer::Set) | Some(Layer::Bag) => true,
        _ => false,
    }
}

// Whether a type is a graph.
fn is_graph(kind: &DataType) -> bool
    ensures { result ≡ rules.is_graph kind.now }
{
    match outermost(kind) {
        Some(Layer::Graph) => true,
        _ => false,
    }
}

// Whether a type is what `ord` may have.
fn is_numbered(kind: &DataType) -> bool
    ensures { result ≡ rules.is_numbered kind.now }
{
    match outermost(kind) {
        Some(_) => false,
        None => matches!(kind.base, Base::Character | Base::Enumeration { .. }),
    }
}

// Whether a type is what `WriteLine` may have.
fn is_printed(kind: &DataType) -> bool
    ensures { result ≡ rules.is_printed kind.now }
{
    match outermost(kind) {
        Some(_) => false,
        None => matches!(
            kind.base,
            Base::Integer
                | Base::Boolean
                | Base::Character
                | Base::String
                | Base::Enumeration { .. }
        ),
    }
}

/// Whether a type is what a rule wants.
pub fn is_met(wanted: Wanted, kind: &DataType) -> bool
    ensures { result ≡ test wanted kind.now }
{
    match wanted {
        Wanted::Boolean => is_plain(kind, Base::Boolean),
        Wanted::Integer => is_plain(kind, Base::Integer),
        Wanted::Text => is_plain(kind, Base::String),
        Wanted::NodeName => is_plain(kind, Base::NodeName),
        Wanted::Gathering => is_gathering(kind),
        Wanted::Graph => is_graph(kind),
        Wanted::Numbered => is_numbered(kind),
        Wanted::Counted => is_gathering(kind) || is_plain(kind, Base::String),
        Wanted::Printed => is_printed(kind),
    }
}

/// Whether a type is what a rule wants, as far as it is known.
pub fn meets(wanted: Wanted, kind: &Option<DataType>) -> bool
    ensures { result ≡ fits (test wanted) kind.now }
{
    match kind {
        None => true,
        Some(kind) => is_met(wanted, kind),
    }
}

/// Whether a type is no object type, as far as it is known.
pub fn is_data(kind: &Option<DataType>) -> bool
    ensures { result ≡ judged.is_data kind.now }
{
    match kind {
        None => true,
        Some(kind) => !is_object(kind),
    }
}

/// Whether a type is an object type, as far as it is known.
pub fn may_be_of_object(kind: &Option<DataType>) -> bool
    ensures { result ≡ fits rules.is_object kind.now }
{
    match kind {
        None => true,
        Some(kind) => is_object(kind),
    }
}

/// Of an array or a graph, what stands in brackets behind it.
pub fn index_of(alloc: Global, kind: &DataType) -> Option<DataType>
    ensures { result ≡ judged.index_of (rules.outside_of kind.now) }
{
    match outermost(kind) {
        Some(Layer::Array { .. }) => Some(plain(alloc, Base::Integer)),
        Some(Layer::Graph) => Some(plain(alloc, Base::NodeName)),
        _ => None,
    }
}

/// Whether an index is of the type that is wanted, if any is.
pub fn is_indexed_by(wanted: &Option<DataType>, index: &Option<DataType>) -> bool
    ensures { result ≡ judged.is_indexed_by wanted.now index.now }
{
    match wanted {
        None => false,
        Some(wanted) => match index {
            None => true,
            Some(index) => same_type(wanted, index),
        },
    }
}

/// Whether operands may be compared.
pub fn are_compared(left: &Option<DataType>, right: &Option<DataType>) -> bool
    ensures { result ≡ judged.are_compared left.now right.now }
{
    agree(left, right) && is_data(left) && is_data(right)
}
