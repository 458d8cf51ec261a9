//! Types.

use orca_base::Items;

/// What a type is of, innermost: one of the language's own types, or an enumeration, a record or an object type, which go by name alone. A
/// name has its number among the names of the top level (specs/TopLevel.antt).
#[derive(Clone, Copy, Debug, PartialEq, Eq)]
pub enum Base {
    Integer,
    Boolean,
    Character,
    String,
    /// The names of a graph's nodes.
    NodeName,
    Enumeration { number: usize },
    Record { number: usize },
    Object { number: usize },
}

/// What a type is round another.
#[derive(Clone, Copy, Debug, PartialEq, Eq)]
pub enum Layer {
    /// An array with these bounds.
    Array { low: i128, high: i128 },
    Set,
    Bag,
    Graph,
}

/// A type: its layers, the outermost first, and what they are of. `array [1..3] of set of char` has the layers `array [1..3]` and
/// `set`, and the base `char`.
#[derive(Debug, Drop)]
pub struct DataType {
    pub layers: Items<Layer>,
    pub base: Base,
}

/// A type, with the size of its opening value and how deep it nests.
#[derive(Debug, Drop)]
pub struct Measured {
    pub kind: DataType,
    pub size: u32,
    pub nesting: u32,
}
