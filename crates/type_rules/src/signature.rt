//! What a call passes and gets.

use crate::types::DataType;
use orca_base::Items;

/// A parameter, as a call meets it: of a type, where that is known, by value, `shared` or `out`; or a graph, or the name of a node.
#[derive(Debug, Drop)]
pub enum Formal {
    ByValue { kind: Option<DataType> },
    Shared { kind: Option<DataType> },
    Out { kind: Option<DataType> },
    SomeGraph,
    NodeOf,
}

/// The parameters of what is called; and its result, where it has one, of a type, where that is known.
#[derive(Debug, Drop)]
pub struct Signature {
    pub formals: Items<Formal>,
    pub result: Option<Option<DataType>>,
}
