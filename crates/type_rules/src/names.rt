//! What names are.

/// Where a chain of constants leads, each of which is a number or another constant.
#[derive(Clone, Copy, Debug, PartialEq, Eq)]
pub enum Chain {
    /// To a number.
    EndsAt { value: i128 },
    /// Round for ever.
    GoesRound,
    /// To what is no constant.
    Fails,
}

/// A name that every module has: the bound of a graph, the type of the names of its nodes, the name of no node, and the two functions on
/// graphs.
#[derive(Clone, Copy, Debug, PartialEq, Eq)]
pub enum Predeclared {
    GraphBound,
    NodeNameType,
    Nil,
    AddNode,
    DeleteNode,
}

/// What a name of a body is, or a field of its object.
#[derive(Clone, Copy, Debug, PartialEq, Eq)]
pub enum LocalRole {
    ObjectField,
    LoopVariable,
    Variable,
    ValueParameter,
    OutParameter,
    SharedParameter,
}

/// What a body is of: an implementation (an operation, or what opens its objects), a function, a function with a `shared` parameter, or a
/// process.
#[derive(Clone, Copy, Debug, PartialEq, Eq)]
pub enum Owner {
    Implementation,
    Function,
    SharingFunction,
    Process,
}
