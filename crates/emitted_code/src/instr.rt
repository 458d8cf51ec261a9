//! Instructions.

use orca_base::{KindNo, OpNo, Text, TextNo};
use orca_tree::{Name, Operator};
use value_core::Value;

/// A step of a path, as far as it is known before it runs.
#[derive(Clone, Copy)]
pub enum Mark {
    /// To the field of a record at this place from 0.
    Field { place: usize },
    /// By an index into an array that begins at this low bound.
    ByIndex { low: i128 },
    /// By the name of a node.
    ByName,
}

/// What stands before one operand.
#[derive(Clone, Copy)]
pub enum Prefix {
    Not,
    Neg,
    Size,
    Ord,
}

/// What an argument passes: a value, or a target of the caller's.
#[derive(Drop)]
pub enum Shape {
    Gives,
    Lends { slot: usize, path: Vec<Mark> },
}

/// An instruction (docs/LANGUAGE.md, Code), with its path and its values. Names of enumerations are lent from the program's text. A jump
/// has the address that it goes to: how many instructions of its body stand in front.
#[derive(Drop)]
pub enum Instr<'p> {
    /// A constant.
    Push {
        value: Value,
    },
    /// A string, which may be too long.
    Text {
        text: Text,
    },
    /// A part of a constant.
    Part {
        value: Value,
        path: Vec<Mark>,
    },
    Get {
        slot: usize,
        path: Vec<Mark>,
    },
    Put {
        slot: usize,
        path: Vec<Mark>,
    },
    Insert {
        slot: usize,
        path: Vec<Mark>,
    },
    Delete {
        slot: usize,
        path: Vec<Mark>,
    },
    /// `from`.
    Least {
        slot: usize,
        path: Vec<Mark>,
    },
    Before {
        prefix: Prefix,
    },
    Apply {
        operator: Operator,
    },
    /// To an address where the left operand decides.
    And {
        to: usize,
    },
    Or {
        to: usize,
    },
    Pop,
    /// A turn is counted.
    Turn,
    /// The fault that there is no result.
    Missing,
    /// The end of a body that no function call began.
    End,
    Jump {
        to: usize,
    },
    Unless {
        to: usize,
    },
    /// `for` begins.
    Count {
        slot: usize,
        to: usize,
    },
    /// The next round of `for`.
    Upto {
        slot: usize,
        to: usize,
    },
    /// `return` without a value, and with one.
    Return,
    Result,
    /// The making of an object, as the one of this number of its process, for a slot.
    Make {
        kind: KindNo,
        count: usize,
        slot: usize,
    },
    /// A call of an operation, of the object in a slot, with so many arguments.
    Invoke {
        kind: KindNo,
        operation: OpNo,
        count: usize,
        object: usize,
    },
    /// The text of a line, with the names of the values of each argument's type, where that is an enumeration.
    Line {
        names: Vec<&'p [Name]>,
    },
    /// A fork with so many arguments.
    Fork {
        text: TextNo,
        count: usize,
    },
    /// The same on the member that the operand on top names.
    ForkOn {
        text: TextNo,
        count: usize,
    },
    /// A call of a function, by its number among the names of the top level.
    Call {
        function: usize,
        shapes: Vec<Shape>,
    },
    /// `addnode`, whose new nodes open so, and `deletenode`.
    AddNode {
        fresh: Value,
        shapes: Vec<Shape>,
    },
    DeleteNode {
        shapes: Vec<Shape>,
    },
    /// The body behind it is chosen where true is popped, and else the next guard stands at an address.
    Guard {
        to: usize,
    },
    /// All guards were false.
    Blocked,
}
