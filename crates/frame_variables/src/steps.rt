//! Steps through values, places of variables, and what calls pass.

ghost use Rattle.std.specs.Prelude.{◌≡◌, option_map};
ghost use Rattle.value_core.specs.View.{datum_of};
ghost use Rattle.frame_variables.specs.Gives.{passed_of};
ghost use Rattle.frame_variables.specs.Lent.{given_by, place_of};

use std::mem;
use value_core::Value;

/// A step from a value to one of its parts. Its numbers are as wide as those of types.
#[derive(Clone, Copy, Debug)]
pub enum Step {
    /// To the part of an array at an index; the array begins at this low bound.
    Index { low: i128, index: i64 },
    /// To the field of a record at this place from 0.
    Field { place: usize },
    /// To the value of the node with this name.
    Node { name: i64 },
}

/// Where a value is to go: a variable, by its place in the frame, and a path in it.
#[derive(Drop)]
pub struct Target {
    pub slot: usize,
    pub path: Vec<Step>,
}

/// What an argument passes.
#[derive(Drop)]
pub enum Passed {
    /// A value.
    Given { value: Value },
    /// The place where the parameter's value goes when the function returns.
    Lent { to: Target },
}

impl Passed {
    /// The value that is given, moved out, where it isn't a place that is lent.
    pub fn take(&mut self) -> Option<Value>
        ensures value { option_map datum_of result ≡ given_by (passed_of self.old) }
        ensures place { place_of (passed_of self.new) ≡ place_of (passed_of self.old) }
    {
        match self {
            Passed::Given { value } => Some(mem::replace(value, Value::Int(0))),
            Passed::Lent { .. } => None,
        }
    }
}
