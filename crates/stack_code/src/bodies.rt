//! Parts of a program's code.

use crate::body_code::BodyCode;
use value_core::Value;

/// A body: its code, what its variables open with, and how many slots more its loops need.
#[derive(Drop)]
pub struct PackedBody<'p> {
    pub code: BodyCode<'p>,
    pub opens: Vec<Value>,
    pub spare: usize,
}

/// An operation, whose guards are numbered from `first`: from 1, or where it has none 0.
#[derive(Drop)]
pub struct PackedOperation<'p> {
    pub body: PackedBody<'p>,
    pub first: u16,
}

/// An object type: how an object is made, and its operations.
#[derive(Drop)]
pub struct PackedType<'p> {
    pub making: PackedBody<'p>,
    pub operations: Vec<PackedOperation<'p>>,
}
