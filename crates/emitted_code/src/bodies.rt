//! The bodies of a program.

use crate::listing::Listing;
use orca_base::TextNo;
use value_core::Value;

/// The code of a body, what its variables open with, and how many slots more its loops need.
#[derive(Drop)]
pub struct EmittedBody<'p> {
    pub code: Listing<'p>,
    pub opens: Vec<Value>,
    pub spare: usize,
}

/// An operation, whose guards are numbered from `first`: from 1, or where it has none 0.
#[derive(Drop)]
pub struct EmittedOperation<'p> {
    pub body: EmittedBody<'p>,
    pub first: u16,
}

/// An object type: how an object is made, and its operations.
#[derive(Drop)]
pub struct EmittedType<'p> {
    pub making: EmittedBody<'p>,
    pub operations: Vec<EmittedOperation<'p>>,
}

/// A program: at the number of each name of the top level a body, where that is a function; the texts of processes, and which of them
/// begins; and the object types, from number 1 on, each where it is implemented.
#[derive(Drop)]
pub struct Emitted<'p> {
    pub functions: Vec<Option<EmittedBody<'p>>>,
    pub texts: Vec<EmittedBody<'p>>,
    pub main: TextNo,
    pub types: Vec<Option<EmittedType<'p>>>,
}
