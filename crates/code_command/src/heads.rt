//! The heads of bodies.

use orca_base::{NoMemory, Place, Text};
use std::alloc::Global;

/// What a body is.
#[derive(Clone, Copy)]
pub enum Kind<'a> {
    Function,
    Process,
    /// The making of an object.
    Making,
    /// An operation of this object type.
    Operation { of: &'a str },
}

/// A body's name, and where that stands.
#[derive(Clone, Copy)]
pub struct Head<'a> {
    pub kind: Kind<'a>,
    pub file: &'a str,
    pub at: Place,
    pub name: &'a str,
}

impl Head<'_> {
    /// The head as a note: the file and the line of the name, what the body is, and its name.
    pub fn note(&self, alloc: Global) -> Result<Text, NoMemory> {
        let mut note = String::new(alloc);
        let Head { file, at, name, .. } = *self;
        let line = at.line;
        write!(note, "{file}:{line}: ")?;
        match self.kind {
            Kind::Function => write!(note, "function {name}")?,
            Kind::Process => write!(note, "process {name}")?,
            Kind::Making => write!(note, "object {name}")?,
            Kind::Operation { of } => write!(note, "operation {of}${name}")?,
        }
        Ok(Text::new(note))
    }
}
