//! Types, lent.

ghost use Rattle.std.specs.Prelude.{◌≡◌, option_map};
ghost use Rattle.program_tables.specs.Layers.{type_seen};

use type_rules::{Base, DataType, Layer};

/// A type by reference: its layers, the outermost first, and what they are of.
#[derive(Clone, Copy)]
pub struct Seen<'a> {
    pub layers: &'a [Layer],
    pub base: Base,
}

impl<'a> Seen<'a> {
    /// A type, lent.
    pub fn new(kind: &'a DataType) -> Seen<'a>
        ensures { type_seen result ≡ kind.now }
    {
        Seen {
            layers: kind.layers.as_slice(),
            base: kind.base,
        }
    }

    /// A type, lent, where it is known.
    pub fn of_known(kind: &'a Option<DataType>) -> Option<Seen<'a>>
        ensures { option_map type_seen result ≡ kind.now }
    {
        match kind {
            None => None,
            Some(kind) => Some(Seen::new(kind)),
        }
    }
}
