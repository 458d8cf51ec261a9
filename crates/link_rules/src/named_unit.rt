//! A unit of a program.

ghost use Rattle.orca_syntax.specs.TextSyntax.{IsOfText};

use orca_base::Text;
use orca_tree::Unit;

/// A unit with the name of the file that it was read from. It is that of a text, and nests no deeper than may be.
#[derive(Drop)]
pub struct NamedUnit {
    pub file: Text,
    pub unit: Unit,
    pub ghost read: { ∥ IsOfText unit ∥₁ },
}
