//! Programs that break no rule of typing.

ghost use Rattle.std.specs.Prelude.{map};
ghost use Rattle.link_rules.specs.Units.{source};
ghost use Rattle.type_rules.specs.Breaches.{IsWellTyped};
ghost use Rattle.type_decls.specs.Symbols.{AreSymbols};

use crate::symbols::Symbols;
use orca_modules::Program;

/// A program that links and breaks no rule of typing, beside the tables of its declarations. It is the program's: each table is what
/// type_rules says of the program's sources.
#[derive(Drop)]
pub struct Checked<'p> {
    pub program: &'p Program,
    pub symbols: Symbols<'p>,
    pub ghost well_typed: { IsWellTyped (map source program.now.units.items) },
    pub ghost tables: { ∥ AreSymbols (map source program.now.units.items) symbols ∥₁ },
}
