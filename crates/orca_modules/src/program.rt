//! Programs.

ghost use Rattle.std.specs.Prelude.{◌≡◌, map};
ghost use Rattle.link_rules.specs.Units.{source};
ghost use Rattle.link_rules.specs.Rules.{Links};

use link_rules::NamedUnit;

/// The units of a program, in the order of their files. They link, and each is that of a text (`NamedUnit`).
#[derive(Drop)]
pub struct Program {
    pub units: Vec<NamedUnit>,
    pub ghost links: { Links (map source units.items) },
}
