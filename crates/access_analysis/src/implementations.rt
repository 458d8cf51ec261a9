//! The implementation of an object type, by its name.

ghost use Rattle.std.specs.Prelude.{◌≡◌, map, option_map, slice_get};
ghost use Rattle.std.specs.List.{filter_map};
ghost use Rattle.orca_syntax.specs.Shown.{decl};
ghost use Rattle.link_rules.specs.Declarations.{declarations_of};
ghost use Rattle.link_rules.specs.Units.{source};
ghost use Rattle.meaning_rules.specs.Programs.{implementation as rule_implementation, implements};
ghost use Rattle.program_bodies.specs.Objects.{object_type_seen};

use link_rules::NamedUnit;
use orca_tree::Declaration;
use program_bodies::Implemented;
use type_forms::module_of;

// The implementation that a declaration of a module is, where it is one of this name.
fn implemented<'p>(home: &'p str, part: &'p Declaration, sought: &str) -> Option<Implemented<'p>>
    ensures { option_map object_type_seen result ≡ implements sought.now home.now (decl part.now) }
{
    match part {
        Declaration::Implementation {
            name,
            fields,
            operations,
            opening,
            ..
        } => {
            if name.text.as_str() == sought {
                Some(Implemented {
                    home,
                    fields,
                    operations,
                    begins: opening,
                })
            } else {
                None
            }
        }
        _ => None,
    }
}

// The first implementation of this name in a unit.
fn in_unit<'p>(unit: &'p NamedUnit, sought: &str) -> Option<Implemented<'p>>
    ensures { option_map object_type_seen result ≡
        slice_get (filter_map (λ x. implements sought.now x.by x.decl) (declarations_of (source unit.now))) 0 }
{
    let home = module_of(unit);
    'declarations: for part in &unit.unit.declarations {
        let own = implemented(home, part, sought);
        if own.is_some() {
            return own;
        }
    }
    None
}

/// The first implementation of this name.
pub fn implementation<'p>(units: &'p [NamedUnit], sought: &str) -> Option<Implemented<'p>>
    ensures { option_map object_type_seen result ≡ rule_implementation (map source units.now) sought.now }
{
    'units: for unit in units {
        let own = in_unit(unit, sought);
        if own.is_some() {
            return own;
        }
    }
    None
}
