//! The implementations of a program, by name.

ghost use Rattle.std.specs.Prelude.{◌≡◌, ℕ, List, IfOk, OnOk, map, option_map, slice_get};
ghost use Rattle.std.specs.List.{filter_map};
ghost use Rattle.orca_syntax.specs.Shown.{decl};
ghost use Rattle.link_rules.specs.Declarations.{declarations_of};
ghost use Rattle.link_rules.specs.Units.{source};
ghost use Rattle.type_tables.specs.Entries.{entry, or_other};
ghost use Rattle.meaning_rules.specs.Programs.{implementation, implements};
ghost use Rattle.program_bodies.specs.Objects.{object_type_seen};

use link_rules::NamedUnit;
use orca_base::NoMemory;
use orca_tree::{Declaration, Operation, Statement, Variables};
use std::alloc::Global;
use std::collections::BTreeMap;
use type_forms::module_of;
use type_tables::note;

/// An implementation, in its module.
#[derive(Clone, Copy)]
pub struct Implemented<'p> {
    pub home: &'p str,
    pub fields: &'p [Variables],
    pub operations: &'p [Operation],
    pub begins: &'p Option<Vec<Statement>>,
}

/// The first implementation of each name.
pub type Implementations<'p> = BTreeMap<&'p str, Implemented<'p>>;

// Notes a declaration of a module, where it is an implementation and no other of its name is known.
fn note_declaration<'p>(
    table: &mut Implementations<'p>,
    home: &'p str,
    part: &'p Declaration,
) -> Result<(), NoMemory>
    ensures { OnOk result ((n : List ℕ) → option_map object_type_seen (entry table.new n) ≡
        or_other (option_map object_type_seen (entry table.old n)) (implements n home.now (decl part.now))) }
{
    match part {
        Declaration::Implementation {
            name,
            fields,
            operations,
            opening,
            ..
        } => note(
            table,
            name.text.as_str(),
            Implemented {
                home,
                fields,
                operations,
                begins: opening,
            },
        ),
        _ => Ok(()),
    }
}

// Notes the implementations of a unit.
fn note_unit<'p>(table: &mut Implementations<'p>, unit: &'p NamedUnit) -> Result<(), NoMemory>
    ensures { OnOk result ((n : List ℕ) → option_map object_type_seen (entry table.new n) ≡
        or_other (option_map object_type_seen (entry table.old n))
        (slice_get (filter_map (λ x. implements n x.by x.decl) (declarations_of (source unit.now))) 0)) }
{
    let home = module_of(unit);
    'declarations: for part in &unit.unit.declarations {
        note_declaration(table, home, part)?;
    }
    Ok(())
}

/// The implementations of units, by name.
pub fn implementations_of<'p>(
    alloc: Global,
    units: &'p [NamedUnit],
) -> Result<Implementations<'p>, NoMemory>
    ensures { IfOk result (λ v. (n : List ℕ) →
        option_map object_type_seen (entry v n) ≡ implementation (map source units.now) n) }
{
    let mut table = BTreeMap::new(alloc);
    'units: for unit in units {
        note_unit(&mut table, unit)?;
    }
    Ok(table)
}
