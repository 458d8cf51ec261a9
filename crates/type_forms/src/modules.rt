//! What modules see.

ghost use Rattle.std.specs.Prelude.{◌≡◌, ℕ, List, ◌||◌, ◌&&◌, false, OnOk, IfOk, bytes_eq, map};
ghost use Rattle.std.specs.List.{list_any};
ghost use Rattle.link_rules.specs.Units.{imports, imports_of, source};
ghost use Rattle.type_forms.specs.Seen.{has, is_imported};

use crate::tops::module_of;
use link_rules::NamedUnit;
use orca_base::NoMemory;
use orca_tree::Name;
use std::alloc::Global;
use std::collections::BTreeMap;

/// A set of names.
pub type Names<'a> = BTreeMap<&'a str, ()>;

/// Whether a name is in the set.
pub fn holds(names: &Names<'_>, name: &str) -> bool
    ensures { result ≡ has names.now name.now }
{
    names.contains_key(name)
}

/// Puts a name into the set.
pub fn add<'a>(names: &mut Names<'a>, name: &'a str) -> Result<(), NoMemory>
    ensures { OnOk result ((n : List ℕ) → has names.new n ≡ (bytes_eq name.now n || has names.old n)) }
{
    names.insert(name, ())?;
    Ok(())
}

// Puts names into the set.
fn add_all<'a>(names: &mut Names<'a>, all: &'a [Name]) -> Result<(), NoMemory>
    ensures { OnOk result ((n : List ℕ) → has names.new n ≡ (has names.old n || list_any (λ i. bytes_eq i.text n) all.now)) }
{
    'names: for name in all {
        add(names, name.text.as_str())?;
    }
    Ok(())
}

// Puts what a unit imports into the set, where it is of this module.
fn add_imports<'a>(names: &mut Names<'a>, unit: &'a NamedUnit, by: &str) -> Result<(), NoMemory>
    ensures { OnOk result ((n : List ℕ) →
        has names.new n ≡ (has names.old n || list_any (is_imported by.now n) (imports_of (source unit.now)))) }
{
    if module_of(unit) == by {
        add_all(names, &unit.unit.imports)?;
    }
    Ok(())
}

/// The modules that a module imports.
pub fn imported_by<'a>(
    alloc: Global,
    units: &'a [NamedUnit],
    by: &str,
) -> Result<Names<'a>, NoMemory>
    ensures { IfOk result (λ v. (n : List ℕ) → has v n ≡ list_any (is_imported by.now n) (imports (map source units.now))) }
{
    let mut names = BTreeMap::new(alloc);
    'units: for unit in units {
        add_imports(&mut names, unit, by)?;
    }
    Ok(names)
}
