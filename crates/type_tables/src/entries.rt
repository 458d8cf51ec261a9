//! Tables by names.

ghost use Rattle.std.specs.Prelude.{◌≡◌, ℕ, List, Some, None, OnOk, if◌then◌else◌, bytes_eq};
ghost use Rattle.type_tables.specs.Entries.{entry, or_other};

use orca_base::NoMemory;
use std::collections::BTreeMap;

/// Notes a value for a name, unless it has one.
pub fn note<'p, T: Drop>(
    table: &mut BTreeMap<&'p str, T>,
    name: &'p str,
    value: T,
) -> Result<(), NoMemory>
    ensures { OnOk result ((n : List ℕ) →
        entry table.new n ≡ or_other (entry table.old n) (if bytes_eq name.now n then Some value else None)) }
{
    if !table.contains_key(name) {
        table.insert(name, value)?;
    }
    Ok(())
}
