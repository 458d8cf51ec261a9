//! Sets of names.

ghost use Rattle.std.specs.Prelude.{◌≡◌, ◌||◌, ℕ, List, OnOk, bytes_eq};
ghost use Rattle.orca_modules.specs.Seen.{has};

use orca_base::NoMemory;
use std::collections::BTreeMap;

/// A set of names.
pub type Names<'a> = BTreeMap<&'a str, ()>;

/// Whether a name is in the set.
pub fn holds(names: &Names<'_>, name: &str) -> bool
    ensures { result ≡ has names.now name.now }
{
    names.contains_key(name)
}

/// Puts a name into the set.
pub fn add<'a>(names: &mut Names<'a>, name: &'a str) -> Result<(), NoMemory>
    ensures { OnOk result ((n : List ℕ) → has names.new n ≡ (bytes_eq name.now n || has names.old n)) }
{
    names.insert(name, ())?;
    Ok(())
}
