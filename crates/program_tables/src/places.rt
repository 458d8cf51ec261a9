//! Places of names in lists.

ghost use Rattle.std.specs.Prelude.{◌≡◌, ◌<◌, ◌^◌, ℕ, List, None, Some, IfOk, OnOk, bytes_eq, if◌then◌else◌, map, position, unwrap_or};
ghost use Rattle.orca_syntax.specs.Shown.{head, typed_name};
ghost use Rattle.type_tables.specs.Entries.{entry, or_other};

use orca_base::NoMemory;
use orca_tree::{Head, TypedName};
use std::alloc::Global;
use std::collections::BTreeMap;
use type_tables::note;

/// The first place of each name in a list.
pub type Places<'p> = BTreeMap<&'p str, usize>;

/// The place of a name, or 0 where it has none.
pub fn place_or_zero(places: &Places<'_>, name: &str) -> usize
    ensures { result ≡ unwrap_or (entry places.now name.now) 0 }
{
    match places.get(name) {
        None => 0,
        Some(place) => *place,
    }
}

/// A number that has 16 bits, as such.
pub fn as_short(number: usize) -> u16
    ensures { number < 2 ^ 16 → result ≡ number }
{
    u16::try_from(number).unwrap_or(u16::MAX)
}

/// The places of a record's fields.
pub fn field_places<'p>(alloc: Global, fields: &'p [TypedName]) -> Result<Places<'p>, NoMemory>
    ensures { IfOk result (λ v. (n : List ℕ) → entry v n ≡ position (λ f. bytes_eq f.name.text n) (map typed_name fields.now)) }
{
    let mut places = BTreeMap::new(alloc);
    'fields: for (place, field) in fields.iter().enumerate() {
        note(&mut places, field.name.text.as_str(), place)?;
    }
    Ok(places)
}

/// The places of operations by their heads.
pub fn head_places<'p>(alloc: Global, heads: &'p [Head]) -> Result<Places<'p>, NoMemory>
    ensures { IfOk result (λ v. (n : List ℕ) → entry v n ≡ position (λ h. bytes_eq h.name.text n) (map head heads.now)) }
{
    let mut places = BTreeMap::new(alloc);
    'heads: for (place, head) in heads.iter().enumerate() {
        note(&mut places, head.name.text.as_str(), place)?;
    }
    Ok(places)
}
