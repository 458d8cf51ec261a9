//! Object types and their operations.

ghost use Rattle.std.specs.Prelude.{◌≡◌, ◌++◌, ◌∷◌, [], ℕ, List, IfOk, OnOk, if◌then◌else◌, length, map, slice_get, unwrap_or};
ghost use Rattle.link_rules.specs.Units.{Source};
ghost use Rattle.meaning_rules.specs.Programs.{is_specification as is_specified};
ghost use Rattle.type_forms.specs.Indexed.{Indexes};
ghost use Rattle.type_forms.specs.Seen.{top};
ghost use Rattle.type_tables.specs.Entries.{entry};
ghost use Rattle.type_tables.specs.Tables.{entry_in};
ghost use Rattle.program_tables.specs.Listed.{AreKinds, AreOperationPlaces, operation_places};

use crate::places::{Places, head_places, place_or_zero};
use link_rules::Role;
use orca_base::NoMemory;
use std::alloc::Global;
use std::collections::BTreeMap;
use type_forms::{Index, Top, What};

/// The specifications of a program in their order, and, by the number of each name of the top level, how many of them stand before it.
#[derive(Drop)]
pub struct Kinds<'p> {
    pub specifications: Vec<Top<'p>>,
    pub before: Vec<usize>,
}

// Whether a name of the top level is a specification.
fn is_specification(item: &Top<'_>) -> bool
    ensures { result ≡ is_specified (top item.now) }
{
    matches!(item.role, Role::Specification)
}

// Puts a name of the top level behind the others, where it is a specification.
fn add<'p>(specifications: &mut Vec<Top<'p>>, item: &Top<'p>) -> Result<(), NoMemory>
    ensures { OnOk result (map top specifications.new.items ≡
        map top specifications.old.items ++ (if is_specified (top item.now) then top item.now ∷ [] else [])) }
{
    if is_specification(item) {
        specifications.push(*item)?;
    }
    Ok(())
}

/// The object types of a program.
pub fn kinds_of<'p>(alloc: Global, index: &Index<'p>) -> Result<Kinds<'p>, NoMemory>
    ensures { (us : List Source) → Indexes index.now us → IfOk result (λ k. AreKinds us k) }
{
    let mut specifications = Vec::new(alloc);
    let mut before = Vec::new(alloc);
    let tops = index.tops();
    'tops: for item in tops {
        before.push(specifications.len())?;
        add(&mut specifications, item)?;
    }
    Ok(Kinds {
        specifications,
        before,
    })
}

// The places of the operations of what a name of the top level declares, where it is a specification.
fn item_operations<'p>(alloc: Global, item: &Top<'p>) -> Result<Places<'p>, NoMemory>
    ensures { IfOk result (λ v. (n : List ℕ) → entry v n ≡ operation_places (top item.now) n) }
{
    match item.what {
        What::Specified { heads } => head_places(alloc, heads),
        _ => Ok(BTreeMap::new(alloc)),
    }
}

/// The places of the operations of each specification, by its number.
pub fn operations_of<'p>(alloc: Global, index: &Index<'p>) -> Result<Vec<Places<'p>>, NoMemory>
    ensures { (us : List Source) → Indexes index.now us → IfOk result (λ v. AreOperationPlaces us v.items) }
{
    let mut all = Vec::new(alloc);
    let tops = index.tops();
    'tops: for item in tops {
        let own = item_operations(alloc, item)?;
        all.push(own)?;
    }
    Ok(all)
}

/// How many specifications stand before the name of the top level with this number.
pub fn specified_before(kinds: &Kinds<'_>, number: usize) -> usize
    ensures { result ≡ unwrap_or (slice_get kinds.now.before.items number) (length kinds.now.specifications.items) }
{
    match kinds.before.get(number) {
        None => kinds.specifications.len(),
        Some(before) => *before,
    }
}

/// The place of an operation in the specification with this number, or 0 where it has none of this name.
pub fn operation_at(operations: &[Places<'_>], number: usize, name: &str) -> usize
    ensures { result ≡ unwrap_or (entry_in operations.now number name.now) 0 }
{
    match operations.get(number) {
        None => 0,
        Some(places) => place_or_zero(places, name),
    }
}
