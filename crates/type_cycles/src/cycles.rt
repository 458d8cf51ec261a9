//! Which declared types hold themselves.

ghost use Rattle.std.specs.Prelude.{◌≡◌, ℕ, List, IfOk};
ghost use Rattle.link_rules.specs.Units.{Source};
ghost use Rattle.type_forms.specs.Parts.{AreParts};
ghost use Rattle.type_cycles.specs.Leading.{AreRound, is_marked};
ghost use Rattle.type_cycles.specs.Components.{on_cycle_at};

use crate::components::{Membership, are_right, is_on_cycle};
use crate::levels::by_levels;
use crate::search::components_of;
use orca_base::{Items, NoMemory};
use std::alloc::Global;

// Of each type whether a part has its rank.
fn by_rank(
    alloc: Global,
    parts: &[Items<usize>],
    members: &[Membership],
) -> Result<Vec<bool>, NoMemory>
    ensures { IfOk result (λ v. (i : ℕ) → is_marked v.items i ≡ on_cycle_at parts.now members.now i) }
{
    let mut on_cycle = Vec::new(alloc);
    'numbers: for number in 0..parts.len() {
        on_cycle.push(is_on_cycle(parts, members, number))?;
    }
    Ok(on_cycle)
}

/// Of each name of the top level whether it declares a type that holds itself, by its number; the types that each names are given.
pub fn holds_themselves(alloc: Global, parts: &[Items<usize>]) -> Result<Vec<bool>, NoMemory>
    ensures { (us : List Source) → AreParts us parts.now → IfOk result (λ v. AreRound us v.items) }
{
    let members = components_of(alloc, parts)?;
    if are_right(parts, &members) {
        return by_rank(alloc, parts, &members);
    }
    by_levels(alloc, parts)
}
