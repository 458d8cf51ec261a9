//! Numbers of names.

ghost use Rattle.std.specs.Prelude.{◌≡◌, ℕ, List, None, Some, OnOk, IfOk, if◌then◌else◌, ◌&&◌, bytes_eq, map};
ghost use Rattle.std.specs.List.{position_from};
ghost use Rattle.link_rules.specs.Rules.{is_role};
ghost use Rattle.type_rules.specs.TopLevel.{is_as, or_else};
ghost use Rattle.type_forms.specs.Seen.{number_in, top};

use crate::tops::Top;
use link_rules::Role;
use orca_base::NoMemory;
use std::alloc::Global;
use std::collections::BTreeMap;

/// A number for each of some names.
pub type Numbers<'a> = BTreeMap<&'a str, usize>;

/// The number of a name.
pub fn number(numbers: &Numbers<'_>, name: &str) -> Option<usize>
    ensures { result ≡ number_in numbers.now name.now }
{
    numbers.get(name).copied()
}

// Notes a number for a name, where it passes, unless the name has one.
fn note<'a>(
    numbers: &mut Numbers<'a>,
    passes: bool,
    name: &'a str,
    number: usize,
) -> Result<(), NoMemory>
    ensures { OnOk result ((n : List ℕ) →
        number_in numbers.new n ≡ or_else (number_in numbers.old n) (if passes && bytes_eq name.now n then Some number else None)) }
{
    if passes && !numbers.contains_key(name) {
        numbers.insert(name, number)?;
    }
    Ok(())
}

// Whether a name is declared as this.
fn is_declared(item: &Top<'_>, role: Role) -> bool
    ensures { result ≡ is_role role item.now.role }
{
    matches!(
        (role, item.role),
        (Role::Module, Role::Module)
            | (Role::Specification, Role::Specification)
            | (Role::Implementation, Role::Implementation)
            | (Role::Other, Role::Other)
    )
}

/// The first number of each name that is declared as this.
pub fn numbers_as<'a>(alloc: Global, tops: &[Top<'a>], role: Role) -> Result<Numbers<'a>, NoMemory>
    ensures { IfOk result (λ v. (n : List ℕ) → number_in v n ≡ position_from (is_as role n) 0 (map top tops.now)) }
{
    let mut numbers = BTreeMap::new(alloc);
    'tops: for (number, item) in tops.iter().enumerate() {
        let passes = is_declared(item, role);
        note(&mut numbers, passes, item.name, number)?;
    }
    Ok(numbers)
}
