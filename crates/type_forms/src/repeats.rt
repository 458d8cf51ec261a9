//! Names that are declared twice.

ghost use Rattle.std.specs.Prelude.{◌≡◌, ℕ, List, [], IfOk, OnOk, map};
ghost use Rattle.type_rules.specs.Rules.{each_new as rule_each_new, is_among};
ghost use Rattle.type_rules.specs.Scopes.{texts};
ghost use Rattle.type_forms.specs.Finding.{FirstOf};
ghost use Rattle.type_forms.specs.Seen.{has, lent};

use crate::found::{asks, lesser};
use crate::modules::{Names, add, holds};
use orca_base::NoMemory;
use orca_tree::Name;
use std::alloc::Global;
use std::collections::BTreeMap;
use type_rules::Breach;

/// The first of the names that stands behind another of its text, as a breach of this rule.
pub fn each_new(alloc: Global, rule: u8, names: &[&Name]) -> Result<Option<Breach>, NoMemory>
    ensures { IfOk result (λ o. FirstOf o (rule_each_new rule [] (lent names.now))) }
{
    let mut before = BTreeMap::new(alloc);
    let mut first = None;
    'names: for name in names {
        let is_new = !holds(&before, name.text.as_str());
        first = lesser(first, asks(rule, name.at, is_new));
        add(&mut before, name.text.as_str())?;
    }
    Ok(first)
}

/// The set of the texts of these names.
pub fn name_set<'a>(alloc: Global, names: &[&'a Name]) -> Result<Names<'a>, NoMemory>
    ensures { IfOk result (λ v. (n : List ℕ) → has v n ≡ is_among (texts (lent names.now)) n) }
{
    let mut set = BTreeMap::new(alloc);
    'names: for name in names {
        add(&mut set, name.text.as_str())?;
    }
    Ok(set)
}
