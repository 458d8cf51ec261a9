//! The names that declarations declare.

ghost use Rattle.std.specs.Prelude.{◌≡◌, ◌&&◌, ◌++◌, List, ℕ, IfOk, not, flat_map};
ghost use Rattle.link_rules.specs.Units.{Source};
ghost use Rattle.type_rules.specs.TopLevel.{sees};
ghost use Rattle.type_rules.specs.Rules.{are_new, is_among};
ghost use Rattle.type_rules.specs.Declarations as rules;
ghost use Rattle.type_forms.specs.Finding.{FirstOf};
ghost use Rattle.type_forms.specs.Indexed.{Indexes};
ghost use Rattle.type_forms.specs.Seen.{lent};
ghost use Rattle.type_decls.specs.Bodies.{AreNames};

use orca_base::NoMemory;
use orca_tree::Name;
use std::alloc::Global;
use type_forms::{Index, Names, asks, each_new, holds, lesser};
use type_rules::Breach;

// Whether no visible declaration of the top level bears a name, nor a field.
fn is_free(index: &Index<'_>, home: &str, fields: &Names<'_>, name: &Name) -> bool
    ensures { (us : List Source) → Indexes index.now us → (fs : List (List ℕ)) → AreNames fields.now fs →
        result ≡ (not (sees us home.now name.now.text) && not (is_among fs name.now.text)) }
{
    !index.sees(home, name.text.as_str()) && !holds(fields, name.text.as_str())
}

/// The first of the names that a visible declaration of the top level bears, or a field.
pub fn are_free(
    index: &Index<'_>,
    home: &str,
    fields: &Names<'_>,
    names: &[&Name],
) -> Option<Breach>
    ensures { (us : List Source) → Indexes index.now us → (fs : List (List ℕ)) → AreNames fields.now fs →
        FirstOf result (rules.are_free us home.now fs (lent names.now)) }
{
    let mut first = None;
    'names: for name in names {
        let own = asks(4, name.at, is_free(index, home, fields, name));
        first = lesser(first, own);
    }
    first
}

/// The first of the names that stands behind another of its text, or that a visible declaration of the top level bears, or a field.
pub fn named_well(
    alloc: Global,
    index: &Index<'_>,
    home: &str,
    fields: &Names<'_>,
    names: &[&Name],
) -> Result<Option<Breach>, NoMemory>
    ensures { (us : List Source) → Indexes index.now us → (fs : List (List ℕ)) → AreNames fields.now fs →
        IfOk result (λ o. FirstOf o (are_new (lent names.now) ++ rules.are_free us home.now fs (lent names.now))) }
{
    let again = each_new(alloc, 3, names)?;
    Ok(lesser(again, are_free(index, home, fields, names)))
}

/// The breach of a name that is `OrcaMain`, and no process.
pub fn no_main(name: &Name) -> Option<Breach>
    ensures { FirstOf result (rules.no_main name.now) }
{
    asks(16, name.at, !is_main(name))
}

/// Whether a name is `OrcaMain`.
pub fn is_main(name: &Name) -> bool
    ensures { result ≡ rules.is_main name.now }
{
    name.text.as_str() == "OrcaMain"
}

/// The first of the names that is `OrcaMain`, and no process.
pub fn none_main(names: &[Name]) -> Option<Breach>
    ensures { FirstOf result (flat_map rules.no_main names.now) }
{
    let mut first = None;
    'names: for name in names {
        first = lesser(first, no_main(name));
    }
    first
}
