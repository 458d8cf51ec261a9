//! The rules of specifications.

ghost use Rattle.std.specs.Prelude.{◌≡◌, ◌++◌, List, [], IfOk, drop, flat_map, map, slice_get};
ghost use Rattle.orca_syntax.specs.Shown.{head as head_shown};
ghost use Rattle.link_rules.specs.Units.{Source};
ghost use Rattle.type_rules.specs.TopLevel.{top_names};
ghost use Rattle.type_rules.specs.Scopes.{head_view};
ghost use Rattle.type_rules.specs.Declarations as rules;
ghost use Rattle.type_forms.specs.Finding.{FirstOf};
ghost use Rattle.type_forms.specs.Forms.{AreTyped};
ghost use Rattle.type_forms.specs.Indexed.{Indexes};
ghost use Rattle.type_forms.specs.Seen.{lent, what};
ghost use Rattle.type_decls.specs.Contexts.{IsContext};

use crate::context::Context;
use crate::heads::head_at;
use crate::locals::{result_breach, values_breach};
use crate::names::are_free;
use orca_base::NoMemory;
use orca_tree::{Head, Name};
use std::alloc::Global;
use type_forms::{Forms, Index, Top, View, What, breaks, each_new, lesser, name_set};
use type_rules::Breach;
use type_tables::value_names;

// The names of heads.
fn head_names(alloc: Global, heads: &[Head]) -> Result<Vec<&Name>, NoMemory>
    ensures { IfOk result (λ v. lent v.items ≡ map (λ h. h.name) (map head_shown heads.now)) }
{
    let mut names = Vec::new(alloc);
    'heads: for head in heads {
        names.push(&head.name)?;
    }
    Ok(names)
}

// The first parameter of a head that bears the name of a visible declaration of the top level.
fn free_in(
    alloc: Global,
    context: Context<'_, '_>,
    home: &str,
    head: &Head,
) -> Result<Option<Breach>, NoMemory>
    ensures { (us : List Source) → IsContext us context.entry →
        IfOk result (λ o. FirstOf o (rules.are_free us home.now [] (map (λ t. t.name) (head_shown head.now).parameters))) }
{
    let names = value_names(alloc, &head.parameters)?;
    Ok(are_free(context.tables.forms.index, home, context.none, &names))
}

// The first parameter of heads that bears the name of a visible declaration of the top level.
fn all_free(
    alloc: Global,
    context: Context<'_, '_>,
    home: &str,
    heads: &[Head],
) -> Result<Option<Breach>, NoMemory>
    ensures { (us : List Source) → IsContext us context.entry → IfOk result (λ o. FirstOf o
        (flat_map (λ h. rules.are_free us home.now [] (map (λ t. t.name) h.parameters)) (map head_shown heads.now))) }
{
    let mut first = None;
    'heads: for head in heads {
        let own = free_in(alloc, context, home, head)?;
        first = lesser(first, own);
    }
    Ok(first)
}

// The first breach of the types in a head.
fn types_in(
    alloc: Global,
    forms: Forms<'_, '_>,
    home: &str,
    head: &Head,
) -> Result<Option<Breach>, NoMemory>
    ensures { (us : List Source) → AreTyped us forms.entry → IfOk result (λ o. FirstOf o
        (rules.values_breaches (head_view us home.now (head_shown head.now)) (head_shown head.now).parameters
        ++ rules.result_breaches (head_view us home.now (head_shown head.now)) (head_shown head.now).result)) }
{
    let names = value_names(alloc, &head.parameters)?;
    let set = name_set(alloc, &names)?;
    let view = View { home, names: &set };
    let given = values_breach(alloc, forms, view, &head.parameters)?;
    let back = result_breach(alloc, forms, view, &head.result)?;
    Ok(lesser(given, back))
}

// The first breach of the types in heads.
fn all_types(
    alloc: Global,
    forms: Forms<'_, '_>,
    home: &str,
    heads: &[Head],
) -> Result<Option<Breach>, NoMemory>
    ensures { (us : List Source) → AreTyped us forms.entry → IfOk result (λ o. FirstOf o
        (flat_map (λ h. rules.values_breaches (head_view us home.now h) h.parameters ++ rules.result_breaches (head_view us home.now h) h.result)
        (map head_shown heads.now))) }
{
    let mut first = None;
    'heads: for head in heads {
        let own = types_in(alloc, forms, home, head)?;
        first = lesser(first, own);
    }
    Ok(first)
}

// How many operations a name of the top level has, if it is an implementation.
fn operations_of(item: &Top<'_>) -> Option<usize>
    ensures { result ≡ rules.operations_of_what (what item.now.what) }
{
    match item.what {
        What::Implemented { operations } => Some(operations.len()),
        _ => None,
    }
}

// How many operations the implementation with this number has.
fn operations_at(index: &Index<'_>, number: usize) -> Option<usize>
    ensures { (us : List Source) → Indexes index.now us → result ≡ rules.operations_of (slice_get (top_names us) number) }
{
    match index.item(number) {
        None => None,
        Some(item) => operations_of(item),
    }
}

// How many operations the implementation with this name has.
fn operation_count(index: &Index<'_>, name: &str) -> Option<usize>
    ensures { (us : List Source) → Indexes index.now us → result ≡ rules.operation_count us name.now }
{
    match index.implementation(name) {
        None => None,
        Some(number) => operations_at(index, number),
    }
}

// The first head behind so many.
fn lacks(heads: &[Head], count: usize) -> Option<Breach>
    ensures { FirstOf result (rules.lacks (drop count (map head_shown heads.now))) }
{
    match head_at(heads, count) {
        None => None,
        Some(head) => breaks(12, head.at),
    }
}

// The first head that an implementation with so many operations lacks.
fn lacking(heads: &[Head], count: Option<usize>) -> Option<Breach>
    ensures { FirstOf result (rules.lacking (map head_shown heads.now) count) }
{
    match count {
        None => None,
        Some(count) => lacks(heads, count),
    }
}

/// The first breach of a specification.
pub fn specification_breach(
    alloc: Global,
    context: Context<'_, '_>,
    home: &str,
    name: &Name,
    heads: &[Head],
) -> Result<Option<Breach>, NoMemory>
    ensures { (us : List Source) → IsContext us context.entry →
        IfOk result (λ o. FirstOf o (rules.specification_breaches us home.now name.now (map head_shown heads.now))) }
{
    let names = head_names(alloc, heads)?;
    let again = each_new(alloc, 3, &names)?;
    let free = all_free(alloc, context, home, heads)?;
    let types = all_types(alloc, context.tables.forms, home, heads)?;
    let count = operation_count(context.tables.forms.index, name.text.as_str());
    Ok(lesser(again, lesser(free, lesser(types, lacking(heads, count)))))
}
