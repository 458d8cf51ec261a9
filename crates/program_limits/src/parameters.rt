//! How many parameters there are.

ghost use Rattle.std.specs.Prelude.{◌≡◌, length, map, nat_le, IfOk};
ghost use Rattle.std.specs.List.{list_all};
ghost use Rattle.orca_base.specs.declared.limits.TheConstants.{PARAMETERS as MOST};
ghost use Rattle.link_rules.specs.Units.{source};
ghost use Rattle.type_rules.specs.TopLevel.{top_names as names_of_top};
ghost use Rattle.type_forms.specs.Seen.{what};
ghost use Rattle.accepted_law.specs.Limits as limits;

use link_rules::NamedUnit;
use orca_base::{NoMemory, PARAMETERS};
use orca_tree::{Head, Operation};
use std::alloc::Global;
use type_forms::{Top, What, top_names};

// Whether so many parameters are few enough.
fn are_few(count: usize) -> bool
    ensures { result ≡ nat_le count MOST }
{
    count <= PARAMETERS as usize
}

// Whether each of these operations has few enough parameters, by its head.
fn heads_have_few(heads: &[Head]) -> bool
    ensures { result ≡ list_all (λ h. nat_le (length h.parameters.items) MOST) heads.now }
{
    heads.iter().all(|head| are_few(head.parameters.len()))
}

// Whether each of these operations has few enough parameters.
fn operations_have_few(operations: &[Operation]) -> bool
    ensures { result ≡ list_all (λ o. nat_le (length o.head.parameters.items) MOST) operations.now }
{
    operations
        .iter()
        .all(|operation| are_few(operation.head.parameters.len()))
}

// Whether a name of the top level stands for what has few enough parameters.
fn has_few(is: What<'_>) -> bool
    ensures { result ≡ limits.has_few_parameters (what is.entry) }
{
    match is {
        What::Function { parameters, .. } => are_few(parameters.len()),
        What::Process { parameters, .. } => are_few(parameters.len()),
        What::Specified { heads } => heads_have_few(heads),
        What::Implemented { operations } => operations_have_few(operations),
        _ => true,
    }
}

// Whether each of these names stands for what has few enough parameters.
fn tops_have_few(tops: &[Top<'_>]) -> bool
    ensures { result ≡ list_all (λ t. limits.has_few_parameters (what t.what)) tops.now }
{
    tops.iter().all(|top| has_few(top.what))
}

// Whether each function, process and operation of a program has few enough parameters.
pub(crate) fn have_few(alloc: Global, units: &[NamedUnit]) -> Result<bool, NoMemory>
    ensures { IfOk result (λ b. b ≡ list_all (λ t. limits.has_few_parameters t.what) (names_of_top (map source units.now))) }
{
    let all = top_names(alloc, units)?;
    Ok(tops_have_few(&all))
}
