//! What a declared type is.

ghost use Rattle.std.specs.Prelude.{◌≡◌, ◌+◌, Option, IfOk, List, map, max, min, option_map};
ghost use Rattle.orca_syntax.specs.Shown.{definition as definition_shown, kind as kind_shown, typed_name};
ghost use Rattle.link_rules.specs.Units.{Source};
ghost use Rattle.type_rules.specs.Rules.{Found as RuleFound, fits};
ghost use Rattle.type_rules.specs.declared.types.Measured.{Measured as MeasuredType};
ghost use Rattle.type_rules.specs.Constants as rules;
ghost use Rattle.type_rules.specs.TypePhrases as phrases;
ghost use Rattle.type_forms.specs.Forms.{AreForms};
ghost use Rattle.type_forms.specs.Finding.{Finds};
ghost use Rattle.type_forms.specs.Measures.{cut, cut_found, declared_in};
ghost use Rattle.type_forms.specs.Seen.{lent};
ghost use Rattle.type_forms.specs.Views.{IsView};

use crate::bounds::View;
use crate::found::{Found, asks, lesser};
use crate::measures::single;
use crate::phrases::{Forms, data_phrase};
use crate::repeats::each_new;
use orca_base::{NoMemory, Place, VALUE_NESTING, VALUE_SIZE};
use orca_tree::{Definition, Name, TypedName};
use std::alloc::Global;
use type_rules::{Base, Measured};

// The sum of two sizes, where it is at most 10,000, and else 10,001.
fn size_of_both(one: u32, other: u32) -> u32
    ensures { result ≡ min (one + other) 10001 }
{
    let both = one as u64 + other as u64;
    if both >= 10_001 {
        return 10_001;
    }
    both as u32
}

// The nesting of a record with a field that nests so deep more, where it is at most 16, and else 17.
fn nesting_of_both(field: u32, rest: u32) -> u32
    ensures { result ≡ min (max (1 + field) rest) 17 }
{
    if field >= 16 || rest >= 17 {
        return 17;
    }
    if field + 1 > rest {
        return field + 1;
    }
    rest
}

// A record with a field more, where both are known, its size and nesting cut off above the limits.
fn with_field(field: Option<Measured>, rest: Option<Measured>) -> Option<Measured>
    ensures { (r : Option MeasuredType) → rest ≡ option_map cut r → result ≡ option_map cut (phrases.with_field field r) }
{
    match (field, rest) {
        (Some(field), Some(rest)) => Some(Measured {
            kind: rest.kind,
            size: size_of_both(field.size, rest.size),
            nesting: nesting_of_both(field.nesting, rest.nesting),
        }),
        _ => None,
    }
}

// A record with a field more, or the first breach in both.
fn field_before(field: Found<Measured>, rest: Found<Measured>) -> Found<Measured>
    ensures { (f r : RuleFound MeasuredType) → Finds field f → Finds rest (cut_found r) →
        Finds result (cut_found (phrases.field_before f r)) }
{
    let first = lesser(field.first, rest.first);
    Found::unless(first, with_field(field.is, rest.is))
}

// The record of these fields, its size and nesting cut off above the limits.
fn record_of(
    alloc: Global,
    forms: Forms<'_, '_>,
    view: View<'_, '_>,
    number: usize,
    fields: &[TypedName],
) -> Result<Found<Measured>, NoMemory>
    ensures { (us : List Source) → AreForms us forms.entry → (w : rules.View) → IsView us view.entry w →
        IfOk result (λ f. Finds f
        (cut_found (phrases.record_of (declared_in forms.entry.types.now) w number (map typed_name fields.now)))) }
{
    let mut found = Found::new(Some(single(alloc, Base::Record { number })));
    let mut left = fields.len();
    'fields: while left > 0 {
        left -= 1;
        let field = data_phrase(alloc, forms, view, &fields[left].kind)?;
        found = field_before(field, found);
    }
    Ok(found)
}

// Whether a type is within the limits, where it is known.
fn is_small(found: &Option<Measured>) -> bool
    ensures { result ≡ fits phrases.is_small found.now }
{
    match found {
        None => true,
        Some(measured) => { measured.size <= VALUE_SIZE && measured.nesting <= VALUE_NESTING }
    }
}

// A type within the limits, of one whose size and nesting are cut off above them.
fn within_limits(at: Place, found: Found<Measured>) -> Found<Measured>
    ensures { (f : RuleFound MeasuredType) → Finds found (cut_found f) → Finds result (phrases.within_limits at f) }
{
    let breach = asks(10, at, is_small(&found.is));
    found.with(breach)
}

// The names of fields.
fn field_names(alloc: Global, fields: &[TypedName]) -> Result<Vec<&Name>, NoMemory>
    ensures { IfOk result (λ v. lent v.items ≡ map (λ f. f.name) (map typed_name fields.now)) }
{
    let mut names = Vec::new(alloc);
    'fields: for field in fields {
        names.push(&field.name)?;
    }
    Ok(names)
}

/// What a declared type is, by its number, where the types that it names are those of the table.
pub fn definition(
    alloc: Global,
    forms: Forms<'_, '_>,
    view: View<'_, '_>,
    number: usize,
    of: &Definition,
) -> Result<Found<Measured>, NoMemory>
    ensures { (us : List Source) → AreForms us forms.entry → (w : rules.View) → IsView us view.entry w →
        IfOk result (λ f. Finds f (phrases.definition (declared_in forms.entry.types.now) w number (definition_shown of.now))) }
{
    match of {
        Definition::Record { at, fields } => {
            let found = record_of(alloc, forms, view, number, fields)?;
            let names = field_names(alloc, fields)?;
            let again = each_new(alloc, 3, &names)?;
            Ok(within_limits(*at, found.with(again)))
        }
        Definition::Enumeration { .. } => {
            Ok(Found::new(Some(single(alloc, Base::Enumeration { number }))))
        }
        Definition::Alias { of } => Ok(data_phrase(alloc, forms, view, of)?),
    }
}
