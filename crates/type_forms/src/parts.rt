//! The declared types that declared types name.

ghost use Rattle.std.specs.Prelude.{◌≡◌, ◌++◌, List, [], IfOk, OnOk, map, flat_map, filter_map};
ghost use Rattle.std.specs.List.{cons_option};
ghost use Rattle.orca_syntax.specs.Shown.{definition as definition_shown, kind as kind_shown, typed_name};
ghost use Rattle.link_rules.specs.Units.{Source};
ghost use Rattle.type_rules.specs.TypePhrases.{declared_number, names_of, names_within};
ghost use Rattle.type_forms.specs.Seen.{top};
ghost use Rattle.type_forms.specs.Indexed.{Indexes, standing};
ghost use Rattle.type_forms.specs.Parts.{AreParts, part_named, parts_at};

use crate::index::{Index, Standing};
use crate::tops::{Top, What};
use orca_base::{Items, NoMemory};
use orca_tree::{Definition, TypePhrase, TypedName};
use std::alloc::Global;

// The number of the declared type that a name stands for.
fn number_of_type(is: Standing<'_>) -> Option<usize>
    ensures { result ≡ declared_number (standing is.entry) }
{
    match is {
        Standing::Top { number, item } => match item.what {
            What::TypeName { .. } => Some(number),
            _ => None,
        },
        _ => None,
    }
}

// The declared type that a type phrase names, innermost.
fn part_in(index: &Index<'_>, home: &str, kind: &TypePhrase) -> Option<usize>
    ensures { (us : List Source) → Indexes index.now us →
        cons_option result [] ≡ filter_map (part_named us home.now) (names_of (kind_shown kind.now)) }
{
    match kind {
        TypePhrase::Named { name } => { number_of_type(index.stands_for(home, name.text.as_str())) }
        TypePhrase::Array { element, .. }
        | TypePhrase::Set { element, .. }
        | TypePhrase::Bag { element, .. } => part_in(index, home, element),
        TypePhrase::Integer { .. }
        | TypePhrase::Boolean { .. }
        | TypePhrase::Char { .. }
        | TypePhrase::Text { .. } => None,
    }
}

// Notes a part, where there is one.
fn note(parts: &mut Vec<usize>, part: Option<usize>) -> Result<(), NoMemory>
    ensures { OnOk result (parts.new.items ≡ parts.old.items ++ cons_option part []) }
{
    match part {
        None => Ok(()),
        Some(number) => {
            parts.push(number)?;
            Ok(())
        }
    }
}

// The declared types that a record's fields name.
fn field_parts(
    alloc: Global,
    index: &Index<'_>,
    home: &str,
    fields: &[TypedName],
) -> Result<Vec<usize>, NoMemory>
    ensures { (us : List Source) → Indexes index.now us → IfOk result (λ v. v.items ≡
        filter_map (part_named us home.now) (flat_map (λ f. names_of f.kind) (map typed_name fields.now))) }
{
    let mut parts = Vec::new(alloc);
    'fields: for field in fields {
        let part = part_in(index, home, &field.kind);
        note(&mut parts, part)?;
    }
    Ok(parts)
}

// The declared types that a definition names.
fn parts_within(
    alloc: Global,
    index: &Index<'_>,
    home: &str,
    of: &Definition,
) -> Result<Vec<usize>, NoMemory>
    ensures { (us : List Source) → Indexes index.now us →
        IfOk result (λ v. v.items ≡ filter_map (part_named us home.now) (names_within (definition_shown of.now))) }
{
    match of {
        Definition::Record { fields, .. } => Ok(field_parts(alloc, index, home, fields)?),
        Definition::Enumeration { .. } => Ok(Vec::new(alloc)),
        Definition::Alias { of } => {
            let mut parts = Vec::new(alloc);
            let part = part_in(index, home, of);
            note(&mut parts, part)?;
            Ok(parts)
        }
    }
}

// The declared types that a name of the top level names.
fn item_parts(alloc: Global, index: &Index<'_>, item: &Top<'_>) -> Result<Vec<usize>, NoMemory>
    ensures { (us : List Source) → Indexes index.now us → IfOk result (λ v. v.items ≡ parts_at us (top item.now)) }
{
    match item.what {
        What::TypeName { definition } => Ok(parts_within(alloc, index, item.by, definition)?),
        _ => Ok(Vec::new(alloc)),
    }
}

/// The declared types that each name of the top level names, by its number.
pub fn parts_of(alloc: Global, index: &Index<'_>) -> Result<Vec<Items<usize>>, NoMemory>
    ensures { (us : List Source) → Indexes index.now us → IfOk result (λ v. AreParts us v.items) }
{
    let mut parts = Vec::new(alloc);
    let tops = index.tops();
    'items: for item in tops {
        let own = item_parts(alloc, index, item)?;
        parts.push(Items::new(own))?;
    }
    Ok(parts)
}
