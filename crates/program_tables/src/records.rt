//! The fields of records.

ghost use Rattle.std.specs.Prelude.{◌≡◌, ℕ, List, IfOk, false, map, slice_get, unwrap_or};
ghost use Rattle.orca_syntax.specs.Shown.{definition as definition_shown, typed_name};
ghost use Rattle.link_rules.specs.Units.{Source};
ghost use Rattle.type_rules.specs.Constants.{View as RuleView};
ghost use Rattle.type_rules.specs.TypePhrases.{data_found};
ghost use Rattle.type_rules.specs.Scopes.{type_of};
ghost use Rattle.meaning_rules.specs.Openings.{fields_in as fields_of_definition, fields_of_what};
ghost use Rattle.type_forms.specs.Forms.{AreTyped};
ghost use Rattle.type_forms.specs.Seen.{has, top, what};
ghost use Rattle.type_forms.specs.Views.{IsView};
ghost use Rattle.program_tables.specs.Listed.{AreRecords, IsRecord, record_places, record_types};

use crate::places::{Places, field_places, place_or_zero};
use orca_base::NoMemory;
use orca_tree::{Definition, TypedName};
use std::alloc::Global;
use std::collections::BTreeMap;
use type_forms::{Forms, Names, Top, View, What};
use type_rules::DataType;
use type_tables::value_type;

/// The fields of a record: their places by name, and their types by place, where these are known.
#[derive(Drop)]
pub struct Record<'p> {
    pub places: Places<'p>,
    pub types: Vec<Option<DataType>>,
}

// The types of fields, in the view of their module.
fn field_types(
    alloc: Global,
    forms: Forms<'_, '_>,
    view: View<'_, '_>,
    fields: &[TypedName],
) -> Result<Vec<Option<DataType>>, NoMemory>
    ensures { (us : List Source) → AreTyped us forms.entry → (w : RuleView) → IsView us view.entry w →
        IfOk result (λ v. v.items ≡ map (λ f. type_of (data_found w f.kind)) (map typed_name fields.now)) }
{
    let mut types = Vec::new(alloc);
    'fields: for field in fields {
        let kind = value_type(alloc, forms, view, &field.kind)?;
        types.push(kind)?;
    }
    Ok(types)
}

// The fields of a definition, where it is a record's.
fn fields_in(definition: &Definition) -> &[TypedName]
    ensures { map typed_name result.now ≡ fields_of_definition (definition_shown definition.now) }
{
    match definition {
        Definition::Record { fields, .. } => fields,
        Definition::Enumeration { .. } | Definition::Alias { .. } => &[],
    }
}

// The fields of what a name of the top level is, where it is a record.
fn fields_of<'p>(is: What<'p>) -> &'p [TypedName]
    ensures { map typed_name result.now ≡ fields_of_what (what is.entry) }
{
    match is {
        What::TypeName { definition } => fields_in(definition),
        _ => &[],
    }
}

// The fields of a name of the top level, where it is a record; no name is a body's.
fn record_of<'p>(
    alloc: Global,
    forms: Forms<'_, 'p>,
    none: &Names<'_>,
    item: &Top<'p>,
) -> Result<Record<'p>, NoMemory>
    ensures { ((n : List ℕ) → has none.now n ≡ false) → (us : List Source) → AreTyped us forms.entry →
        IfOk result (λ r. IsRecord us (top item.now) r) }
{
    let fields = fields_of(item.what);
    let view = View {
        home: item.by,
        names: none,
    };
    let places = field_places(alloc, fields)?;
    let types = field_types(alloc, forms, view, fields)?;
    Ok(Record { places, types })
}

/// The fields of each record, by its number.
pub fn records_of<'p>(alloc: Global, forms: Forms<'_, 'p>) -> Result<Vec<Record<'p>>, NoMemory>
    ensures { (us : List Source) → AreTyped us forms.entry → IfOk result (λ v. AreRecords us v.items) }
{
    let none = BTreeMap::new(alloc);
    let mut all = Vec::new(alloc);
    let tops = forms.index.tops();
    'tops: for item in tops {
        let own = record_of(alloc, forms, &none, item)?;
        all.push(own)?;
    }
    Ok(all)
}

/// The types of a record's fields, by the record's number; none where it is no record.
pub fn types_at<'a>(records: &'a [Record<'_>], number: usize) -> &'a [Option<DataType>]
    ensures { result.now ≡ record_types (slice_get records.now number) }
{
    match records.get(number) {
        None => &[],
        Some(record) => record.types.as_slice(),
    }
}

/// The place of a record's field, or 0 where it has none of this name.
pub fn place_at(records: &[Record<'_>], number: usize, name: &str) -> usize
    ensures { result ≡ unwrap_or (record_places (slice_get records.now number) name.now) 0 }
{
    match records.get(number) {
        None => 0,
        Some(record) => place_or_zero(&record.places, name),
    }
}
