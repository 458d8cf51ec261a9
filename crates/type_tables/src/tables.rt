//! The tables of a program.

ghost use Rattle.std.specs.Prelude.{◌≡◌, ℕ, List, false, map, find, bytes_eq, option_map, slice_get, IfOk};
ghost use Rattle.orca_syntax.specs.Shown.{definition as definition_shown, head as head_shown, typed_name};
ghost use Rattle.link_rules.specs.Units.{Source};
ghost use Rattle.type_rules.specs.TopLevel.{top_names};
ghost use Rattle.type_rules.specs.Constants.{View as RuleView};
ghost use Rattle.type_rules.specs.TypePhrases.{data_found};
ghost use Rattle.type_rules.specs.Scopes.{operation_of, operation_signature, type_of};
ghost use Rattle.type_rules.specs.Expressions.{field_at};
ghost use Rattle.type_forms.specs.Forms.{AreTyped};
ghost use Rattle.type_forms.specs.Seen.{has, top};
ghost use Rattle.type_forms.specs.Views.{IsView};
ghost use Rattle.type_tables.specs.Entries.{entry};
ghost use Rattle.type_tables.specs.Tables as rules;
ghost use Rattle.type_tables.specs.Tables.{AreFields, AreOperations, AreSignatures, AreTables, fields_at, operations_at, signature_at, signature_numbered};

use crate::entries::note;
use crate::signatures::{head_signature, signature, value_type};
use orca_base::NoMemory;
use orca_tree::{Definition, Head, TypedName};
use std::alloc::Global;
use std::collections::BTreeMap;
use type_forms::{Forms, Names, Top, View, What};
use type_rules::{DataType, Signature};

/// The fields of a record by their names, with their types, where these are known.
pub type Fields<'p> = BTreeMap<&'p str, Option<DataType>>;

/// The operations of an object type by their names, with their signatures.
pub type Operations<'p> = BTreeMap<&'p str, Signature>;

// The signature of a function or a process.
fn item_signature(
    alloc: Global,
    forms: Forms<'_, '_>,
    item: &Top<'_>,
) -> Result<Option<Signature>, NoMemory>
    ensures { (us : List Source) → AreTyped us forms.entry → IfOk result (λ s. s ≡ signature_at us (top item.now)) }
{
    match item.what {
        What::Function {
            parameters,
            result,
            body,
        } => Ok(Some(signature(alloc, forms, item.by, parameters, result, body)?)),
        What::Process { parameters, body } => Ok(Some(signature(
            alloc, forms, item.by, parameters, &None, body,
        )?)),
        _ => Ok(None),
    }
}

/// The signature of each function and process, by its number.
pub fn signatures_of(
    alloc: Global,
    forms: Forms<'_, '_>,
) -> Result<Vec<Option<Signature>>, NoMemory>
    ensures { (us : List Source) → AreTyped us forms.entry → IfOk result (λ v. AreSignatures us v.items) }
{
    let mut all = Vec::new(alloc);
    let tops = forms.index.tops();
    'items: for item in tops {
        let own = item_signature(alloc, forms, item)?;
        all.push(own)?;
    }
    Ok(all)
}

// The fields of a record, in the view of its module.
fn field_table<'p>(
    alloc: Global,
    forms: Forms<'_, '_>,
    view: View<'_, '_>,
    fields: &'p [TypedName],
) -> Result<Fields<'p>, NoMemory>
    ensures { (us : List Source) → AreTyped us forms.entry → (w : RuleView) → IsView us view.entry w →
        IfOk result (λ v. (f : List ℕ) → entry v f ≡
        option_map (λ d. type_of (data_found w d.kind)) (find (λ d. bytes_eq d.name.text f) (map typed_name fields.now))) }
{
    let mut table = BTreeMap::new(alloc);
    'fields: for field in fields {
        let kind = value_type(alloc, forms, view, &field.kind)?;
        note(&mut table, field.name.text.as_str(), kind)?;
    }
    Ok(table)
}

// The fields of a definition, where it is a record's.
fn definition_fields<'p>(
    alloc: Global,
    forms: Forms<'_, '_>,
    view: View<'_, '_>,
    definition: &'p Definition,
) -> Result<Fields<'p>, NoMemory>
    ensures { (us : List Source) → AreTyped us forms.entry → (w : RuleView) → IsView us view.entry w →
        IfOk result (λ v. (f : List ℕ) → entry v f ≡ rules.defined_field w f (definition_shown definition.now)) }
{
    match definition {
        Definition::Record { fields, .. } => Ok(field_table(alloc, forms, view, fields)?),
        Definition::Enumeration { .. } | Definition::Alias { .. } => Ok(BTreeMap::new(alloc)),
    }
}

// The fields of what a name of the top level declares, where it is a record.
fn item_fields<'p>(
    alloc: Global,
    forms: Forms<'_, 'p>,
    none: &Names<'_>,
    item: &Top<'p>,
) -> Result<Fields<'p>, NoMemory>
    ensures { ((n : List ℕ) → has none.now n ≡ false) → (us : List Source) → AreTyped us forms.entry →
        IfOk result (λ v. (f : List ℕ) → entry v f ≡ fields_at us (top item.now) f) }
{
    match item.what {
        What::TypeName { definition } => {
            let view = View {
                home: item.by,
                names: none,
            };
            Ok(definition_fields(alloc, forms, view, definition)?)
        }
        _ => Ok(BTreeMap::new(alloc)),
    }
}

/// The fields of each record, by its number.
pub fn fields_of<'p>(alloc: Global, forms: Forms<'_, 'p>) -> Result<Vec<Fields<'p>>, NoMemory>
    ensures { (us : List Source) → AreTyped us forms.entry → IfOk result (λ v. AreFields us v.items) }
{
    let none = BTreeMap::new(alloc);
    let mut all = Vec::new(alloc);
    let tops = forms.index.tops();
    'items: for item in tops {
        let own = item_fields(alloc, forms, &none, item)?;
        all.push(own)?;
    }
    Ok(all)
}

// The operations of a specification, in its module.
fn operation_table<'p>(
    alloc: Global,
    forms: Forms<'_, '_>,
    home: &str,
    heads: &'p [Head],
) -> Result<Operations<'p>, NoMemory>
    ensures { (us : List Source) → AreTyped us forms.entry →
        IfOk result (λ v. (n : List ℕ) → entry v n ≡
        option_map (operation_signature us home.now) (find (λ h. bytes_eq h.name.text n) (map head_shown heads.now))) }
{
    let mut table = BTreeMap::new(alloc);
    'heads: for head in heads {
        let own = head_signature(alloc, forms, home, head)?;
        note(&mut table, head.name.text.as_str(), own)?;
    }
    Ok(table)
}

// The operations of what a name of the top level declares, where it is a specification.
fn item_operations<'p>(
    alloc: Global,
    forms: Forms<'_, 'p>,
    item: &Top<'p>,
) -> Result<Operations<'p>, NoMemory>
    ensures { (us : List Source) → AreTyped us forms.entry →
        IfOk result (λ v. (n : List ℕ) → entry v n ≡ operations_at us (top item.now) n) }
{
    match item.what {
        What::Specified { heads } => Ok(operation_table(alloc, forms, item.by, heads)?),
        _ => Ok(BTreeMap::new(alloc)),
    }
}

/// The operations of each specification, by its number.
pub fn operations_of<'p>(
    alloc: Global,
    forms: Forms<'_, 'p>,
) -> Result<Vec<Operations<'p>>, NoMemory>
    ensures { (us : List Source) → AreTyped us forms.entry → IfOk result (λ v. AreOperations us v.items) }
{
    let mut all = Vec::new(alloc);
    let tops = forms.index.tops();
    'items: for item in tops {
        let own = item_operations(alloc, forms, item)?;
        all.push(own)?;
    }
    Ok(all)
}

/// A program's names, constants and types, and its signatures, fields and operations by numbers; beside them the signatures of the two
/// functions on graphs.
#[derive(Clone, Copy)]
pub struct Tables<'a, 'p> {
    pub forms: Forms<'a, 'p>,
    pub signatures: &'a [Option<Signature>],
    pub fields: &'a [Fields<'p>],
    pub operations: &'a [Operations<'p>],
    pub add_node: &'a Signature,
    pub delete_node: &'a Signature,
}

// What a table of signatures has for a number.
fn signature_in(table: &[Option<Signature>], number: usize) -> Option<&Signature>
    ensures { option_map (λ s. s.now) result ≡ rules.signature_in table.now number }
{
    match table.get(number) {
        None => None,
        Some(own) => own.as_ref(),
    }
}

// What a table of fields has for a number and a name.
fn field_in<'a>(tables: &'a [Fields<'_>], number: usize, name: &str) -> Option<&'a Option<DataType>>
    ensures { option_map (λ t. t.now) result ≡ rules.entry_in tables.now number name.now }
{
    match tables.get(number) {
        None => None,
        Some(own) => own.get(name),
    }
}

// What a table of operations has for a number and a name.
fn operation_in<'a>(
    tables: &'a [Operations<'_>],
    number: usize,
    name: &str,
) -> Option<&'a Signature>
    ensures { option_map (λ s. s.now) result ≡ rules.entry_in tables.now number name.now }
{
    match tables.get(number) {
        None => None,
        Some(own) => own.get(name),
    }
}

impl<'a, 'p> Tables<'a, 'p> {
    /// The signature of the function or process with this number.
    pub fn signature(self, number: usize) -> Option<&'a Signature>
        ensures { (us : List Source) → AreTables us self.entry →
            option_map (λ s. s.now) result ≡ signature_numbered us (slice_get (top_names us) number) }
    {
        signature_in(self.signatures, number)
    }

    /// The type of the field with this name, where it is known, of the record with this number.
    pub fn field(self, number: usize, name: &str) -> Option<&'a Option<DataType>>
        ensures { (us : List Source) → AreTables us self.entry →
            option_map (λ t. t.now) result ≡ field_at us name.now (slice_get (top_names us) number) }
    {
        field_in(self.fields, number, name)
    }

    /// The signature of the operation with this name of the object type with this number.
    pub fn operation(self, number: usize, name: &str) -> Option<&'a Signature>
        ensures { (us : List Source) → AreTables us self.entry →
            option_map (λ s. s.now) result ≡ operation_of us number name.now }
    {
        operation_in(self.operations, number, name)
    }
}
