//! The classes of all operations in a table.

ghost use Rattle.std.specs.Prelude.{◌≡◌, ◌∷◌, ◌++◌, [], ℕ, List, IfOk, OnOk, if◌then◌else◌, map, option_map, slice_get, unwrap_or};
ghost use Rattle.std.specs.Option.{option_map_or};
ghost use Rattle.link_rules.specs.Units.{Source};
ghost use Rattle.type_forms.specs.Indexed.{Indexes};
ghost use Rattle.type_forms.specs.Seen.{top};
ghost use Rattle.type_tables.specs.Entries.{entry};
ghost use Rattle.meaning_rules.specs.Classes as rules;
ghost use Rattle.meaning_rules.specs.Programs.{implementation, is_specification as rule_is_specification, specifications};
ghost use Rattle.program_bodies.specs.Codes.{sources};
ghost use Rattle.program_bodies.specs.Objects.{object_type_seen};
ghost use Rattle.access_analysis.specs.Tables.{class_at_place, specified_classes, type_classes};

use crate::bodies::operation_class;
use crate::classes::is_specification;
use orca_base::{KindNo, NoMemory, OpNo};
use program_bodies::{Implementations, Implemented, implementations_of};
use std::alloc::Global;
use type_decls::Checked;
use type_forms::{Index, Top};
use value_core::Class;

// The classes of the operations of an implementation.
fn classes_in(alloc: Global, index: &Index<'_>, of: Implemented<'_>) -> Result<Vec<Class>, NoMemory>
    ensures { (us : List Source) → Indexes index.now us → IfOk result (λ v. v.items ≡ type_classes us (object_type_seen of.entry)) }
{
    let mut all = Vec::new(alloc);
    let operations = of.operations;
    'operations: for operation in operations {
        let own = operation_class(index, of, operation);
        all.push(own)?;
    }
    Ok(all)
}

// The classes of the operations of the implementation with this name; none where there is none.
fn classes_named(
    alloc: Global,
    index: &Index<'_>,
    implementations: &Implementations<'_>,
    name: &str,
) -> Result<Vec<Class>, NoMemory>
    ensures { (us : List Source) → Indexes index.now us → IfOk result (λ v. v.items ≡
        option_map_or (type_classes us) (option_map object_type_seen (entry implementations.now name.now)) []) }
{
    match implementations.get(name) {
        None => Ok(Vec::new(alloc)),
        Some(of) => classes_in(alloc, index, *of),
    }
}

// Puts the classes of an object type's operations behind those of others, where a name of the top level specifies one.
fn add_classes(
    alloc: Global,
    all: &mut Vec<Vec<Class>>,
    index: &Index<'_>,
    implementations: &Implementations<'_>,
    item: &Top<'_>,
) -> Result<(), NoMemory>
    ensures { (us : List Source) → Indexes index.now us →
        ((n : List ℕ) → option_map object_type_seen (entry implementations.now n) ≡ implementation us n) →
        OnOk result (map (λ l. l.items) all.new.items ≡ map (λ l. l.items) all.old.items
        ++ map (specified_classes us) (if rule_is_specification (top item.now) then top item.now ∷ [] else [])) }
{
    if !is_specification(item) {
        return Ok(());
    }
    let own = classes_named(alloc, index, implementations, item.name)?;
    all.push(own)?;
    Ok(())
}

// The classes of the operations of each object type.
fn table_of(alloc: Global, checked: &Checked<'_>) -> Result<Vec<Vec<Class>>, NoMemory>
    ensures { Indexes checked.now.symbols.index (sources checked.now) → IfOk result (λ v. map (λ l. l.items) v.items ≡
        [] ∷ map (specified_classes (sources checked.now)) (specifications (sources checked.now))) }
{
    let implementations = implementations_of(alloc, &checked.program.units)?;
    let mut all = Vec::new(alloc);
    let output = Vec::new(alloc);
    all.push(output)?;
    let tops = checked.symbols.index.tops();
    'tops: for item in tops {
        add_classes(
            alloc,
            &mut all,
            &checked.symbols.index,
            &implementations,
            item,
        )?;
    }
    Ok(all)
}

/// Whether each operation is a read or a write: a list for each object type, by its number, of its operations, by theirs. The output
/// object's type has the number 0 and an empty list, and what stands nowhere is a write: so the table says what `class_of` says of all
/// numbers. The only error is want of memory. No clause says so, but each body is gone through once.
pub fn classes_of(alloc: Global, checked: &Checked<'_>) -> Result<Vec<Vec<Class>>, NoMemory>
    ensures { IfOk result (λ v. (kind : KindNo) (op : OpNo) →
        class_at_place (map (λ l. l.items) v.items) kind op ≡ rules.class_of (sources checked.now) kind op) }
{
    let all = table_of(alloc, checked)?;
    Ok(all)
}

// The classes at a place of a table, from 0; none where nothing stands.
fn row_at(table: &[Vec<Class>], place: usize) -> &[Class]
    ensures { result.now ≡ option_map_or (λ l. l.items) (slice_get table.now place) [] }
{
    match table.get(place) {
        None => &[],
        Some(row) => row.as_slice(),
    }
}

// The class at a place, from 0; a write where nothing stands.
fn entry_at(row: &[Class], place: usize) -> Class
    ensures { result ≡ unwrap_or (slice_get row.now place) Class.Writes }
{
    match row.get(place) {
        None => Class::Writes,
        Some(class) => *class,
    }
}

/// What a table of classes (`classes_of`) says of an operation, by its number and by that of the object type. Its cost is that of two look-ups
/// by place.
pub fn class_listed(table: &[Vec<Class>], kind: KindNo, op: OpNo) -> Class
    ensures { result ≡ class_at_place (map (λ l. l.items) table.now) kind op }
{
    let row = row_at(table, usize::from(kind.0));
    entry_at(row, usize::from(op.0))
}
