//! The classes of operations, by their numbers.

ghost use Rattle.std.specs.Prelude.{◌≡◌, ◌&&◌, ◌==◌, ◌-◌, List, if◌then◌else◌, filter, map, option_map, slice_get};
ghost use Rattle.link_rules.specs.Units.{Source, source};
ghost use Rattle.type_forms.specs.Indexed.{Indexes};
ghost use Rattle.type_forms.specs.Seen.{top};
ghost use Rattle.value_core.specs.Datum.{Data};
ghost use Rattle.value_core.specs.Fits.{KeepsState};
ghost use Rattle.meaning_rules.specs.Classes as rules;
ghost use Rattle.meaning_rules.specs.Operations.{tries_of};
ghost use Rattle.meaning_rules.specs.Programs.{is_specification as rule_is_specification, object_type};
ghost use Rattle.meaning_rules.specs.ReadsKeep.{IsCall};
ghost use Rattle.program_bodies.specs.Codes.{sources};
ghost use Rattle.program_bodies.specs.Objects.{object_type_seen};

use crate::bodies::operation_class;
use crate::implementations::implementation;
use link_rules::Role;
use orca_base::{KindNo, OpNo};
use orca_tree::Operation;
use program_bodies::Implemented;
use type_decls::Checked;
use type_forms::{Index, Top};
use value_core::Class;

/// Whether a name of the top level is a specification.
pub(crate) fn is_specification(item: &Top<'_>) -> bool
    ensures { result ≡ rule_is_specification (top item.now) }
{
    matches!(item.role, Role::Specification)
}

// Whether a specification is that which is sought, where so many are left before it.
fn is_sought(specified: bool, left: usize) -> bool
    ensures { result ≡ (specified && left == 0) }
{
    specified && left == 0
}

// How many specifications are left behind a name.
fn left_behind(specified: bool, left: usize) -> usize
    ensures { result ≡ (if specified then left - 1 else left) }
{
    if specified {
        left.saturating_sub(1)
    } else {
        left
    }
}

// Of these names of the top level the specification at this place, from 0.
fn specification_at<'a, 'p>(tops: &'a [Top<'p>], place: usize) -> Option<&'a Top<'p>>
    ensures { option_map (λ t. top t.now) result ≡ slice_get (filter rule_is_specification (map top tops.now)) place }
{
    let mut left = place;
    'tops: for item in tops {
        let specified = is_specification(item);
        if is_sought(specified, left) {
            return Some(item);
        }
        left = left_behind(specified, left);
    }
    None
}

// The implementation of the object type with this number; none of the output object's.
fn implemented<'a>(checked: &'a Checked<'_>, kind: KindNo) -> Option<Implemented<'a>>
    ensures { Indexes checked.now.symbols.index (sources checked.now) →
        option_map object_type_seen result ≡ object_type (sources checked.now) kind }
{
    if kind.0 == 0 {
        return None;
    }
    match specification_at(checked.symbols.index.tops(), usize::from(kind.0 - 1)) {
        None => None,
        Some(item) => implementation(&checked.program.units, item.name),
    }
}

// The operation at a place, from 0.
fn operation_at(operations: &[Operation], place: usize) -> Option<&Operation>
    ensures { option_map (λ o. o.now) result ≡ slice_get operations.now place }
{
    operations.get(place)
}

// The class of an operation of an implementation; a write where there is none of this number.
fn class_in(index: &Index<'_>, of: Implemented<'_>, op: OpNo) -> Class
    ensures { (us : List Source) → Indexes index.now us → result ≡ rules.type_class us op (object_type_seen of.entry) }
{
    match operation_at(of.operations, usize::from(op.0)) {
        None => Class::Writes,
        Some(operation) => operation_class(index, of, operation),
    }
}

// The class of an operation, by its number, of an object type, by its number.
fn class_at(checked: &Checked<'_>, kind: KindNo, op: OpNo) -> Class
    ensures { Indexes checked.now.symbols.index (sources checked.now) →
        result ≡ rules.class_of (sources checked.now) kind op }
{
    match implemented(checked, kind) {
        None => Class::Writes,
        Some(of) => class_in(&checked.symbols.index, of, op),
    }
}

/// Whether an operation is a read or a write: a read where its body changes no field of the object, and so leaves each object as it was. An
/// operation is given by its number in its specification, from 0, and by that of the object type, from 1 in the order of specifications. A
/// number that none has is a write's, and so is the output object's.
pub fn class_of(checked: &Checked<'_>, kind: KindNo, op: OpNo) -> Class
    ensures class { result ≡ rules.class_of (sources checked.now) kind op }
    ensures keeps { (state args : Data) → IsCall (sources checked.now) kind op state args → result ≡ Class.Reads →
        KeepsState (tries_of (sources checked.now) kind op state args) (λ after. after ≡ state) }
{
    class_at(checked, kind, op)
}
