//! The names that an operation sees: its own in front of its object's fields.

ghost use Rattle.std.specs.Prelude.{◌≡◌, ◌||◌, ◌&&◌, ℕ, List, IfOk, OnOk, if◌then◌else◌, bytes_eq, map};
ghost use Rattle.orca_syntax.specs.Shown.{variables};
ghost use Rattle.link_rules.specs.Units.{Source};
ghost use Rattle.type_rules.specs.Rules.{is_among};
ghost use Rattle.type_rules.specs.Scopes.{texts};
ghost use Rattle.type_rules.specs.Declarations as rules;
ghost use Rattle.type_rules.specs.TypePhrases.{data_found};
ghost use Rattle.type_forms.specs.Finding.{FirstOf};
ghost use Rattle.type_forms.specs.Forms.{AreTyped};
ghost use Rattle.type_forms.specs.Seen.{has, lent};
ghost use Rattle.type_tables.specs.Entries.{entry};
ghost use Rattle.type_decls.specs.Fields.{AreFields};

use crate::locals::{Locals, copy_known, declare_variables, put};
use orca_base::NoMemory;
use orca_tree::{Name, Variables};
use std::alloc::Global;
use std::collections::BTreeMap;
use type_exprs::Local;
use type_forms::{Forms, Names, View, add, holds, name_set};
use type_rules::{Breach, LocalRole};

/// The names of an implementation's fields, and what they are.
#[derive(Drop)]
pub struct Fields<'p> {
    pub names: Names<'p>,
    pub locals: Locals<'p>,
}

/// The fields of an implementation, of which these are the names, and the first breach of their types.
pub fn fields_of<'p>(
    alloc: Global,
    forms: Forms<'_, '_>,
    home: &str,
    names: &[&'p Name],
    groups: &'p [Variables],
) -> Result<(Fields<'p>, Option<Breach>), NoMemory>
    ensures fields { (us : List Source) → AreTyped us forms.entry → lent names.now ≡ rules.field_names (map variables groups.now) →
        IfOk result (λ p. AreFields us home.now (map variables groups.now) p.0) }
    ensures breaches { (us : List Source) → AreTyped us forms.entry → lent names.now ≡ rules.field_names (map variables groups.now) →
        IfOk result (λ p. FirstOf p.1
        (rules.variables_breaches (data_found (rules.fields_view us home.now (map variables groups.now))) (map variables groups.now))) }
{
    let set = name_set(alloc, names)?;
    let view = View { home, names: &set };
    let mut locals = BTreeMap::new(alloc);
    let role = LocalRole::ObjectField;
    let first = declare_variables(alloc, forms, view, false, role, groups, &mut locals)?;
    Ok((Fields { names: set, locals }, first))
}

/// Puts names into a set.
pub fn enter<'p>(names: &mut Names<'p>, own: &[&'p Name]) -> Result<(), NoMemory>
    ensures { OnOk result ((n : List ℕ) → has names.new n ≡ (has names.old n || is_among (texts (lent own.now)) n)) }
{
    'own: for name in own {
        add(names, name.text.as_str())?;
    }
    Ok(())
}

// Takes a name out of a set, unless a field has it.
fn take_name<'p>(names: &mut Names<'p>, fields: &Names<'p>, name: &'p str)
    ensures { (n : List ℕ) → has names.new n ≡ (if bytes_eq name.now n then has fields.now n && has names.old n else has names.old n) }
{
    if !holds(fields, name) {
        names.remove(name);
    }
}

/// Takes names out of a set, but those of fields.
pub fn leave<'p>(names: &mut Names<'p>, fields: &Names<'p>, own: &[&'p Name])
    ensures { (n : List ℕ) → has names.new n ≡
        (if is_among (texts (lent own.now)) n then has fields.now n && has names.old n else has names.old n) }
{
    'own: for name in own {
        take_name(names, fields, name.text.as_str());
    }
}

// Puts what a name is of the fields in the place of what it is.
fn take_local<'p>(
    alloc: Global,
    locals: &mut Locals<'p>,
    fields: &Locals<'p>,
    name: &'p str,
) -> Result<(), NoMemory>
    ensures { OnOk result ((n : List ℕ) →
        entry locals.new n ≡ (if bytes_eq name.now n then entry fields.now n else entry locals.old n)) }
{
    match fields.get(name) {
        None => {
            locals.remove(name);
            Ok(())
        }
        Some(field) => {
            let kind = copy_known(alloc, &field.kind)?;
            let role = field.role;
            put(locals, name, Local { role, kind })?;
            Ok(())
        }
    }
}

/// Puts what names are of the fields in the place of what they are.
pub fn leave_locals<'p>(
    alloc: Global,
    locals: &mut Locals<'p>,
    fields: &Locals<'p>,
    own: &[&'p Name],
) -> Result<(), NoMemory>
    ensures { OnOk result ((n : List ℕ) →
        entry locals.new n ≡ (if is_among (texts (lent own.now)) n then entry fields.now n else entry locals.old n)) }
{
    'own: for name in own {
        take_local(alloc, locals, fields, name.text.as_str())?;
    }
    Ok(())
}
