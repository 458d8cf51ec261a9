//! The locals of functions and processes: their parameters, and their variables behind them.

ghost use Rattle.std.specs.Prelude.{◌≡◌, ℕ, List, IfOk, bytes_eq, map, option_map, position};
ghost use Rattle.type_rules.specs.Scopes.{Local as RuleLocal};
ghost use Rattle.type_rules.specs.Types.{object_in as rule_object_in, outside_of};
ghost use Rattle.type_forms.specs.Seen.{lent};
ghost use Rattle.type_tables.specs.Entries.{entry};
ghost use Rattle.type_decls.specs.Bodies.{AreLocals};
ghost use Rattle.access_estimates.specs.Locals.{locals_seen, local_seen};
ghost use Rattle.access_estimates.specs.Collected.{named_in, object_by, object_kind};

use orca_base::NoMemory;
use orca_tree::Name;
use std::alloc::Global;
use std::collections::BTreeMap;
use type_decls::Locals;
use type_exprs::Local as TypedLocal;
use type_rules::{Base, DataType};
use type_tables::note;

/// A local, by its name, and the number of its object type, where it is an object.
#[derive(Clone, Copy)]
pub struct Local<'p> {
    pub name: &'p str,
    pub object: Option<usize>,
}

// The number of the object type that a type is.
fn object_in(kind: &DataType) -> Option<usize>
    ensures { result ≡ rule_object_in (outside_of kind.now) }
{
    if !kind.layers.as_slice().is_empty() {
        return None;
    }
    match kind.base {
        Base::Object { number } => Some(number),
        _ => None,
    }
}

// The same of a type that may be unknown.
fn object_of(kind: &Option<DataType>) -> Option<usize>
    ensures { result ≡ object_kind kind.now }
{
    match kind {
        None => None,
        Some(kind) => object_in(kind),
    }
}

// What a body has for a name.
fn local_named<'a>(locals: &'a Locals<'_>, text: &str) -> Option<&'a TypedLocal>
    ensures { option_map (λ l. l.now) result ≡ entry locals.now text.now }
{
    locals.get(text)
}

// The object type of a name, by what the body has.
fn object_named(locals: &Locals<'_>, text: &str) -> Option<usize>
    ensures { result ≡ object_by (entry locals.now text.now) }
{
    match local_named(locals, text) {
        None => None,
        Some(local) => object_of(&local.kind),
    }
}

// A name with its object type, by what the body has.
fn local_of<'p>(name: &'p Name, locals: &Locals<'p>) -> Local<'p>
    ensures { (ls : List RuleLocal) → AreLocals locals.now ls → local_seen result ≡ named_in ls name.now }
{
    let text = name.text.as_str();
    Local {
        name: text,
        object: object_named(locals, text),
    }
}

/// The names of a body with their object types, by what the body has.
pub fn locals_by<'p>(
    alloc: Global,
    names: &[&'p Name],
    locals: &Locals<'p>,
) -> Result<Vec<Local<'p>>, NoMemory>
    ensures { (ls : List RuleLocal) → AreLocals locals.now ls → IfOk result (λ v. locals_seen v.items ≡ map (named_in ls) (lent names.now)) }
{
    let mut all = Vec::new(alloc);
    'names: for name in names {
        all.push(local_of(name, locals))?;
    }
    Ok(all)
}

// The name of a local.
fn name_of<'p>(local: &Local<'p>) -> &'p str
    ensures { result.now ≡ (local_seen local.now).name }
{
    local.name
}

/// The first position of each name.
pub fn positions_of<'p>(
    alloc: Global,
    names: &[Local<'p>],
) -> Result<BTreeMap<&'p str, usize>, NoMemory>
    ensures { IfOk result (λ v. (n : List ℕ) → entry v n ≡ position (λ o. bytes_eq o.name n) (locals_seen names.now)) }
{
    let mut positions = BTreeMap::new(alloc);
    'names: for (position, local) in names.iter().enumerate() {
        let name = name_of(local);
        note(&mut positions, name, position)?;
    }
    Ok(positions)
}
