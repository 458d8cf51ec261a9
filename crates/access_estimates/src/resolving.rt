//! Uses of objects, with names looked up.

ghost use Rattle.std.specs.Prelude.{◌≡◌, ◌++◌, ℕ, List, IfOk, OnOk, bytes_eq, option_map, position, slice_get, unwrap_or};
ghost use Rattle.link_rules.specs.Units.{Source};
ghost use Rattle.type_forms.specs.Indexed.{standing};
ghost use Rattle.type_tables.specs.Entries.{entry};
ghost use Rattle.meaning_rules.specs.Classes.{class_of as rule_class_of};
ghost use Rattle.meaning_rules.specs.Programs.{kind_of, op_of};
ghost use Rattle.access_estimates.specs.Seen.{all_seen, kind_seen, use_seen};
ghost use Rattle.access_estimates.specs.Resolved as rules;
ghost use Rattle.access_estimates.specs.Locals.{locals_seen};
ghost use Rattle.access_estimates.specs.Lookups.{AreLookups, option_list};

use crate::locals::{Local, positions_of};
use crate::resolved::{Effect, ResolvedUse};
use crate::uses::{Use, UseKind};
use access_analysis::class_listed;
use orca_base::{KindNo, NoMemory, OpNo};
use program_tables::CodeTables;
use std::alloc::Global;
use std::collections::BTreeMap;
use type_forms::{Index, Standing};
use value_core::Class;

/// What names of a program are looked up in: the names of its top level, its numbers, and the classes of its operations.
#[derive(Clone, Copy)]
pub struct Lookups<'a, 'p> {
    pub index: &'a Index<'p>,
    pub tables: &'a CodeTables<'p>,
    pub classes: &'a [Vec<Class>],
}

// What an operation of this class does.
fn class_effect(class: Class) -> Effect
    ensures { result ≡ rules.class_effect class }
{
    match class {
        Class::Reads => Effect::Reads,
        Class::Writes => Effect::Writes,
    }
}

// What passing an object does, to what a name stands for.
fn standing_effect(is: Standing<'_>, position: usize) -> Effect
    ensures { result ≡ rules.standing_effect position (standing is.entry) }
{
    match is {
        Standing::Top { number, .. } => Effect::Passed { number, position },
        Standing::Nothing | Standing::Everywhere { .. } => Effect::Nothing,
    }
}

impl<'a, 'p> Lookups<'a, 'p> {
    // The class of an operation of the object type with this number at the top.
    fn class(self, object_type: usize, operation: &str) -> Class
        ensures { (us : List Source) → AreLookups us self.entry →
            result ≡ rule_class_of us (kind_of us object_type) (op_of us object_type operation.now) }
    {
        class_listed(
            self.classes,
            self.tables.kind(object_type),
            self.tables.operation(object_type, operation),
        )
    }

    // What a use does with an object whose type has this number, in a module.
    fn effect(self, home: &str, object_type: usize, kind: UseKind<'_>) -> Effect
        ensures { (us : List Source) → AreLookups us self.entry →
            result ≡ rules.effect_of us home.now object_type (kind_seen kind.entry) }
    {
        match kind {
            UseKind::Calls { operation } => class_effect(self.class(object_type, operation)),
            UseKind::Passes { to, position } => {
                standing_effect(self.index.stands_for(home, to), position)
            }
        }
    }
}

// The local at a position.
fn local_at<'a, 'p>(names: &'a [Local<'p>], position: usize) -> Option<&'a Local<'p>>
    ensures { option_map (λ o. o.now) result ≡ slice_get names.now position }
{
    names.get(position)
}

// The object type of the local at a position.
fn object_at(names: &[Local<'_>], position: usize) -> Option<usize>
    ensures { result ≡ rules.object_at (locals_seen names.now) position }
{
    match local_at(names, position) {
        None => None,
        Some(local) => local.object,
    }
}

// The position that a map has for a name, or another.
fn position_or(positions: &BTreeMap<&str, usize>, name: &str, other: usize) -> usize
    ensures { result ≡ unwrap_or (entry positions.now name.now) other }
{
    match positions.get(name) {
        None => other,
        Some(position) => *position,
    }
}

// The position of a name, or behind them all where it is none of them.
fn position_in(names: &[Local<'_>], positions: &BTreeMap<&str, usize>, name: &str) -> usize
    ensures { ((n : List ℕ) → entry positions.now n ≡ position (λ o. bytes_eq o.name n) (locals_seen names.now)) →
        result ≡ rules.position_in (locals_seen names.now) name.now }
{
    position_or(positions, name, names.len())
}

// What a use of the local at a position does, where that is an object.
fn resolved_at(
    lookups: Lookups<'_, '_>,
    home: &str,
    names: &[Local<'_>],
    position: usize,
    u: &Use<'_>,
) -> Option<ResolvedUse>
    ensures { (us : List Source) → AreLookups us lookups.entry →
        result ≡ rules.resolved_at us home.now (locals_seen names.now) (use_seen u.now) position }
{
    match object_at(names, position) {
        None => None,
        Some(object_type) => Some(ResolvedUse {
            position,
            times: u.times,
            effect: lookups.effect(home, object_type, u.kind),
        }),
    }
}

// What a use does, where it is of an object.
fn resolved_by(
    lookups: Lookups<'_, '_>,
    home: &str,
    names: &[Local<'_>],
    positions: &BTreeMap<&str, usize>,
    u: &Use<'_>,
) -> Option<ResolvedUse>
    ensures { ((n : List ℕ) → entry positions.now n ≡ position (λ o. bytes_eq o.name n) (locals_seen names.now)) →
        (us : List Source) → AreLookups us lookups.entry → result ≡ rules.resolved_by us home.now (locals_seen names.now) (use_seen u.now) }
{
    let position = position_in(names, positions, u.object);
    resolved_at(lookups, home, names, position, u)
}

// Puts a resolved use behind the others, if there is one.
fn add_any(all: &mut Vec<ResolvedUse>, resolved: Option<ResolvedUse>) -> Result<(), NoMemory>
    ensures { OnOk result (all.new.items ≡ all.old.items ++ option_list resolved) }
{
    match resolved {
        None => Ok(()),
        Some(resolved) => {
            all.push(resolved)?;
            Ok(())
        }
    }
}

/// What these uses do, where they are of objects.
pub fn resolved_in(
    alloc: Global,
    lookups: Lookups<'_, '_>,
    home: &str,
    names: &[Local<'_>],
    uses: &[Use<'_>],
) -> Result<Vec<ResolvedUse>, NoMemory>
    ensures { (us : List Source) → AreLookups us lookups.entry →
        IfOk result (λ v. v.items ≡ rules.all_resolved us home.now (locals_seen names.now) (all_seen uses.now)) }
{
    let positions = positions_of(alloc, names)?;
    let mut all = Vec::new(alloc);
    'uses: for u in uses {
        let resolved = resolved_by(lookups, home, names, &positions, u);
        add_any(&mut all, resolved)?;
    }
    Ok(all)
}
