//! What is read from variables and done to them.

ghost use Rattle.std.specs.Prelude.{◌≡◌, ◌≤◌, Err, IfOk, IsTrue, MatchResult, Ok, Some, ok_or, option_map, pos, slice_get};
ghost use Rattle.value_core.specs.Datum as datum;
ghost use Rattle.value_core.specs.Datum.{Datum};
ghost use Rattle.value_core.specs.View.{datum_of};
ghost use Rattle.value_paths.specs.Paths.{part_at};
ghost use Rattle.orca_base.specs.declared.fault.FaultKind.TheVariants.{IndexOutside};
ghost use Rattle.meaning_rules.specs.Operators.{and_then, fitting};
ghost use Rattle.meaning_rules.specs.States.{State, gives};
ghost use Rattle.meaning_rules.specs.Variables as rules;
ghost use Rattle.frame_variables.specs.Bounded.{IsBound, IsWithin};
ghost use Rattle.frame_variables.specs.Exchanges.{Exchanges, IsPut, PutsBack};
ghost use Rattle.frame_variables.specs.Gives.{Gives, path_of, state_of, target_of};
ghost use Rattle.frame_variables.specs.Ordered.{AllOrdered, IsOrdered};

use crate::bounds::{UNKNOWN, grown};
use crate::elements::{count, moved};
use crate::firm::is_firm;
use crate::graphs::{added, beside_node, deleted};
use crate::halving::{delete, insert, take_least};
use crate::operators::integer_in;
use crate::orders::is_ordered;
use crate::parts::find_part;
use crate::run::Run;
use crate::sizes::{size_beside, told_by, within};
use crate::steps::{Step, Target};
use crate::stop::Stop;
use orca_base::FaultKind;
use std::alloc::Global;
use value_core::Value;
use value_paths::paths_law;

/// The part at the end of a path of the variable in a slot, where it stands. `zero` stands for the value of what is no node.
///
/// # Errors
/// `IndexOutside`.
pub fn find<'a>(
    slot: usize,
    path: &[Step],
    run: &'a Run<'_>,
    zero: &'a Value,
) -> Result<&'a Value, FaultKind>
    requires { datum_of zero.now ≡ datum.int (pos 0) }
    ensures { MatchResult result
        (λ p. and_then (ok_or (slice_get (state_of run.now).frame slot) IndexOutside) (part_at (path_of path.now)) ≡ Ok (datum_of p.now))
        (λ f. and_then (ok_or (slice_get (state_of run.now).frame slot) IndexOutside) (part_at (path_of path.now)) ≡ Err f) }
{
    match run.frame.get(slot) {
        Some(whole) => find_part(whole, path, zero, run.frame.is_in_order()),
        None => Err(FaultKind::IndexOutside),
    }
}

// Puts a value at a target, of which it is told whether it is known to be in order, and gives what stood there.
fn exchange(
    alloc: Global,
    to: &Target,
    value: Value,
    in_order: bool,
    run: &mut Run<'_>,
) -> Result<Value, Stop>
    requires { IsTrue in_order → IsOrdered (datum_of value) }
    ensures left { run.new.left ≡ run.old.left }
    ensures put { Exchanges (target_of to.now) (datum_of value) (state_of run.old) result (state_of run.new) }
{
    run.frame.exchange(alloc, to, value, in_order)
}

// Takes what stands at a target out of its variable for a while, where 0 stands then.
fn lift(alloc: Global, to: &Target, run: &mut Run<'_>) -> Result<Value, Stop>
    ensures left { run.new.left ≡ run.old.left }
    ensures lifted { Exchanges (target_of to.now) (datum.int (pos 0)) (state_of run.old) result (state_of run.new) }
    ensures ordered { AllOrdered run.old.frame → IfOk result (λ v. IsOrdered (datum_of v)) }
{
    exchange(alloc, to, Value::Int(0), true, run)
}

// Puts a value at a target from which what stood there was taken out.
fn lower(
    alloc: Global,
    to: &Target,
    value: Value,
    in_order: bool,
    run: &mut Run<'_>,
) -> Result<(), Stop>
    requires { IsTrue in_order → IsOrdered (datum_of value) }
    ensures left { run.new.left ≡ run.old.left }
    ensures lowered { (s : State) (old : Datum) → IsPut (target_of to.now) old (datum.int (pos 0)) s (state_of run.old) →
        PutsBack (target_of to.now) old (datum_of value) s result (state_of run.new) }
{
    paths_law();
    exchange(alloc, to, value, in_order, run)?;
    Ok(())
}

// An upper bound of the size of a target's variable, if one is known and sizes add up where something is put there; else `UNKNOWN`.
fn bound_at(to: &Target, run: &Run<'_>) -> u32
    ensures { (whole : Datum) → slice_get run.now.frame to.now.slot ≡ Some whole → IsBound result (target_of to.now).path whole }
{
    match run.frame.get(to.slot) {
        Some(whole) if is_firm(whole, &to.path, run.frame.is_in_order()) => {
            run.frame.bound(to.slot)
        }
        _ => UNKNOWN,
    }
}

// Keeps an upper bound of the size of a target's variable.
fn keep(to: &Target, bound: u32, run: &mut Run<'_>)
    requires { (whole : Datum) → slice_get run.old.frame to.now.slot ≡ Some whole → IsWithin bound whole }
    ensures left { run.new.left ≡ run.old.left }
    ensures same { state_of run.new ≡ state_of run.old }
{
    run.frame.note(to.slot, bound);
}

// Whether the variable of a target is no larger than one may be. It is counted where its bound doesn't tell.
fn check(to: &Target, bound: u32, run: &mut Run<'_>) -> Result<(), Stop>
    requires { (whole : Datum) → slice_get run.old.frame to.now.slot ≡ Some whole → IsWithin bound whole }
    ensures left { run.new.left ≡ run.old.left }
    ensures same { state_of run.new ≡ state_of run.old }
    ensures fits { (whole : Datum) → rules.whole_at (target_of to.now) (state_of run.old) ≡ Ok whole →
        Gives (λ _. whole) result (state_of run.old) (gives (fitting whole) (state_of run.old)) }
{
    let size = told_by(bound, to.slot, &run.frame);
    keep(to, size, run);
    Ok(within(size)?)
}

/// Stores a value at a target.
///
/// # Errors
/// `IndexOutside`, `TooLarge` where the variable would be larger than one may be, and want of memory.
pub fn store(alloc: Global, to: &Target, value: Value, run: &mut Run<'_>) -> Result<(), Stop>
    ensures left { run.new.left ≤ run.old.left }
    ensures gives { Gives (λ u. u) result (state_of run.new) (rules.store (target_of to.now) (datum_of value) (state_of run.old)) }
{
    let in_order = is_ordered(&value);
    let bound = bound_at(to, run);
    let more = size_beside(bound, &value);
    let old = exchange(alloc, to, value, in_order, run)?;
    check(to, grown(bound, more, size_beside(bound, &old)), run)
}

/// `insert`: adds an element to the set or bag at a target.
///
/// # Errors
/// `IndexOutside`, `TooLarge`, and want of memory.
pub fn put(alloc: Global, to: &Target, element: Value, run: &mut Run<'_>) -> Result<(), Stop>
    ensures left { run.new.left ≤ run.old.left }
    ensures gives { Gives (λ u. u) result (state_of run.new) (rules.put (target_of to.now) (datum_of element) (state_of run.old)) }
{
    let in_order = run.frame.is_in_order();
    let bound = bound_at(to, run);
    let size = size_beside(bound, &element);
    let mut all = lift(alloc, to, run)?;
    let before = count(&all);
    let in_order = insert(alloc, &mut all, element, in_order)?;
    let more = moved(size, before, &all);
    lower(alloc, to, all, in_order, run)?;
    check(to, grown(bound, more, 0), run)
}

/// `delete`: takes an element out of the set or bag at a target, where it is there.
///
/// # Errors
/// `IndexOutside`, and want of memory.
pub fn drop_element(
    alloc: Global,
    to: &Target,
    element: &Value,
    run: &mut Run<'_>,
) -> Result<(), Stop>
    ensures left { run.new.left ≤ run.old.left }
    ensures gives { Gives (λ u. u) result (state_of run.new) (rules.drop_element (target_of to.now) (datum_of element.now) (state_of run.old)) }
{
    let in_order = run.frame.is_in_order();
    let bound = bound_at(to, run);
    let mut all = lift(alloc, to, run)?;
    let before = count(&all);
    delete(alloc, &mut all, element, in_order)?;
    let less = moved(size_beside(bound, element), before, &all);
    lower(alloc, to, all, in_order, run)?;
    keep(to, grown(bound, 0, less), run);
    Ok(())
}

/// `from`: takes the least element out of the set or bag at a target.
///
/// # Errors
/// `IndexOutside`, `FromEmpty`, and want of memory.
pub fn take(alloc: Global, to: &Target, run: &mut Run<'_>) -> Result<Value, Stop>
    ensures left { run.new.left ≤ run.old.left }
    ensures gives { Gives datum_of result (state_of run.new) (rules.take (target_of to.now) (state_of run.old)) }
{
    let in_order = run.frame.is_in_order();
    let bound = bound_at(to, run);
    let mut all = lift(alloc, to, run)?;
    let least = take_least(alloc, &mut all)?;
    lower(alloc, to, all, in_order, run)?;
    keep(to, grown(bound, 0, size_beside(bound, &least)), run);
    Ok(least)
}

/// `addnode`: adds a node with this value to the graph at a target, and gives its name.
///
/// # Errors
/// `IndexOutside`, `Overflow` where the graph has given its last name, `TooLarge`, and want of memory.
pub fn add_node(
    alloc: Global,
    to: &Target,
    fresh: Value,
    run: &mut Run<'_>,
) -> Result<Option<Value>, Stop>
    ensures left { run.new.left ≤ run.old.left }
    ensures gives { Gives (option_map datum_of) result (state_of run.new) (rules.add_node (target_of to.now) (datum_of fresh) (state_of run.old)) }
{
    let in_order = run.frame.is_in_order();
    let bound = bound_at(to, run);
    let size = size_beside(bound, &fresh);
    let old = lift(alloc, to, run)?;
    let more = size + beside_node(&old);
    let (name, graph, in_order) = added(alloc, fresh, old, in_order)?;
    lower(alloc, to, graph, in_order, run)?;
    check(to, grown(bound, more, 0), run)?;
    Ok(Some(Value::Int(name)))
}

/// `deletenode`: takes the node with this name out of the graph at a target.
///
/// # Errors
/// `IndexOutside`, and want of memory.
pub fn delete_node(
    alloc: Global,
    to: &Target,
    name: &Value,
    run: &mut Run<'_>,
) -> Result<Option<Value>, Stop>
    ensures left { run.new.left ≤ run.old.left }
    ensures gives { Gives (option_map datum_of) result (state_of run.new) (rules.delete_node (target_of to.now) (datum_of name.now) (state_of run.old)) }
{
    let in_order = run.frame.is_in_order();
    let bound = bound_at(to, run);
    let old = lift(alloc, to, run)?;
    let graph = deleted(alloc, integer_in(name), old, in_order)?;
    lower(alloc, to, graph, in_order, run)?;
    keep(to, bound, run);
    Ok(None)
}
