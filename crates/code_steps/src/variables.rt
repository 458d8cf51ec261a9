//! Variables: what is read from them, and what is put into them.

ghost use Rattle.std.specs.Prelude.{◌≡◌, ◌∷◌, [], IfOk, IfSome, IsTrue};
ghost use Rattle.frame_variables.specs.Gives.{state_of};
ghost use Rattle.code_rules.specs.Instructions as rules;
ghost use Rattle.code_rules.specs.Machine.{at_state};
ghost use Rattle.emitted_code.specs.Views.{marks_of};
ghost use Rattle.code_steps.specs.Passing.{Stores};
ghost use Rattle.value_core.specs.View.{datum_of};
ghost use Rattle.code_steps.specs.Moves.{Moves};

use crate::advance::{Advance, changed};
use crate::operands::Operands;
use crate::paths::pop_path;
use crate::pushing::{copied, push_found, push_made};
use emitted_code::Mark;
use frame_variables::{Run, Step, Target, drop_element, find, integer_in, put, store, take};
use orca_base::{FaultKind, NoMemory};
use std::alloc::Global;
use std::slice;
use value_core::Value;

/// No replies and no turns, which what is done with variables doesn't use.
pub fn clear_run(run: &mut Run<'_>)
    ensures { state_of run.new ≡ at_state run.old.frame }
{
    run.replies = &[];
    run.left = 0;
}

// Whether a path is empty.
#[inline(always)]
fn is_whole(marks: &[Mark]) -> bool
    ensures { IsTrue result → marks_of marks.now ≡ [] }
{
    marks.is_empty()
}

// The low bound of an array, where a path leads to one of its elements and no further.
#[inline(always)]
fn element_of(marks: &[Mark]) -> Option<i128>
    ensures { IfSome result (λ low. marks_of marks.now ≡ rules.ByIndex low ∷ []) }
{
    match marks {
        [Mark::ByIndex { low }] => Some(*low),
        _ => None,
    }
}

// The value of a variable.
#[inline(always)]
fn get_whole(
    alloc: Global,
    slot: usize,
    stack: &mut Operands,
    run: &Run<'_>,
) -> Result<Advance, NoMemory>
    ensures { IfOk result (λ a. Moves (rules.Get slot []) stack.old run.now.frame a stack.new run.now.frame) }
{
    match run.frame.get(slot) {
        Some(value) => {
            stack.push(copied(alloc, value)?)?;
            Ok(Advance::Next)
        }
        None => Ok(Advance::Fails {
            fault: FaultKind::IndexOutside,
        }),
    }
}

// The value of an element of a variable, whose array has this low bound.
#[inline(always)]
fn get_element(
    alloc: Global,
    slot: usize,
    low: i128,
    stack: &mut Operands,
    run: &Run<'_>,
) -> Result<Advance, NoMemory>
    ensures { IfOk result (λ a. Moves (rules.Get slot (rules.ByIndex low ∷ [])) stack.old run.now.frame a stack.new run.now.frame) }
{
    let Some(index) = stack.pop() else {
        return Ok(Advance::Stuck);
    };
    let index = integer_in(&index);
    let step = Step::Index { low, index };
    let zero = Value::Int(0);
    push_found(alloc, find(slot, slice::from_ref(&step), run, &zero), stack)
}

// The value at the end of a path.
fn get_part(
    alloc: Global,
    slot: usize,
    marks: &[Mark],
    stack: &mut Operands,
    run: &Run<'_>,
) -> Result<Advance, NoMemory>
    ensures { IfOk result (λ a. Moves (rules.Get slot (marks_of marks.now)) stack.old run.now.frame a stack.new run.now.frame) }
{
    let Some(path) = pop_path(alloc, marks, stack)? else {
        return Ok(Advance::Stuck);
    };
    let zero = Value::Int(0);
    push_found(alloc, find(slot, &path, run, &zero), stack)
}

/// The value at the end of a path.
#[inline(always)]
pub fn get(
    alloc: Global,
    slot: usize,
    marks: &[Mark],
    stack: &mut Operands,
    run: &Run<'_>,
) -> Result<Advance, NoMemory>
    ensures { IfOk result (λ a. Moves (rules.Get slot (marks_of marks.now)) stack.old run.now.frame a stack.new run.now.frame) }
{
    if is_whole(marks) {
        return get_whole(alloc, slot, stack, run);
    }
    match element_of(marks) {
        Some(low) => get_element(alloc, slot, low, stack, run),
        None => get_part(alloc, slot, marks, stack, run),
    }
}

// A value goes to a variable.
fn put_whole(
    alloc: Global,
    slot: usize,
    value: Value,
    run: &mut Run<'_>,
) -> Result<Advance, NoMemory>
    ensures { IfOk result (λ a. Stores slot (datum_of value) run.old.frame a run.new.frame) }
{
    let to = Target {
        slot,
        path: Vec::new(alloc),
    };
    clear_run(run);
    changed(store(alloc, &to, value, run))
}

// An assignment to a variable.
#[inline(always)]
fn assign_whole(
    alloc: Global,
    slot: usize,
    stack: &mut Operands,
    run: &mut Run<'_>,
) -> Result<Advance, NoMemory>
    ensures { IfOk result (λ a. Moves (rules.Put slot []) stack.old run.old.frame a stack.new run.new.frame) }
{
    let Some(value) = stack.pop() else {
        return Ok(Advance::Stuck);
    };
    put_whole(alloc, slot, value, run)
}

// An assignment to an element of a variable, whose array has this low bound.
fn assign_element(
    alloc: Global,
    slot: usize,
    low: i128,
    stack: &mut Operands,
    run: &mut Run<'_>,
) -> Result<Advance, NoMemory>
    ensures { IfOk result (λ a. Moves (rules.Put slot (rules.ByIndex low ∷ [])) stack.old run.old.frame a stack.new run.new.frame) }
{
    let Some(value) = stack.pop() else {
        return Ok(Advance::Stuck);
    };
    let Some(index) = stack.pop() else {
        return Ok(Advance::Stuck);
    };
    let index = integer_in(&index);
    let mut path = Vec::new(alloc);
    path.push(Step::Index { low, index })?;
    let to = Target { slot, path };
    clear_run(run);
    changed(store(alloc, &to, value, run))
}

// An assignment to the end of a path.
fn assign_part(
    alloc: Global,
    slot: usize,
    marks: &[Mark],
    stack: &mut Operands,
    run: &mut Run<'_>,
) -> Result<Advance, NoMemory>
    ensures { IfOk result (λ a. Moves (rules.Put slot (marks_of marks.now)) stack.old run.old.frame a stack.new run.new.frame) }
{
    let Some(value) = stack.pop() else {
        return Ok(Advance::Stuck);
    };
    let Some(path) = pop_path(alloc, marks, stack)? else {
        return Ok(Advance::Stuck);
    };
    let to = Target { slot, path };
    clear_run(run);
    changed(store(alloc, &to, value, run))
}

/// An assignment: the value stands on top, and the path's indices beneath.
#[inline(always)]
pub fn assign(
    alloc: Global,
    slot: usize,
    marks: &[Mark],
    stack: &mut Operands,
    run: &mut Run<'_>,
) -> Result<Advance, NoMemory>
    ensures { IfOk result (λ a. Moves (rules.Put slot (marks_of marks.now)) stack.old run.old.frame a stack.new run.new.frame) }
{
    if is_whole(marks) {
        return assign_whole(alloc, slot, stack, run);
    }
    match element_of(marks) {
        Some(low) => assign_element(alloc, slot, low, stack, run),
        None => assign_part(alloc, slot, marks, stack, run),
    }
}

/// `insert`: the path's indices stand on top, and the element beneath.
pub fn insert(
    alloc: Global,
    slot: usize,
    marks: &[Mark],
    stack: &mut Operands,
    run: &mut Run<'_>,
) -> Result<Advance, NoMemory>
    ensures { IfOk result (λ a. Moves (rules.Insert slot (marks_of marks.now)) stack.old run.old.frame a stack.new run.new.frame) }
{
    let Some(path) = pop_path(alloc, marks, stack)? else {
        return Ok(Advance::Stuck);
    };
    let Some(element) = stack.pop() else {
        return Ok(Advance::Stuck);
    };
    let to = Target { slot, path };
    clear_run(run);
    changed(put(alloc, &to, element, run))
}

/// `delete`, with the same operands.
pub fn delete(
    alloc: Global,
    slot: usize,
    marks: &[Mark],
    stack: &mut Operands,
    run: &mut Run<'_>,
) -> Result<Advance, NoMemory>
    ensures { IfOk result (λ a. Moves (rules.Delete slot (marks_of marks.now)) stack.old run.old.frame a stack.new run.new.frame) }
{
    let Some(path) = pop_path(alloc, marks, stack)? else {
        return Ok(Advance::Stuck);
    };
    let Some(element) = stack.pop() else {
        return Ok(Advance::Stuck);
    };
    let to = Target { slot, path };
    clear_run(run);
    changed(drop_element(alloc, &to, &element, run))
}

/// `from`: the least element goes, and is pushed.
pub fn take_least(
    alloc: Global,
    slot: usize,
    marks: &[Mark],
    stack: &mut Operands,
    run: &mut Run<'_>,
) -> Result<Advance, NoMemory>
    ensures { IfOk result (λ a. Moves (rules.Least slot (marks_of marks.now)) stack.old run.old.frame a stack.new run.new.frame) }
{
    let Some(path) = pop_path(alloc, marks, stack)? else {
        return Ok(Advance::Stuck);
    };
    let to = Target { slot, path };
    clear_run(run);
    push_made(take(alloc, &to, run), stack)
}
