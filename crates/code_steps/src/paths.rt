//! Paths, whose indices stand on top of the operands.

ghost use Rattle.std.specs.Prelude.{◌≡◌, ◌≤◌, ◌++◌, ◌∷◌, [], IfOk, List, MatchOption, OnOk, false, map, true};
ghost use Rattle.value_core.specs.Datum.{Datum};
ghost use Rattle.value_core.specs.View.{datum_of};
ghost use Rattle.code_rules.specs.Machine.{indices, steps_by};
ghost use Rattle.emitted_code.specs.Views.{mark_of, marks_of};
ghost use Rattle.frame_variables.specs.Gives.{path_of};
ghost use Rattle.code_steps.specs.Pops.{PopsPath};

use crate::operands::Operands;
use emitted_code::Mark;
use frame_variables::{Step, integer_in};
use orca_base::NoMemory;
use std::alloc::Global;
use value_core::Value;

// How many indices a step takes from the operands.
fn indices_of(mark: Mark) -> usize
    ensures taken { result ≡ indices (mark_of mark ∷ []) }
    ensures few { result ≤ 1 }
{
    match mark {
        Mark::Field { .. } => 0,
        Mark::ByIndex { .. } => 1,
        Mark::ByName => 1,
    }
}

// How many indices a path takes from the operands.
fn index_count(marks: &[Mark]) -> usize
    ensures { result ≡ indices (marks_of marks.now) }
{
    let mut count = 0;
    'marks: for mark in marks {
        count += indices_of(*mark);
    }
    count
}

// Puts the steps of a path behind others, by the values of its indices.
fn add_steps(marks: &[Mark], indices: &[Value], path: &mut Vec<Step>) -> Result<(), NoMemory>
    ensures { OnOk result (path_of path.new.items ≡ path_of path.old.items ++ steps_by (marks_of marks.now) (map datum_of indices.now)) }
{
    match (marks, indices) {
        ([Mark::Field { place }, marks @ ..], _) => {
            path.push(Step::Field { place: *place })?;
            add_steps(marks, indices, path)
        }
        ([Mark::ByIndex { low }, marks @ ..], [index, indices @ ..]) => {
            let index = integer_in(index);
            path.push(Step::Index { low: *low, index })?;
            add_steps(marks, indices, path)
        }
        ([Mark::ByName, marks @ ..], [name, indices @ ..]) => {
            let name = integer_in(name);
            path.push(Step::Node { name })?;
            add_steps(marks, indices, path)
        }
        ([], _) => Ok(()),
        ([Mark::ByIndex { .. }, ..], []) => Ok(()),
        ([Mark::ByName, ..], []) => Ok(()),
    }
}

/// Takes the indices of a path from the top, and gives its steps, where so many operands are there.
///
/// # Errors
/// Want of memory.
pub fn pop_path(
    alloc: Global,
    marks: &[Mark],
    stack: &mut Operands,
) -> Result<Option<Vec<Step>>, NoMemory>
    ensures { IfOk result (λ found. MatchOption found (PopsPath (marks_of marks.now) stack.old false stack.new [])
        (λ path. PopsPath (marks_of marks.now) stack.old true stack.new (path_of path.items))) }
{
    let count = index_count(marks);
    match stack.pop_many(alloc, count)? {
        Some(indices) => {
            let mut path = Vec::new(alloc);
            add_steps(marks, indices.as_slice(), &mut path)?;
            Ok(Some(path))
        }
        None => Ok(None),
    }
}
