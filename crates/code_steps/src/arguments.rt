//! Arguments, which stand on the operands, the last one on top.

ghost use Rattle.std.specs.Prelude.{◌≡◌, ◌∷◌, IfOk, List, MatchOption, [], false, map, true};
ghost use Rattle.code_rules.specs.Instructions.{Gives, Lends};
ghost use Rattle.emitted_code.specs.Views.{marks_of, shape_of};
ghost use Rattle.frame_variables.specs.Gives.{passed_of};
ghost use Rattle.code_steps.specs.Passing.{Takes, TakesOne};

use crate::operands::Operands;
use crate::paths::pop_path;
use emitted_code::{Mark, Shape};
use frame_variables::{Passed, Target};
use orca_base::NoMemory;
use std::alloc::Global;

// Takes an argument that gives a value.
fn take_given(stack: &mut Operands) -> Option<Passed>
    ensures { TakesOne Gives stack.old result stack.new }
{
    match stack.pop() {
        Some(value) => Some(Passed::Given { value }),
        None => None,
    }
}

// Takes an argument that lends a place, by the indices of its path.
fn take_lent(
    alloc: Global,
    slot: usize,
    marks: &[Mark],
    stack: &mut Operands,
) -> Result<Option<Passed>, NoMemory>
    ensures { IfOk result (λ found. TakesOne (Lends slot (marks_of marks.now)) stack.old found stack.new) }
{
    let Some(path) = pop_path(alloc, marks, stack)? else {
        return Ok(None);
    };
    let to = Target { slot, path };
    Ok(Some(Passed::Lent { to }))
}

// Takes one argument, where its operands are there.
fn take_one(alloc: Global, shape: &Shape, stack: &mut Operands) -> Result<Option<Passed>, NoMemory>
    ensures { IfOk result (λ found. TakesOne (shape_of shape.now) stack.old found stack.new) }
{
    match shape {
        Shape::Gives => Ok(take_given(stack)),
        Shape::Lends { slot, path } => take_lent(alloc, *slot, path, stack),
    }
}

// Takes arguments, and puts them in front of others, the last one first. It says whether their operands were there.
fn take_before(
    alloc: Global,
    shapes: &[Shape],
    stack: &mut Operands,
    args: &mut Vec<Passed>,
) -> Result<bool, NoMemory>
    requires { args.old.items ≡ [] }
    ensures { IfOk result (λ done. Takes (map shape_of shapes.now) stack.old done stack.new (map passed_of args.new.items)) }
{
    match shapes {
        [] => Ok(true),
        [shape, shapes @ ..] => {
            let others = take_before(alloc, shapes, stack, args)?;
            if !others {
                return Ok(false);
            }
            let Some(passed) = take_one(alloc, shape, stack)? else {
                return Ok(false);
            };
            args.insert(0, passed)?;
            Ok(true)
        }
    }
}

/// Takes arguments, in their order, where their operands are there.
///
/// # Errors
/// Want of memory.
pub fn take_args(
    alloc: Global,
    shapes: &[Shape],
    stack: &mut Operands,
) -> Result<Option<Vec<Passed>>, NoMemory>
    ensures { IfOk result (λ found. MatchOption found (Takes (map shape_of shapes.now) stack.old false stack.new [])
        (λ args. Takes (map shape_of shapes.now) stack.old true stack.new (map passed_of args.items))) }
{
    let mut args = Vec::new(alloc);
    if take_before(alloc, shapes, stack, &mut args)? {
        return Ok(Some(args));
    }
    Ok(None)
}
