//! Instructions that stay in their body.

ghost use Rattle.std.specs.Prelude.{◌≡◌, IfOk, false};
ghost use Rattle.emitted_code.specs.Views.{instr_of};
ghost use Rattle.code_steps.specs.Moves.{HasRoom, leaves_body};
ghost use Rattle.code_steps.specs.Passing.{MovesOf};

use crate::actions::{fork, fork_on, invoke, make};
use crate::advance::Advance;
use crate::constants::{push, push_part, push_text};
use crate::lines::join_line;
use crate::loops::{count, count_up};
use crate::nodes;
use crate::operands::Operands;
use crate::operators::{apply, apply_before, decide, guard, pop, unless};
use crate::variables::{assign, delete, get, insert, take_least};
use emitted_code::Instr;
use frame_variables::Run;
use orca_base::{FaultKind, NoMemory, ProcessNo};
use orca_tree::Operator;
use std::alloc::Global;

/// One instruction that neither calls a body nor leaves one.
///
/// # Errors
/// Want of memory.
#[inline(always)]
pub fn advance(
    alloc: Global,
    instr: &Instr<'_>,
    process: ProcessNo,
    stack: &mut Operands,
    run: &mut Run<'_>,
) -> Result<Advance, NoMemory>
    requires { leaves_body (instr_of instr.now) ≡ false }
    ensures { HasRoom (instr_of instr.now) →
        IfOk result (λ a. MovesOf process (instr_of instr.now) stack.old run.old.frame a stack.new run.new.frame) }
{
    match instr {
        Instr::Push { value } => push(alloc, value, stack),
        Instr::Text { text } => push_text(alloc, text, stack),
        Instr::Part { value, path } => push_part(alloc, value, path, stack),
        Instr::Get { slot, path } => get(alloc, *slot, path, stack, run),
        Instr::Put { slot, path } => assign(alloc, *slot, path, stack, run),
        Instr::Insert { slot, path } => insert(alloc, *slot, path, stack, run),
        Instr::Delete { slot, path } => delete(alloc, *slot, path, stack, run),
        Instr::Least { slot, path } => take_least(alloc, *slot, path, stack, run),
        Instr::Before { prefix } => apply_before(*prefix, stack),
        Instr::Apply { operator } => apply(alloc, *operator, stack),
        Instr::And { to } => decide(Operator::And, *to, stack),
        Instr::Or { to } => decide(Operator::Or, *to, stack),
        Instr::Pop => Ok(pop(stack)),
        Instr::Turn => Ok(Advance::Turned),
        Instr::Missing => Ok(Advance::Fails {
            fault: FaultKind::NoReturn,
        }),
        Instr::Jump { to } => Ok(Advance::To { address: *to }),
        Instr::Unless { to } => Ok(unless(*to, stack)),
        Instr::Count { slot, to } => count(alloc, *slot, *to, stack, run),
        Instr::Upto { slot, to } => count_up(alloc, *slot, *to, stack, run),
        Instr::Make { kind, count, slot } => make(alloc, process, *kind, *count, *slot, run),
        Instr::Invoke {
            kind,
            operation,
            count,
            object,
        } => invoke(alloc, *kind, *operation, *object, *count, stack, run),
        Instr::Line { names } => join_line(alloc, names, stack),
        Instr::Fork { text, count } => fork(alloc, *text, *count, stack),
        Instr::ForkOn { text, count } => fork_on(alloc, *text, *count, stack),
        Instr::AddNode { fresh, shapes } => nodes::add(alloc, fresh, shapes, stack, run),
        Instr::DeleteNode { shapes } => nodes::delete(alloc, shapes, stack, run),
        Instr::Guard { to } => Ok(guard(*to, stack)),
        Instr::Blocked => Ok(Advance::Blocks),
        Instr::Call { .. } | Instr::Return | Instr::Result | Instr::End => unreachable!(),
    }
}
