//! Processes, as a replay keeps them.

ghost use Rattle.std.specs.Prelude.{◌≡◌, ◌<◌, ◌+◌, ◌^◌, ◌↔◌, IfOk, IfSome, IsTrue, None, OnOk, length, slice_index_or, slice_set};
ghost use Rattle.value_core.specs.Goes.{ForEach, ForSome, HasReplied};
ghost use Rattle.value_core.specs.Lawful.{FitsAction};
ghost use Rattle.value_core.specs.Performable.{is_performable};
ghost use Rattle.value_core.specs.declared.meaning.Doing.TheVariants.{At};
ghost use Rattle.value_core.specs.declared.processor.Halt.TheVariants as halt;
ghost use Rattle.history_check.specs.Players.{Begins, ComesTo, HasTurns, MayBegin};

use orca_base::{NoMemory, ProcessNo, TURNS};
use std::alloc::Global;
use value_core::{Action, Halt, Processor, Reply};

/// A process: the state of its machine, and how many lines it had.
#[derive(Drop)]
pub struct Player<S: Drop> {
    pub(crate) state: S,
    pub(crate) calls: u64,
}

// Takes out what stands at this place, if anything does.
pub(crate) fn take_at<T: Drop>(slots: &mut Vec<Option<T>>, at: usize) -> Option<T>
    ensures taken { result ≡ slice_index_or slots.old.items at None }
    ensures rest { slots.new.items ≡ slice_set slots.old.items at None }
{
    match slots.get_mut(at) {
        Some(slot) => slot.take(),
        None => None,
    }
}

// Whether the action is a make, a call or a fork.
fn is_performable(action: &Action) -> bool
    ensures { result ≡ is_performable action.now }
{
    match action {
        Action::Make { .. } | Action::Call { .. } | Action::Fork { .. } => true,
        Action::Ended | Action::Faulted { .. } => false,
    }
}

// Whether a process halted at this action, and it can be performed.
fn is_at(reached: &Halt, action: &Action) -> bool
    ensures { IsTrue result ↔ ((reached.now ≡ halt.At action.now) × IsTrue (is_performable action.now)) }
{
    match reached {
        Halt::At { action: next } => is_performable(action) && next.is(action),
        Halt::Paused => false,
    }
}

// Computes a process up to its next action, and gives its state there, where the action is this one and can be performed.
pub(crate) fn come_to<P: Processor>(
    alloc: Global,
    program: &P,
    state: P::State,
    action: &Action,
) -> Result<Option<P::State>, NoMemory>
    requires { HasTurns (P.stands program.now state) }
    ensures comes { IfOk result (ComesTo (P.computes program.now) (P.stands program.now) state action.now) }
    ensures left { IfOk result (λ at. IfSome at (λ s. P.halted program.now s action.now)) }
{
    let budget = (TURNS - program.turns(&state)) as u32;
    let (after, halt) = program.go(alloc, state, budget)?;
    if is_at(&halt, action) {
        Ok(Some(after))
    } else {
        Ok(None)
    }
}

// A process that was left at an action, with so many lines before, once it received the reply.
pub(crate) fn received<P: Processor>(
    program: &P,
    state: P::State,
    calls: u64,
    reply: Reply,
) -> Player<P::State>
    requires stands { ForSome (P.stands program.now state) }
    requires fits { (action : Action) × P.halted program.now state action × FitsAction (P.fits_reply program.now) (At action) reply }
    requires calls { calls < 2 ^ 32 }
    ensures state { ForEach (P.stands program.now state) (HasReplied reply (P.stands program.now result.state)) }
    ensures calls { result.calls ≡ calls + 1 }
{
    Player {
        state: program.reply(state, reply),
        calls: calls + 1,
    }
}

// The process that a fork begins comes behind the others. One whose number no line can bear isn't kept.
pub(crate) fn begin<P: Processor>(
    alloc: Global,
    program: &P,
    players: &mut Vec<Option<Player<P::State>>>,
    action: &Action,
) -> Result<(), NoMemory>
    requires { MayBegin (P.fits_text program.now) action.now }
    ensures { OnOk result (Begins (P.stands program.now) action.now players.old.items players.new.items) }
{
    let Action::Fork { process, args, .. } = action else {
        return Ok(());
    };
    let number = players.len();
    if number > u16::MAX as usize {
        return Ok(());
    }
    let state = program.start(alloc, *process, ProcessNo(number as u16), args)?;
    players.push(Some(Player { state, calls: 0 }))?;
    Ok(())
}
