//! What a message does of itself, before the queue settles.

ghost use Rattle.std.specs.Prelude.{◌≡◌, ◌∷◌, [], List, IfOk};
ghost use Rattle.value_core.specs.History.{Objects as Held, after_making};
ghost use Rattle.value_core.specs.Meaning.{Performs};
ghost use Rattle.guard_queue.specs.declared.queue.Suspended.{Suspended};
ghost use Rattle.guard_queue.specs.Changes.{JoinsBlocked, objects_changed, queue_changed};
ghost use Rattle.guard_queue.specs.Fitting.{CanTryCall};
ghost use Rattle.guard_queue.specs.Settles.{lines_of, tried_in, with_state};
ghost use Rattle.object_manager.specs.Acts.{acts};
ghost use Rattle.object_manager.specs.After.{as_call, called_in, line_of, making_reply};

use guard_queue::{Answered, Change, Objects, Suspended, perform, try_call};
use orca_base::{KindNo, NoMemory, ObjectId, OpNo};
use std::alloc::Global;
use value_core::{Instance, Line, Making, Message, Parts, Performer, Reply, Tried};

/// What a message does of itself, before it is done.
#[derive(Drop)]
pub(crate) struct Acted {
    pub(crate) change: Change,
    pub(crate) lines: Vec<Answered>,
    pub(crate) forks: u16,
}

/// What a making answers.
pub(crate) fn answer_of(making: &Making) -> Reply
    ensures { result ≡ making_reply making.now }
{
    match making {
        Making::Made { .. } => Reply::Done,
        Making::Broke { fault } => Reply::Broke { fault: *fault },
    }
}

/// The change that puts a made object in, where its making doesn't fault.
pub(crate) fn put_made(kind: KindNo, object: ObjectId, making: Making) -> Change
    ensures objects { (objects : Held) → objects_changed objects result ≡ after_making objects kind object making }
    ensures queue { (queue : List Suspended) → queue_changed queue result ≡ queue }
    ensures joins { (p : Performs) (objects : Held) → JoinsBlocked p objects result }
{
    match making {
        Making::Broke { .. } => Change::Nothing,
        Making::Made { state } => {
            let kept = Instance { kind, state };
            Change::Puts { object, kept }
        }
    }
}

/// The call is tried on these objects: blocked it joins the queue, else it is performed or faults.
pub(crate) fn call_on<P: Performer>(
    alloc: Global,
    performer: &P,
    objects: &Objects,
    call: Suspended,
) -> Result<Acted, NoMemory>
    requires { CanTryCall (P.fits_state performer.now) (P.fits_args performer.now) objects.now call }
    ensures acted { IfOk result (λ a. (queue : List Suspended) → acts objects.now queue a.change a.lines
        ≡ called_in objects.now queue call (tried_in (P.performs performer.now) objects.now call)) }
    ensures joins { IfOk result (λ a. JoinsBlocked (P.performs performer.now) objects.now a.change) }
    ensures forks { IfOk result (λ a. a.forks ≡ 0) }
{
    match try_call(alloc, performer, objects, &call)? {
        Tried::Blocked => Ok(Acted {
            change: Change::Joins { call },
            lines: Vec::new(alloc),
            forks: 0,
        }),
        tried => {
            let object = call.object;
            let (line, state) = perform(objects, call, tried);
            Ok(Acted {
                change: put(object, state),
                lines: one_line(alloc, line)?,
                forks: 0,
            })
        }
    }
}

/// The message's call, as it waits where it is blocked.
pub(crate) fn call_of(
    alloc: Global,
    message: &Message,
    kind: KindNo,
    op: OpNo,
    object: ObjectId,
    args: &Parts,
) -> Result<Suspended, NoMemory>
    ensures { IfOk result (λ call. call ≡ as_call message.now kind op object args.now) }
{
    Ok(Suspended {
        process: message.process,
        call: message.call,
        kind,
        op,
        object,
        args: args.copy(alloc)?,
    })
}

/// The one line of a make or a fork, which have no guards.
pub(crate) fn plain_line(
    alloc: Global,
    message: &Message,
    reply: Reply,
) -> Result<Vec<Answered>, NoMemory>
    ensures { IfOk result (λ all. lines_of all.items ≡ line_of message.now reply ∷ []) }
{
    let line = Line {
        process: message.process,
        call: message.call,
        action: message.action.copy(alloc)?,
        guard: 0,
        reply,
    };
    one_line(alloc, line)
}

// The change that puts a state in, where there is one.
fn put(object: ObjectId, state: Option<Instance>) -> Change
    ensures objects { (objects : Held) → objects_changed objects result ≡ with_state objects object state }
    ensures queue { (queue : List Suspended) → queue_changed queue result ≡ queue }
    ensures joins { (p : Performs) (objects : Held) → JoinsBlocked p objects result }
{
    match state {
        None => Change::Nothing,
        Some(kept) => Change::Puts { object, kept },
    }
}

// One line.
fn one_line(alloc: Global, line: Line) -> Result<Vec<Answered>, NoMemory>
    ensures { IfOk result (λ all. lines_of all.items ≡ line ∷ []) }
{
    let mut lines = Vec::new(alloc);
    lines.push(Answered { line })?;
    Ok(lines)
}
