//! Copies as they are sent to a member that joins late.

ghost use Rattle.std.specs.Prelude.{◌≡◌, IfOk, map};
ghost use Rattle.std.specs.List.{All};
ghost use Rattle.value_core.specs.declared.message.Message.{Message as Sent};
ghost use Rattle.guard_queue.specs.Shown.{Rises};
ghost use Rattle.object_manager.specs.State.{IsCall, message_of, objects_of};

use guard_queue::{Objects, Queue, Suspended};
use orca_base::{KindNo, NoMemory, ObjectId};
use std::alloc::Global;
use std::marker::Model;
use value_core::{Action, Instance, Message, ObjectState};

/// A replicated object with its id.
#[derive(Debug, Drop)]
pub struct ObjectEntry {
    pub object: ObjectId,
    pub kind: KindNo,
    pub state: ObjectState,
}

/// Copies without single objects: the numbers of applied entries and of processes, the replicated objects in order of their ids,
/// and the suspended calls on them as messages, the oldest first.
#[derive(Debug, Drop)]
pub struct CopiesState {
    pub applied: u64,
    pub processes: u16,
    pub objects: Vec<ObjectEntry>,
    pub queue: Vec<Message>,
}

impl Model for CopiesState {
    ghost use Rattle.object_manager.specs.State.{Stated, objects_of};

    ghost Value = { Stated };

    ghost use Rattle.std.specs.Coded.{codes};
    ghost use Rattle.value_core.specs.Code.{data_code};

    ghost coded = { Prim.hlevel (codes, data_code) };

    ghost view = { λ s. record {
      applied = s.applied;
      processes = s.processes;
      objects = objects_of s.objects.items;
      queue = s.queue.items;
    } };
}

/// The objects as entries, in order of their ids.
pub(crate) fn entries_of(alloc: Global, objects: &Objects) -> Result<Vec<ObjectEntry>, NoMemory>
    ensures { IfOk result (λ all. objects_of all.items ≡ objects.now) }
{
    let mut all = Vec::new(alloc);
    for (object, kept) in &objects.entries(alloc)? {
        all.push(ObjectEntry {
            object: *object,
            kind: kept.kind,
            state: kept.state.copy(alloc)?,
        })?;
    }
    Ok(all)
}

/// The suspended calls as messages.
pub(crate) fn messages_of(alloc: Global, queue: &Queue) -> Result<Vec<Message>, NoMemory>
    ensures { IfOk result (λ all. all.items ≡ map message_of queue.now) }
{
    let mut all = Vec::new(alloc);
    for at in 0..queue.len() {
        all.push(message_of(alloc, queue.get(at))?)?;
    }
    Ok(all)
}

/// These objects, whose ids rise.
pub(crate) fn objects_from(alloc: Global, entries: &[ObjectEntry]) -> Result<Objects, NoMemory>
    requires { Rises (objects_of entries.now) }
    ensures { IfOk result (λ o. o ≡ objects_of entries.now) }
{
    let mut objects = Objects::new(alloc)?;
    for entry in entries {
        let kept = Instance {
            kind: entry.kind,
            state: entry.state.copy(alloc)?,
        };
        objects.put(alloc, entry.object, kept)?;
    }
    Ok(objects)
}

/// The suspended calls of these messages, which are calls.
pub(crate) fn queue_from(alloc: Global, messages: &[Message]) -> Result<Queue, NoMemory>
    requires { All (λ (m : Sent). IsCall m.action) messages.now }
    ensures { IfOk result (λ q. map message_of q ≡ messages.now) }
{
    let mut queue = Queue::new(alloc);
    for message in messages {
        queue.push(alloc, call_in(alloc, message)?)?;
    }
    Ok(queue)
}

// The message of a suspended call.
fn message_of(alloc: Global, call: &Suspended) -> Result<Message, NoMemory>
    ensures { IfOk result (λ m. m ≡ message_of call.now) }
{
    Ok(Message {
        process: call.process,
        call: call.call,
        action: Action::Call {
            kind: call.kind,
            op: call.op,
            object: call.object,
            args: call.args.copy(alloc)?,
        },
    })
}

// The suspended call of a message, which is a call.
fn call_in(alloc: Global, message: &Message) -> Result<Suspended, NoMemory>
    requires { IsCall message.now.action }
    ensures { IfOk result (λ call. message_of call ≡ message.now) }
{
    let Action::Call {
        kind,
        op,
        object,
        args,
    } = &message.action
    else {
        unreachable!()
    };
    Ok(Suspended {
        process: message.process,
        call: message.call,
        kind: *kind,
        op: *op,
        object: *object,
        args: args.copy(alloc)?,
    })
}
