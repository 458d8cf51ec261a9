//! What may go to another thread (docs/RUNTIME.md, What threads share).
//!
//! Values and what is made of them are shared by count, and so are objects, the calls that wait on them, messages, and the states of
//! processes. That they may be handed to another thread is what this crate proves: each function's clauses say it of its types (`IsSend`),
//! or that several threads may share their values (`IsSync`). Of a machine and of its states it is asked. None of its functions does
//! anything. It stands on the crates whose types it names. It knows nothing of locks and of workers.
//!
//! A clause speaks of a type's row, which is its meaning.
#![tactic(auto)]

ghost use denote.Param.Send.{IsSend, IsSync};
ghost use Rattle.group_member.specs.contracts.member.Member as member_type;
ghost use Rattle.guard_queue.specs.contracts.objects.Objects as objects_type;
ghost use Rattle.guard_queue.specs.contracts.queue.Queue as queue_type;
ghost use Rattle.history_buffer.specs.contracts.shared.Shared as shared_type;
ghost use Rattle.node_core.specs.contracts.node.Node as node_type;
ghost use Rattle.node_core.specs.contracts.task.Done as done_type;
ghost use Rattle.node_core.specs.contracts.task.Task as task_type;
ghost use Rattle.object_manager.specs.contracts.copies.Copies as copies_type;
ghost use Rattle.object_manager.specs.contracts.view.View as view_type;
ghost use Rattle.value_core.specs.contracts.action.Action as action_type;
ghost use Rattle.value_core.specs.contracts.action.Instance as instance_type;
ghost use Rattle.value_core.specs.contracts.action.Line as line_type;
ghost use Rattle.value_core.specs.contracts.action.Reply as reply_type;
ghost use Rattle.value_core.specs.contracts.message.Message as message_type;
ghost use Rattle.value_core.specs.contracts.value.Parts as parts_type;
ghost use Rattle.value_core.specs.contracts.value.Value as value_type;
ghost use Rattle.world_core.specs.contracts.world.World as world_type;

use group_member::Member;
use guard_queue::{Objects, Queue};
use history_buffer::Shared;
use node_core::{Done, Node, Task};
use node_parts::OneRun;
use object_manager::{Copies, View};
use orca_base::Body;
use value_core::{Action, Instance, Line, Message, Parts, Reply, Value};
use world_core::World;

// Asks that values of this type may be handed to another thread.
fn may_be_sent<T: Send>()
    ensures { IsSend T.row }
{}

// Asks that several threads may share a value of this type.
fn may_be_shared<T: Sync>()
    ensures { IsSync T.row }
{}

/// Values may be sent and shared, and so may what is made of them.
pub fn values()
    ensures value { IsSend value_type.the_row × IsSync value_type.the_row }
    ensures parts { IsSend parts_type.the_row × IsSync parts_type.the_row }
    ensures action { IsSend action_type.the_row × IsSync action_type.the_row }
    ensures reply { IsSend reply_type.the_row × IsSync reply_type.the_row }
    ensures line { IsSend line_type.the_row × IsSync line_type.the_row }
    ensures message { IsSend message_type.the_row × IsSync message_type.the_row }
    ensures instance { IsSend instance_type.the_row × IsSync instance_type.the_row }
{
    may_be_sent::<Value>();
    may_be_sent::<Parts>();
    may_be_sent::<Action>();
    may_be_sent::<Reply>();
    may_be_sent::<Line>();
    may_be_sent::<Message>();
    may_be_sent::<Instance>();
    may_be_shared::<Value>();
    may_be_shared::<Parts>();
    may_be_shared::<Action>();
    may_be_shared::<Reply>();
    may_be_shared::<Line>();
    may_be_shared::<Message>();
    may_be_shared::<Instance>();
}

/// Objects may be sent and shared, and the calls that wait on them may be sent.
pub fn objects()
    ensures objects { IsSend objects_type.the_row × IsSync objects_type.the_row }
    ensures queue { IsSend queue_type.the_row }
{
    may_be_sent::<Objects>();
    may_be_shared::<Objects>();
    may_be_sent::<Queue>();
}

/// A member's copies may be sent, and so may a view.
pub fn copies()
    ensures copies { IsSend copies_type.the_row }
    ensures view { IsSend view_type.the_row }
{
    may_be_sent::<Copies>();
    may_be_sent::<View>();
}

/// A member of the group may be sent.
pub fn members()
    ensures { IsSend (member_type.the_row (shared_type.the_row message_type.the_row reply_type.the_row ⟦<Message as Body>⟧)
        reply_type.the_row) }
{
    may_be_sent::<Member<Shared<Message>>>();
}

/// A task may be sent, and so may what was computed of it, where the machine's states may be sent and shared.
pub fn tasks<P: OneRun + Send>()
where
    P::State: Send + Sync,
    ensures task { IsSend (task_type.the_row P.row P.State.row (record { run = P.run; stood = P.stood; left = P.left })
        (record { computes = P.computes; stands = P.stands; halted = P.halted })
        (record {
          performs = P.performs;
          fits_state = P.fits_state;
          fits_args = P.fits_args;
          fits_text = P.fits_text;
          fits_reply = P.fits_reply;
        })) }
    ensures done { IsSend (done_type.the_row P.row P.State.row (record { run = P.run; stood = P.stood; left = P.left })
        (record { computes = P.computes; stands = P.stands; halted = P.halted })
        (record {
          performs = P.performs;
          fits_state = P.fits_state;
          fits_args = P.fits_args;
          fits_text = P.fits_text;
          fits_reply = P.fits_reply;
        })) }
{
    may_be_sent::<Task<P>>();
    may_be_sent::<Done<P>>();
}

/// A member of a run may be sent, where the machine's states may be sent and shared.
pub fn nodes<P: OneRun + Send>()
where
    P::State: Send + Sync,
    ensures { IsSend (node_type.the_row P.row P.State.row) }
{
    may_be_sent::<Node<P>>();
}

/// A run in code may be sent, where the machine's states may be sent and shared.
pub fn worlds<P: OneRun + Send>()
where
    P::State: Send + Sync,
    ensures { IsSend (world_type.the_row P.row P.State.row (record { run = P.run; stood = P.stood; left = P.left })
        (record { computes = P.computes; stands = P.stands; halted = P.halted })
        (record {
          performs = P.performs;
          fits_state = P.fits_state;
          fits_args = P.fits_args;
          fits_text = P.fits_text;
          fits_reply = P.fits_reply;
        })) }
{
    may_be_sent::<World<P>>();
}
