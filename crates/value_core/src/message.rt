//! Messages, which a group orders.

ghost use Rattle.std.specs.Prelude.{IsTrue};
ghost use Rattle.value_core.specs.Performable.{is_performable};

use crate::action::{Action, Reply};
use orca_base::{Body, CallNo, MessageId, NoMemory, ProcessNo};
use std::alloc::Global;

/// An action that the group orders: a make, a call or a fork.
#[derive(Debug, Drop, PartialEq, Eq)]
pub struct Message {
    pub process: ProcessNo,
    pub call: CallNo,
    pub action: Action,
    pub ghost performable: { IsTrue (is_performable action) },
}

impl Message {
    ghost use Rattle.std.specs.Prelude.{◌≡◌, ◌↔◌, IfOk, IsTrue};

    /// An equal message.
    pub fn copy(&self, alloc: Global) -> Result<Message, NoMemory>
        ensures { IfOk result (λ m. m ≡ self.now) }
    {
        Ok(Message {
            process: self.process,
            call: self.call,
            action: self.action.copy(alloc)?,
        })
    }

    /// Whether both messages are the same.
    pub fn is(&self, other: &Message) -> bool
        ensures { IsTrue result ↔ (self.now ≡ other.now) }
    {
        self.process == other.process && self.call == other.call && self.action.is(&other.action)
    }
}

impl Body for Message {
    ghost use Rattle.value_core.specs.Lengths.{answer_length, message_length, told_length};

    type Reply = Reply;

    ghost id_of = { λ m. record { process = m.process; call = m.call } };

    ghost length_of = { λ m. told_length (message_length m) };

    ghost reply_length_of = { λ r. told_length (answer_length r) };

    fn id(&self) -> MessageId {
        MessageId {
            process: self.process,
            call: self.call,
        }
    }

    fn byte_length(&self) -> u32 {
        self.action.byte_length().saturating_add(10)
    }

    fn copy(&self, alloc: Global) -> Result<Message, NoMemory> {
        Message::copy(self, alloc)
    }

    fn reply_length(reply: &Reply) -> u32 {
        reply.byte_length()
    }

    fn copy_reply(alloc: Global, reply: &Reply) -> Result<Reply, NoMemory> {
        reply.copy(alloc)
    }
}
