//! Messages that are shared.

ghost use Rattle.std.specs.Prelude.{◌≡◌, IfOk};
ghost use Rattle.std.specs.Arc.{arc_value};

use orca_base::{Body, MessageId, NoMemory};
use std::alloc::Global;
use std::marker::Model;
use std::sync::Arc;

/// A message that all its copies share, which clauses see as the message: a copy costs a count, and none of its contents.
#[derive(Drop)]
pub struct Shared<B: Body> {
    message: Arc<B>,
}

impl<B: Body> Model for Shared<B> {
    ghost use Rattle.std.specs.Arc.{arc_value};

    ghost Value = { B };

    ghost coded = { B.code };

    ghost view = { λ s. arc_value s.message };
}

impl<B: Body> Shared<B> {
    /// This message, with no copy yet.
    pub fn new(alloc: Global, message: B) -> Result<Shared<B>, NoMemory>
        ensures { IfOk result (λ shared. shared ≡ message) }
    {
        Ok(Shared {
            message: Arc::new(alloc, message)?,
        })
    }

    /// The message.
    pub fn message(&self) -> &B
        ensures { result.now ≡ self.now }
    {
        &self.message
    }
}

impl<B: Body> Body for Shared<B> {
    type Reply = B::Reply;

    ghost id_of = { B.id_of };

    ghost length_of = { B.length_of };

    ghost reply_length_of = { B.reply_length_of };

    fn id(&self) -> MessageId {
        self.message.id()
    }

    fn byte_length(&self) -> u32 {
        self.message.byte_length()
    }

    fn copy(&self, _alloc: Global) -> Result<Shared<B>, NoMemory> {
        Ok(Shared {
            message: Arc::try_clone(&self.message)?,
        })
    }

    fn reply_length(reply: &B::Reply) -> u32 {
        B::reply_length(reply)
    }

    fn copy_reply(alloc: Global, reply: &B::Reply) -> Result<B::Reply, NoMemory> {
        B::copy_reply(alloc, reply)
    }
}
