//! The Asks and Answers of single copies.

ghost use Rattle.std.specs.Prelude.{◌≡◌, IfOk};
ghost use Rattle.group_packets.specs.declared.packet.Packet.TheVariants.{Answer};
ghost use Rattle.world_rules.specs.Mail.{place_of, same_errand};
ghost use Rattle.node_parts.specs.Shown.{on_errand};

use group_packets::Packet;
use history_buffer::Shared;
use orca_base::{Body, CallNo, NoMemory, ProcessNo};
use std::alloc::Global;
use value_core::{Message, Reply};

/// A call on a single object that goes to the object's owner, or the reply to one that comes back.
#[derive(Drop)]
pub enum Errand {
    /// A call, with its process's place.
    Ask {
        place: u64,
        message: Shared<Message>,
    },
    /// A reply, with how many entries the owner had applied.
    Answer {
        place: u64,
        process: ProcessNo,
        call: CallNo,
        reply: Reply,
    },
}

/// The last Answer that an owner gave a process of another member.
#[derive(Drop)]
pub struct Given {
    /// How many entries the owner had applied.
    pub place: u64,
    /// Which call of the process was answered.
    pub call: CallNo,
    /// The reply.
    pub reply: Reply,
}

impl Errand {
    /// How many entries its receiver has to have applied.
    pub fn place(&self) -> u64
        ensures { result ≡ place_of (on_errand self.now) }
    {
        match self {
            Errand::Ask { place, .. } => *place,
            Errand::Answer { place, .. } => *place,
        }
    }

    /// Whether both are Asks, or both Answers, of one call.
    pub fn is_same(&self, other: &Errand) -> bool
        ensures { result ≡ same_errand (on_errand self.now) (on_errand other.now) }
    {
        match (self, other) {
            (
                Errand::Ask { message, .. },
                Errand::Ask {
                    message: second,
                    ..
                },
            ) => {
                let name = message.id();
                let other = second.id();
                name.process.0 == other.process.0 && name.call.0 == other.call.0
            },
            (
                Errand::Answer { process, call, .. },
                Errand::Answer {
                    process: second,
                    call: other,
                    ..
                },
            ) => process.0 == second.0 && call.0 == other.0,
            _ => false,
        }
    }

    /// An equal one.
    pub fn copy(&self, alloc: Global) -> Result<Errand, NoMemory>
        ensures { IfOk result (λ errand. errand ≡ self.now) }
    {
        match self {
            Errand::Ask { place, message } => Ok(Errand::Ask {
                place: *place,
                message: message.copy(alloc)?,
            }),
            Errand::Answer {
                place,
                process,
                call,
                reply,
            } => Ok(Errand::Answer {
                place: *place,
                process: *process,
                call: *call,
                reply: reply.copy(alloc)?,
            }),
        }
    }
}

impl Given {
    /// An equal one.
    pub fn copy(&self, alloc: Global) -> Result<Given, NoMemory>
        ensures { IfOk result (λ given. given ≡ self.now) }
    {
        Ok(Given {
            place: self.place,
            call: self.call,
            reply: self.reply.copy(alloc)?,
        })
    }

    /// The packet that brings it to its process.
    pub fn packet(
        &self,
        alloc: Global,
        incarnation: u64,
        process: ProcessNo,
    ) -> Result<Packet<Shared<Message>>, NoMemory>
        ensures { IfOk result (λ packet. packet ≡ Answer incarnation self.now.place process self.now.call self.now.reply) }
    {
        Ok(Packet::Answer {
            incarnation,
            place: self.place,
            process,
            call: self.call,
            reply: self.reply.copy(alloc)?,
        })
    }
}
