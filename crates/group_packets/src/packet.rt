//! What members send to each other.

ghost use Rattle.std.specs.Prelude.{◌≡◌, ℕ, IfOk, length, map, sum};
ghost use Rattle.group_packets.specs.Packet.{incarnation_of, kind_of, packet_bytes, stopped};

use orca_base::{Body, CallNo, Items, NoMemory, ProcessNo};
use std::alloc::Global;

/// A member's answer to an invitation: what it holds, and of which incarnation.
#[derive(Drop)]
pub struct Join<B: Body> {
    /// The incarnation for which it answers.
    pub incarnation: u64,
    /// The incarnation of its log.
    pub installed: u64,
    /// How many entries it knows to be accepted.
    pub accepted: u64,
    /// How many entries it has applied.
    pub applied: u64,
    /// How many entries of its log it has purged.
    pub base: u64,
    /// The entries behind the purged ones.
    pub messages: Items<B>,
}

/// What a new incarnation begins with, or what a member that fell behind lacks: a log of it.
#[derive(Drop)]
pub struct News<B: Body> {
    /// The incarnation whose log it is.
    pub incarnation: u64,
    /// How many entries are known to be accepted.
    pub accepted: u64,
    /// How many entries of the log aren't sent.
    pub base: u64,
    /// The members that answered for the incarnation, rising.
    pub members: Items<u8>,
    /// The entries behind those.
    pub messages: Items<B>,
}

/// A packet. Sender and receiver aren't in it.
#[derive(Drop)]
pub enum Packet<B: Body> {
    /// A member asks the sequencer to order a message.
    Request {
        /// The incarnation of the sender's log.
        incarnation: u64,
        /// How many entries the sender has applied.
        applied: u64,
        /// The message to be ordered.
        message: B,
    },
    /// A member sends a long message to all, and asks the sequencer to order it by its name.
    Body {
        /// The incarnation of the sender's log.
        incarnation: u64,
        /// How many entries the sender has applied.
        applied: u64,
        /// The message to be ordered.
        message: B,
    },
    /// The sequencer gives the message of this name a number.
    Order {
        /// The incarnation in which the number is given.
        incarnation: u64,
        /// The entry's number, from 1.
        number: u64,
        /// The process that submitted the message.
        process: ProcessNo,
        /// Which call of that process it is.
        call: CallNo,
        /// How many entries are accepted.
        accepted: u64,
        /// How many entries each member is known to have applied.
        stable: u64,
    },
    /// The sequencer gives this message a number.
    Entry {
        /// The incarnation in which the number is given.
        incarnation: u64,
        /// The entry's number, from 1.
        number: u64,
        /// How many entries are accepted.
        accepted: u64,
        /// How many entries each member is known to have applied.
        stable: u64,
        /// The entry.
        message: B,
    },
    /// An acknowledger holds so many entries.
    Ack {
        /// The incarnation of the sender's log.
        incarnation: u64,
        /// How many entries the sender's log has.
        length: u64,
        /// How many entries the sender has applied.
        applied: u64,
    },
    /// So many entries are accepted.
    Accept {
        /// The incarnation of the entries.
        incarnation: u64,
        /// How many entries are accepted.
        accepted: u64,
        /// How many entries each member is known to have applied.
        stable: u64,
    },
    /// A member lacks entries from the first one named on, or the incarnation's whole log.
    Nack {
        /// The incarnation whose entries it lacks.
        incarnation: u64,
        /// The number of the first entry that it lacks, 0 where it lacks the whole log.
        first: u64,
        /// How many entries the sender has applied.
        applied: u64,
        /// Whether it lacks the whole log.
        whole: bool,
    },
    /// A member tells how far it is.
    Status {
        /// The incarnation of the sender's log.
        incarnation: u64,
        /// How many entries the sender's log has.
        length: u64,
        /// How many entries the sender has applied.
        applied: u64,
    },
    /// A coordinator invites to a new incarnation.
    Invite {
        /// The new incarnation.
        incarnation: u64,
    },
    /// A member's answer to an invitation.
    Join {
        /// What it answers.
        join: Join<B>,
    },
    /// What a new incarnation begins with.
    Result {
        /// Its log, and who answered for it.
        news: News<B>,
    },
    /// A call on a single copy.
    Ask {
        /// The incarnation of the sender's log.
        incarnation: u64,
        /// How many entries the owner of the copy has to have applied.
        place: u64,
        /// The call.
        message: B,
    },
    /// The reply to a call on a single copy.
    Answer {
        /// The incarnation of the sender's log.
        incarnation: u64,
        /// How many entries the owner had applied when the call was performed.
        place: u64,
        /// The process that asked.
        process: ProcessNo,
        /// Which call of that process it is.
        call: CallNo,
        /// What the call gives.
        reply: B::Reply,
    },
}

/// The kind of a packet, in the order of the variants of `Packet`.
#[derive(Clone, Copy, Debug, PartialEq, Eq, PartialOrd, Ord)]
pub enum PacketKind {
    /// A message is to be ordered.
    Request,
    /// A long message, sent to all.
    Body,
    /// A name is given a number.
    Order,
    /// A message is given a number.
    Entry,
    /// An acknowledger tells what it holds.
    Ack,
    /// The sequencer tells what is accepted.
    Accept,
    /// A member asks for what it lacks.
    Nack,
    /// A member tells how far it is.
    Status,
    /// A coordinator invites.
    Invite,
    /// A member answers a coordinator.
    Join,
    /// An incarnation's log.
    Result,
    /// A call on a single copy.
    Ask,
    /// Its reply.
    Answer,
}

impl<B: Body> Packet<B> {
    /// The incarnation that the packet is of.
    pub fn incarnation(&self) -> u64
        ensures { result ≡ incarnation_of self.now }
    {
        match self {
            Packet::Request { incarnation, .. } => *incarnation,
            Packet::Body { incarnation, .. } => *incarnation,
            Packet::Order { incarnation, .. } => *incarnation,
            Packet::Entry { incarnation, .. } => *incarnation,
            Packet::Ack { incarnation, .. } => *incarnation,
            Packet::Accept { incarnation, .. } => *incarnation,
            Packet::Nack { incarnation, .. } => *incarnation,
            Packet::Status { incarnation, .. } => *incarnation,
            Packet::Invite { incarnation } => *incarnation,
            Packet::Join { join } => join.incarnation,
            Packet::Result { news } => news.incarnation,
            Packet::Ask { incarnation, .. } => *incarnation,
            Packet::Answer { incarnation, .. } => *incarnation,
        }
    }

    /// The packet's kind.
    pub fn kind(&self) -> PacketKind
        ensures { result ≡ kind_of self.now }
    {
        match self {
            Packet::Request { .. } => PacketKind::Request,
            Packet::Body { .. } => PacketKind::Body,
            Packet::Order { .. } => PacketKind::Order,
            Packet::Entry { .. } => PacketKind::Entry,
            Packet::Ack { .. } => PacketKind::Ack,
            Packet::Accept { .. } => PacketKind::Accept,
            Packet::Nack { .. } => PacketKind::Nack,
            Packet::Status { .. } => PacketKind::Status,
            Packet::Invite { .. } => PacketKind::Invite,
            Packet::Join { .. } => PacketKind::Join,
            Packet::Result { .. } => PacketKind::Result,
            Packet::Ask { .. } => PacketKind::Ask,
            Packet::Answer { .. } => PacketKind::Answer,
        }
    }
}

/// The bytes of these messages, at most 4,294,967,295.
fn messages_length<B: Body>(messages: &[B]) -> u32
    ensures { result ≡ stopped (sum (map B.length_of messages.now)) }
{
    let mut total: u32 = 0;
    'messages: for message in messages {
        total = total.saturating_add(message.byte_length());
    }
    total
}

/// The number of the packet's bytes, or 4,294,967,295 where it is greater.
pub fn packet_length<B: Body>(packet: &Packet<B>) -> u32
    ensures { result ≡ stopped (packet_bytes B.length_of B.reply_length_of packet.now) }
{
    match packet {
        Packet::Request { message, .. } => message.byte_length().saturating_add(17),
        Packet::Body { message, .. } => message.byte_length().saturating_add(17),
        Packet::Order { .. } => 43,
        Packet::Entry { message, .. } => message.byte_length().saturating_add(33),
        Packet::Ack { .. } => 25,
        Packet::Accept { .. } => 25,
        Packet::Nack { .. } => 26,
        Packet::Status { .. } => 25,
        Packet::Invite { .. } => 9,
        Packet::Join { join } => messages_length(join.messages.as_slice()).saturating_add(45),
        Packet::Result { news } => messages_length(news.messages.as_slice())
            .saturating_add(members_length(news.members.as_slice()))
            .saturating_add(30),
        Packet::Ask { message, .. } => message.byte_length().saturating_add(17),
        Packet::Answer { reply, .. } => B::reply_length(reply).saturating_add(27),
    }
}

/// The bytes of a list of members, one each, at most 4,294,967,295.
fn members_length(members: &[u8]) -> u32
    ensures { result ≡ stopped (length members.now) }
{
    if members.len() < 4_294_967_295 {
        members.len() as u32
    } else {
        4_294_967_295
    }
}

/// Equal messages.
fn copy_messages<B: Body>(alloc: Global, messages: &[B]) -> Result<Items<B>, NoMemory>
    ensures { IfOk result (λ copied. copied ≡ messages.now) }
{
    let mut copied = Vec::with_capacity(alloc, messages.len())?;
    'messages: for message in messages {
        copied.push(message.copy(alloc)?)?;
    }
    Ok(Items::new(copied))
}

impl<B: Body> Join<B> {
    /// An equal answer.
    pub fn copy(&self, alloc: Global) -> Result<Join<B>, NoMemory>
        ensures { IfOk result (λ copied. copied ≡ self.now) }
    {
        Ok(Join {
            incarnation: self.incarnation,
            installed: self.installed,
            accepted: self.accepted,
            applied: self.applied,
            base: self.base,
            messages: copy_messages(alloc, self.messages.as_slice())?,
        })
    }
}

impl<B: Body> News<B> {
    /// Equal news.
    pub fn copy(&self, alloc: Global) -> Result<News<B>, NoMemory>
        ensures { IfOk result (λ copied. copied ≡ self.now) }
    {
        let members = Vec::from_slice(alloc, self.members.as_slice())?;
        Ok(News {
            incarnation: self.incarnation,
            accepted: self.accepted,
            base: self.base,
            members: Items::new(members),
            messages: copy_messages(alloc, self.messages.as_slice())?,
        })
    }
}

impl<B: Body> Packet<B> {
    /// An equal packet.
    pub fn copy(&self, alloc: Global) -> Result<Packet<B>, NoMemory>
        ensures { IfOk result (λ copied. copied ≡ self.now) }
    {
        Ok(match self {
            Packet::Request {
                incarnation,
                applied,
                message,
            } => Packet::Request {
                incarnation: *incarnation,
                applied: *applied,
                message: message.copy(alloc)?,
            },
            Packet::Body {
                incarnation,
                applied,
                message,
            } => Packet::Body {
                incarnation: *incarnation,
                applied: *applied,
                message: message.copy(alloc)?,
            },
            Packet::Order {
                incarnation,
                number,
                process,
                call,
                accepted,
                stable,
            } => Packet::Order {
                incarnation: *incarnation,
                number: *number,
                process: *process,
                call: *call,
                accepted: *accepted,
                stable: *stable,
            },
            Packet::Entry {
                incarnation,
                number,
                accepted,
                stable,
                message,
            } => Packet::Entry {
                incarnation: *incarnation,
                number: *number,
                accepted: *accepted,
                stable: *stable,
                message: message.copy(alloc)?,
            },
            Packet::Ack {
                incarnation,
                length,
                applied,
            } => Packet::Ack {
                incarnation: *incarnation,
                length: *length,
                applied: *applied,
            },
            Packet::Accept {
                incarnation,
                accepted,
                stable,
            } => Packet::Accept {
                incarnation: *incarnation,
                accepted: *accepted,
                stable: *stable,
            },
            Packet::Nack {
                incarnation,
                first,
                applied,
                whole,
            } => Packet::Nack {
                incarnation: *incarnation,
                first: *first,
                applied: *applied,
                whole: *whole,
            },
            Packet::Status {
                incarnation,
                length,
                applied,
            } => Packet::Status {
                incarnation: *incarnation,
                length: *length,
                applied: *applied,
            },
            Packet::Invite { incarnation } => Packet::Invite {
                incarnation: *incarnation,
            },
            Packet::Join { join } => Packet::Join {
                join: join.copy(alloc)?,
            },
            Packet::Result { news } => Packet::Result {
                news: news.copy(alloc)?,
            },
            Packet::Ask {
                incarnation,
                place,
                message,
            } => Packet::Ask {
                incarnation: *incarnation,
                place: *place,
                message: message.copy(alloc)?,
            },
            Packet::Answer {
                incarnation,
                place,
                process,
                call,
                reply,
            } => Packet::Answer {
                incarnation: *incarnation,
                place: *place,
                process: *process,
                call: *call,
                reply: B::copy_reply(alloc, reply)?,
            },
        })
    }
}
