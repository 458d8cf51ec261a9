//! Packets on their way: as members have them, whose messages are shared, and as bytes.

ghost use Rattle.std.specs.Prelude.{◌≡◌, ◌<◌, ◌^◌, IfOk, length};
ghost use Rattle.value_core.specs.Sound.{IsSoundMessage, IsSoundReply};
ghost use Rattle.group_packets.specs.Sound.{IsSoundPacket};
ghost use Rattle.letter_bytes.specs.Letters.{IsIncoming, IsOutgoing};

use group_member::Letter;
use group_packets::{Join, News, Packet, PacketKind, packet_length};
use history_buffer::Shared;
use orca_base::{Items, NoMemory, Refusal};
use packet_bytes::{read_packet, write_packet};
use std::alloc::Global;
use value_core::Message;

/// A packet that is about to be sent: what a wire is told of it, and its bytes, twice.
#[derive(Drop)]
pub struct Outgoing {
    /// The member that sends it.
    pub from: u8,
    /// The member to which it goes.
    pub to: u8,
    /// Which kind of packet it is.
    pub kind: PacketKind,
    /// How many bytes it has.
    pub length: u32,
    /// Its bytes.
    pub bytes: Items<u8>,
    /// The same once more, for the second copy, where the wire sends it twice.
    pub twin: Items<u8>,
}

/// A member's letter, in bytes. One of 2^32 - 1 bytes or more finds no memory.
pub fn write_letter(
    alloc: Global,
    from: u8,
    letter: &Letter<Shared<Message>>,
) -> Result<Outgoing, NoMemory>
    requires { IsSoundPacket IsSoundMessage IsSoundReply letter.now.packet }
    ensures { IfOk result (λ one. IsOutgoing one from letter.now.to letter.now.packet) }
{
    let packet = owned(alloc, &letter.packet)?;
    let length = packet_length(&packet);
    if length == u32::MAX {
        return Err(NoMemory);
    }
    let bytes = write_packet(alloc, &packet)?;
    let twin = Vec::from_slice(alloc, bytes.as_slice())?;
    Ok(Outgoing {
        from,
        to: letter.to,
        kind: packet.kind(),
        length,
        bytes: Items::new(bytes),
        twin: Items::new(twin),
    })
}

/// The packet that these bytes are; none, where they are no packet's, as those of a cut one are (`spelling_law` of `packet_bytes`).
pub fn read_letter(alloc: Global, bytes: &[u8]) -> Result<Option<Packet<Shared<Message>>>, NoMemory>
    requires { length bytes.now < 2 ^ 32 }
    ensures { IfOk result (λ packet. IsIncoming bytes.now packet) }
{
    match read_packet(alloc, bytes) {
        Ok(packet) => Ok(Some(shared(alloc, packet)?)),
        Err(Refusal::Because { .. }) => Ok(None),
        Err(Refusal::NoMemory) => Err(NoMemory),
    }
}

// The same packet, with messages of its own.
fn owned(alloc: Global, packet: &Packet<Shared<Message>>) -> Result<Packet<Message>, NoMemory>
    ensures { IfOk result (λ p. p ≡ packet.now) }
{
    match packet {
        Packet::Request {
            incarnation,
            applied,
            message,
        } => Ok(Packet::Request {
            incarnation: *incarnation,
            applied: *applied,
            message: message.message().copy(alloc)?,
        }),
        Packet::Body {
            incarnation,
            applied,
            message,
        } => Ok(Packet::Body {
            incarnation: *incarnation,
            applied: *applied,
            message: message.message().copy(alloc)?,
        }),
        Packet::Order {
            incarnation,
            number,
            process,
            call,
            accepted,
            stable,
        } => Ok(Packet::Order {
            incarnation: *incarnation,
            number: *number,
            process: *process,
            call: *call,
            accepted: *accepted,
            stable: *stable,
        }),
        Packet::Entry {
            incarnation,
            number,
            accepted,
            stable,
            message,
        } => Ok(Packet::Entry {
            incarnation: *incarnation,
            number: *number,
            accepted: *accepted,
            stable: *stable,
            message: message.message().copy(alloc)?,
        }),
        Packet::Ack {
            incarnation,
            length,
            applied,
        } => Ok(Packet::Ack {
            incarnation: *incarnation,
            length: *length,
            applied: *applied,
        }),
        Packet::Accept {
            incarnation,
            accepted,
            stable,
        } => Ok(Packet::Accept {
            incarnation: *incarnation,
            accepted: *accepted,
            stable: *stable,
        }),
        Packet::Nack {
            incarnation,
            first,
            applied,
            whole,
        } => Ok(Packet::Nack {
            incarnation: *incarnation,
            first: *first,
            applied: *applied,
            whole: *whole,
        }),
        Packet::Status {
            incarnation,
            length,
            applied,
        } => Ok(Packet::Status {
            incarnation: *incarnation,
            length: *length,
            applied: *applied,
        }),
        Packet::Invite { incarnation } => Ok(Packet::Invite {
            incarnation: *incarnation,
        }),
        Packet::Join { join } => Ok(Packet::Join {
            join: owned_join(alloc, join)?,
        }),
        Packet::Result { news } => Ok(Packet::Result {
            news: owned_news(alloc, news)?,
        }),
        Packet::Ask {
            incarnation,
            place,
            message,
        } => Ok(Packet::Ask {
            incarnation: *incarnation,
            place: *place,
            message: message.message().copy(alloc)?,
        }),
        Packet::Answer {
            incarnation,
            place,
            process,
            call,
            reply,
        } => Ok(Packet::Answer {
            incarnation: *incarnation,
            place: *place,
            process: *process,
            call: *call,
            reply: reply.copy(alloc)?,
        }),
    }
}

// The same answer to an invitation, with messages of its own.
fn owned_join(alloc: Global, join: &Join<Shared<Message>>) -> Result<Join<Message>, NoMemory>
    ensures { IfOk result (λ j. j ≡ join.now) }
{
    Ok(Join {
        incarnation: join.incarnation,
        installed: join.installed,
        accepted: join.accepted,
        applied: join.applied,
        base: join.base,
        messages: Items::new(owned_messages(alloc, join.messages.as_slice())?),
    })
}

// The same log, with messages of its own.
fn owned_news(alloc: Global, news: &News<Shared<Message>>) -> Result<News<Message>, NoMemory>
    ensures { IfOk result (λ n. n ≡ news.now) }
{
    let members = Vec::from_slice(alloc, news.members.as_slice())?;
    Ok(News {
        incarnation: news.incarnation,
        accepted: news.accepted,
        base: news.base,
        members: Items::new(members),
        messages: Items::new(owned_messages(alloc, news.messages.as_slice())?),
    })
}

// The same messages, copied.
fn owned_messages(alloc: Global, messages: &[Shared<Message>]) -> Result<Vec<Message>, NoMemory>
    ensures { IfOk result (λ copied. copied.items ≡ messages.now) }
{
    let mut copied = Vec::new(alloc);
    'messages: for message in messages {
        copied.push(message.message().copy(alloc)?)?;
    }
    Ok(copied)
}

// The same packet, whose messages may be shared from now on.
fn shared(alloc: Global, packet: Packet<Message>) -> Result<Packet<Shared<Message>>, NoMemory>
    ensures { IfOk result (λ p. p ≡ packet) }
{
    match packet {
        Packet::Request {
            incarnation,
            applied,
            message,
        } => Ok(Packet::Request {
            incarnation,
            applied,
            message: Shared::new(alloc, message)?,
        }),
        Packet::Body {
            incarnation,
            applied,
            message,
        } => Ok(Packet::Body {
            incarnation,
            applied,
            message: Shared::new(alloc, message)?,
        }),
        Packet::Order {
            incarnation,
            number,
            process,
            call,
            accepted,
            stable,
        } => Ok(Packet::Order {
            incarnation,
            number,
            process,
            call,
            accepted,
            stable,
        }),
        Packet::Entry {
            incarnation,
            number,
            accepted,
            stable,
            message,
        } => Ok(Packet::Entry {
            incarnation,
            number,
            accepted,
            stable,
            message: Shared::new(alloc, message)?,
        }),
        Packet::Ack {
            incarnation,
            length,
            applied,
        } => Ok(Packet::Ack {
            incarnation,
            length,
            applied,
        }),
        Packet::Accept {
            incarnation,
            accepted,
            stable,
        } => Ok(Packet::Accept {
            incarnation,
            accepted,
            stable,
        }),
        Packet::Nack {
            incarnation,
            first,
            applied,
            whole,
        } => Ok(Packet::Nack {
            incarnation,
            first,
            applied,
            whole,
        }),
        Packet::Status {
            incarnation,
            length,
            applied,
        } => Ok(Packet::Status {
            incarnation,
            length,
            applied,
        }),
        Packet::Invite { incarnation } => Ok(Packet::Invite { incarnation }),
        Packet::Join { join } => Ok(Packet::Join {
            join: shared_join(alloc, join)?,
        }),
        Packet::Result { news } => Ok(Packet::Result {
            news: shared_news(alloc, news)?,
        }),
        Packet::Ask {
            incarnation,
            place,
            message,
        } => Ok(Packet::Ask {
            incarnation,
            place,
            message: Shared::new(alloc, message)?,
        }),
        Packet::Answer {
            incarnation,
            place,
            process,
            call,
            reply,
        } => Ok(Packet::Answer {
            incarnation,
            place,
            process,
            call,
            reply,
        }),
    }
}

// The same answer to an invitation, whose messages may be shared.
fn shared_join(alloc: Global, join: Join<Message>) -> Result<Join<Shared<Message>>, NoMemory>
    ensures { IfOk result (λ j. j ≡ join) }
{
    Ok(Join {
        incarnation: join.incarnation,
        installed: join.installed,
        accepted: join.accepted,
        applied: join.applied,
        base: join.base,
        messages: Items::new(shared_messages(alloc, join.messages.into_vec())?),
    })
}

// The same log, whose messages may be shared.
fn shared_news(alloc: Global, news: News<Message>) -> Result<News<Shared<Message>>, NoMemory>
    ensures { IfOk result (λ n. n ≡ news) }
{
    Ok(News {
        incarnation: news.incarnation,
        accepted: news.accepted,
        base: news.base,
        members: news.members,
        messages: Items::new(shared_messages(alloc, news.messages.into_vec())?),
    })
}

// The same messages, which may be shared.
fn shared_messages(alloc: Global, messages: Vec<Message>) -> Result<Vec<Shared<Message>>, NoMemory>
    ensures { IfOk result (λ shared. shared.items ≡ messages.items) }
{
    let mut all = Vec::new(alloc);
    'messages: for message in messages {
        all.push(Shared::new(alloc, message)?)?;
    }
    Ok(all)
}
