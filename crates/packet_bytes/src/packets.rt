//! Reading the fields of each kind of packet, behind the incarnation.

ghost use Rattle.std.specs.Prelude.{◌≡◌};
ghost use Rattle.value_bytes.specs.Reading.{Gives};
ghost use Rattle.packet_bytes.specs.Reading.{accept_at, ack_at, answer_at, ask_at, body_at, content_at, entry_at, fields_at, join_at, nack_at, order_at, request_at, result_at, status_at};

use crate::fields::{members_of, reply_of};
use crate::messages::{message_of, messages_of};
use group_packets::{Join, News, Packet};
use orca_base::{CallNo, ProcessNo};
use std::alloc::Global;
use value_bytes::{Read, byte_of, u16_at, u64_at};
use value_core::Message;

#[tactic(auto, unfolding(crate::specs::Reading::request_at))]
fn request_of(alloc: Global, end: u32, incarnation: u64, bytes: &[u8]) -> Read<'_, Packet<Message>>
    ensures { Gives (λ x. (x.0, x.1.now)) result (request_at end incarnation bytes.now) }
{
    let (applied, rest) = u64_at(end, bytes)?;
    let (message, rest) = message_of(alloc, end, rest)?;
    Ok((
        Packet::Request {
            incarnation,
            applied,
            message,
        },
        rest,
    ))
}

#[tactic(auto, unfolding(crate::specs::Reading::body_at))]
fn body_of(alloc: Global, end: u32, incarnation: u64, bytes: &[u8]) -> Read<'_, Packet<Message>>
    ensures { Gives (λ x. (x.0, x.1.now)) result (body_at end incarnation bytes.now) }
{
    let (applied, rest) = u64_at(end, bytes)?;
    let (message, rest) = message_of(alloc, end, rest)?;
    Ok((
        Packet::Body {
            incarnation,
            applied,
            message,
        },
        rest,
    ))
}

#[tactic(auto, unfolding(crate::specs::Reading::order_at))]
fn order_of(end: u32, incarnation: u64, bytes: &[u8]) -> Read<'_, Packet<Message>>
    ensures { Gives (λ x. (x.0, x.1.now)) result (order_at end incarnation bytes.now) }
{
    let (number, rest) = u64_at(end, bytes)?;
    let (process, rest) = u16_at(end, rest)?;
    let (call, rest) = u64_at(end, rest)?;
    let (accepted, rest) = u64_at(end, rest)?;
    let (stable, rest) = u64_at(end, rest)?;
    Ok((
        Packet::Order {
            incarnation,
            number,
            process: ProcessNo(process),
            call: CallNo(call),
            accepted,
            stable,
        },
        rest,
    ))
}

#[tactic(auto, unfolding(crate::specs::Reading::entry_at))]
fn entry_of(alloc: Global, end: u32, incarnation: u64, bytes: &[u8]) -> Read<'_, Packet<Message>>
    ensures { Gives (λ x. (x.0, x.1.now)) result (entry_at end incarnation bytes.now) }
{
    let (number, rest) = u64_at(end, bytes)?;
    let (accepted, rest) = u64_at(end, rest)?;
    let (stable, rest) = u64_at(end, rest)?;
    let (message, rest) = message_of(alloc, end, rest)?;
    Ok((
        Packet::Entry {
            incarnation,
            number,
            accepted,
            stable,
            message,
        },
        rest,
    ))
}

#[tactic(auto, unfolding(crate::specs::Reading::ack_at))]
fn ack_of(end: u32, incarnation: u64, bytes: &[u8]) -> Read<'_, Packet<Message>>
    ensures { Gives (λ x. (x.0, x.1.now)) result (ack_at end incarnation bytes.now) }
{
    let (length, rest) = u64_at(end, bytes)?;
    let (applied, rest) = u64_at(end, rest)?;
    Ok((
        Packet::Ack {
            incarnation,
            length,
            applied,
        },
        rest,
    ))
}

#[tactic(auto, unfolding(crate::specs::Reading::accept_at))]
fn accept_of(end: u32, incarnation: u64, bytes: &[u8]) -> Read<'_, Packet<Message>>
    ensures { Gives (λ x. (x.0, x.1.now)) result (accept_at end incarnation bytes.now) }
{
    let (accepted, rest) = u64_at(end, bytes)?;
    let (stable, rest) = u64_at(end, rest)?;
    Ok((
        Packet::Accept {
            incarnation,
            accepted,
            stable,
        },
        rest,
    ))
}

#[tactic(auto, unfolding(crate::specs::Reading::nack_at))]
fn nack_of(end: u32, incarnation: u64, bytes: &[u8]) -> Read<'_, Packet<Message>>
    ensures { Gives (λ x. (x.0, x.1.now)) result (nack_at end incarnation bytes.now) }
{
    let (first, rest) = u64_at(end, bytes)?;
    let (applied, rest) = u64_at(end, rest)?;
    let (whole, rest) = byte_of(1, end, rest)?;
    Ok((
        Packet::Nack {
            incarnation,
            first,
            applied,
            whole: whole == 1,
        },
        rest,
    ))
}

#[tactic(auto, unfolding(crate::specs::Reading::status_at))]
fn status_of(end: u32, incarnation: u64, bytes: &[u8]) -> Read<'_, Packet<Message>>
    ensures { Gives (λ x. (x.0, x.1.now)) result (status_at end incarnation bytes.now) }
{
    let (length, rest) = u64_at(end, bytes)?;
    let (applied, rest) = u64_at(end, rest)?;
    Ok((
        Packet::Status {
            incarnation,
            length,
            applied,
        },
        rest,
    ))
}

#[tactic(auto, unfolding(crate::specs::Reading::join_at))]
fn join_of(alloc: Global, end: u32, incarnation: u64, bytes: &[u8]) -> Read<'_, Packet<Message>>
    ensures { Gives (λ x. (x.0, x.1.now)) result (join_at end incarnation bytes.now) }
{
    let (installed, rest) = u64_at(end, bytes)?;
    let (accepted, rest) = u64_at(end, rest)?;
    let (applied, rest) = u64_at(end, rest)?;
    let (base, rest) = u64_at(end, rest)?;
    let (messages, rest) = messages_of(alloc, end, rest)?;
    let join = Join {
        incarnation,
        installed,
        accepted,
        applied,
        base,
        messages,
    };
    Ok((Packet::Join { join }, rest))
}

#[tactic(auto, unfolding(crate::specs::Reading::result_at))]
fn result_of(alloc: Global, end: u32, incarnation: u64, bytes: &[u8]) -> Read<'_, Packet<Message>>
    ensures { Gives (λ x. (x.0, x.1.now)) result (result_at end incarnation bytes.now) }
{
    let (accepted, rest) = u64_at(end, bytes)?;
    let (base, rest) = u64_at(end, rest)?;
    let (members, rest) = members_of(alloc, end, rest)?;
    let (messages, rest) = messages_of(alloc, end, rest)?;
    let news = News {
        incarnation,
        accepted,
        base,
        members,
        messages,
    };
    Ok((Packet::Result { news }, rest))
}

#[tactic(auto, unfolding(crate::specs::Reading::ask_at))]
fn ask_of(alloc: Global, end: u32, incarnation: u64, bytes: &[u8]) -> Read<'_, Packet<Message>>
    ensures { Gives (λ x. (x.0, x.1.now)) result (ask_at end incarnation bytes.now) }
{
    let (place, rest) = u64_at(end, bytes)?;
    let (message, rest) = message_of(alloc, end, rest)?;
    Ok((
        Packet::Ask {
            incarnation,
            place,
            message,
        },
        rest,
    ))
}

#[tactic(auto, unfolding(crate::specs::Reading::answer_at))]
fn answer_of(alloc: Global, end: u32, incarnation: u64, bytes: &[u8]) -> Read<'_, Packet<Message>>
    ensures { Gives (λ x. (x.0, x.1.now)) result (answer_at end incarnation bytes.now) }
{
    let (place, rest) = u64_at(end, bytes)?;
    let (process, rest) = u16_at(end, rest)?;
    let (call, rest) = u64_at(end, rest)?;
    let (reply, rest) = reply_of(alloc, end, rest)?;
    Ok((
        Packet::Answer {
            incarnation,
            place,
            process: ProcessNo(process),
            call: CallNo(call),
            reply,
        },
        rest,
    ))
}

// The fields of the kind with this tag, behind an incarnation.
#[tactic(auto, unfolding(crate::specs::Reading::fields_at))]
fn fields_of(
    alloc: Global,
    tag: u8,
    end: u32,
    incarnation: u64,
    bytes: &[u8],
) -> Read<'_, Packet<Message>>
    ensures { Gives (λ x. (x.0, x.1.now)) result (fields_at tag end incarnation bytes.now) }
{
    match tag {
        1 => request_of(alloc, end, incarnation, bytes),
        2 => body_of(alloc, end, incarnation, bytes),
        3 => order_of(end, incarnation, bytes),
        4 => entry_of(alloc, end, incarnation, bytes),
        5 => ack_of(end, incarnation, bytes),
        6 => accept_of(end, incarnation, bytes),
        7 => nack_of(end, incarnation, bytes),
        8 => status_of(end, incarnation, bytes),
        9 => Ok((Packet::Invite { incarnation }, bytes)),
        10 => join_of(alloc, end, incarnation, bytes),
        11 => result_of(alloc, end, incarnation, bytes),
        12 => ask_of(alloc, end, incarnation, bytes),
        _ => answer_of(alloc, end, incarnation, bytes),
    }
}

// An incarnation, and the fields of the kind with this tag.
#[tactic(auto, unfolding(crate::specs::Reading::content_at))]
pub(crate) fn content_of(
    alloc: Global,
    tag: u8,
    end: u32,
    bytes: &[u8],
) -> Read<'_, Packet<Message>>
    ensures { Gives (λ x. (x.0, x.1.now)) result (content_at tag end bytes.now) }
{
    let (incarnation, rest) = u64_at(end, bytes)?;
    fields_of(alloc, tag, end, incarnation, rest)
}
