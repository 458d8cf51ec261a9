//! Messages and packets, told in numbers.
//!
//! A message is its process and call, and 1 and type and object of a make, 2 and type, operation, object and arguments
//! of a call, 3, the text, 0 or 1 and the member, and arguments of a fork. A packet is its tag and its fields, in the
//! order of docs/RUNTIME.md; messages, arguments and members end in -1.

use group_packets::Packet;
use row_files::flat::{END, Numbers, put, put_arguments, put_object, put_reply};
use std::alloc::AllocError;
use value_core::{Action, Message};

/// Adds a message.
pub fn put_message(numbers: &mut Numbers, message: &Message) -> Result<(), AllocError> {
    put(
        numbers,
        &[i128::from(message.process.0), i128::from(message.call.0)],
    )?;
    match &message.action {
        Action::Make { kind, object } => {
            put(numbers, &[1, i128::from(kind.0)])?;
            put_object(numbers, object)
        }
        Action::Call {
            kind,
            op,
            object,
            args,
        } => {
            put(numbers, &[2, i128::from(kind.0), i128::from(op.0)])?;
            put_object(numbers, object)?;
            put_arguments(numbers, args)
        }
        Action::Fork {
            process,
            args,
            place_on,
        } => {
            put(numbers, &[3, i128::from(process.0)])?;
            match place_on {
                None => put(numbers, &[0])?,
                Some(place) => put(numbers, &[1, i128::from(*place)])?,
            }
            put_arguments(numbers, args)
        }
        Action::Ended | Action::Faulted { .. } => Ok(()),
    }
}

fn put_messages(numbers: &mut Numbers, messages: &[Message]) -> Result<(), AllocError> {
    for message in messages {
        put_message(numbers, message)?;
    }
    Ok(numbers.push(END)?)
}

// Adds a tag and these numbers.
fn put_kind(numbers: &mut Numbers, tag: u8, more: &[u64]) -> Result<(), AllocError> {
    numbers.push(i128::from(tag))?;
    for number in more {
        numbers.push(i128::from(*number))?;
    }
    Ok(())
}

/// Adds a packet.
pub fn put_packet(numbers: &mut Numbers, packet: &Packet<Message>) -> Result<(), AllocError> {
    match packet {
        Packet::Request {
            incarnation,
            applied,
            message,
        } => {
            put_kind(numbers, 1, &[*incarnation, *applied])?;
            put_message(numbers, message)
        }
        Packet::Body {
            incarnation,
            applied,
            message,
        } => {
            put_kind(numbers, 2, &[*incarnation, *applied])?;
            put_message(numbers, message)
        }
        Packet::Entry {
            incarnation,
            number,
            accepted,
            stable,
            message,
        } => {
            put_kind(numbers, 4, &[*incarnation, *number, *accepted, *stable])?;
            put_message(numbers, message)
        }
        Packet::Ask {
            incarnation,
            place,
            message,
        } => {
            put_kind(numbers, 12, &[*incarnation, *place])?;
            put_message(numbers, message)
        }
        Packet::Answer {
            incarnation,
            place,
            process,
            call,
            reply,
        } => {
            put_kind(
                numbers,
                13,
                &[*incarnation, *place, u64::from(process.0), call.0],
            )?;
            put_reply(numbers, reply)
        }
        _ => put_other(numbers, packet),
    }
}

// Adds a packet without message or reply, or one with a log.
fn put_other(numbers: &mut Numbers, packet: &Packet<Message>) -> Result<(), AllocError> {
    match packet {
        Packet::Order {
            incarnation,
            number,
            process,
            call,
            accepted,
            stable,
        } => put_kind(
            numbers,
            3,
            &[
                *incarnation,
                *number,
                u64::from(process.0),
                call.0,
                *accepted,
                *stable,
            ],
        ),
        Packet::Ack {
            incarnation,
            length,
            applied,
        } => { put_kind(numbers, 5, &[*incarnation, *length, *applied]) }
        Packet::Accept {
            incarnation,
            accepted,
            stable,
        } => { put_kind(numbers, 6, &[*incarnation, *accepted, *stable]) }
        Packet::Nack {
            incarnation,
            first,
            applied,
            whole,
        } => {
            put_kind(
                numbers,
                7,
                &[*incarnation, *first, *applied, u64::from(*whole)],
            )
        }
        Packet::Status {
            incarnation,
            length,
            applied,
        } => { put_kind(numbers, 8, &[*incarnation, *length, *applied]) }
        Packet::Invite { incarnation } => put_kind(numbers, 9, &[*incarnation]),
        Packet::Join { join } => {
            put_kind(
                numbers,
                10,
                &[
                    join.incarnation,
                    join.installed,
                    join.accepted,
                    join.applied,
                    join.base,
                ],
            )?;
            put_messages(numbers, join.messages.as_slice())
        }
        Packet::Result { news } => {
            put_kind(numbers, 11, &[news.incarnation, news.accepted, news.base])?;
            for member in news.members.as_slice() {
                numbers.push(i128::from(*member))?;
            }
            numbers.push(END)?;
            put_messages(numbers, news.messages.as_slice())
        }
        _ => Ok(()),
    }
}
