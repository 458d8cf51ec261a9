//! Reading messages.

ghost use Rattle.std.specs.Prelude.{◌≡◌, None};
ghost use Rattle.value_bytes.specs.Reading.{Gives, items_at};
ghost use Rattle.packet_bytes.specs.Reading.{any, call_at, fork_at, make_at, message_at, messages_at};

use crate::fields::{arguments_of, choice_of, object_of, place_of};
use orca_base::{CallNo, Items, KindNo, OpNo, ProcessNo, TextNo};
use std::alloc::Global;
use value_bytes::{Read, u16_at, u32_at, u64_at};
use value_core::{Action, Message};

// The making of an object by this process, as this call.
#[tactic(auto, unfolding(crate::specs::Reading::make_at))]
fn make_of(end: u32, process: ProcessNo, call: CallNo, bytes: &[u8]) -> Read<'_, Message>
    ensures { Gives (λ x. (x.0, x.1.now)) result (make_at end process call bytes.now) }
{
    let (kind, rest) = u16_at(end, bytes)?;
    let (object, rest) = object_of(end, rest)?;
    let action = Action::Make {
        kind: KindNo(kind),
        object,
    };
    Ok((
        Message {
            process,
            call,
            action,
        },
        rest,
    ))
}

// The call of an operation.
#[tactic(auto, unfolding(crate::specs::Reading::call_at))]
fn call_of(
    alloc: Global,
    end: u32,
    process: ProcessNo,
    call: CallNo,
    bytes: &[u8],
) -> Read<'_, Message>
    ensures { Gives (λ x. (x.0, x.1.now)) result (call_at end process call bytes.now) }
{
    let (kind, rest) = u16_at(end, bytes)?;
    let (op, rest) = u16_at(end, rest)?;
    let (object, rest) = object_of(end, rest)?;
    let (args, rest) = arguments_of(alloc, end, rest)?;
    let action = Action::Call {
        kind: KindNo(kind),
        op: OpNo(op),
        object,
        args,
    };
    Ok((
        Message {
            process,
            call,
            action,
        },
        rest,
    ))
}

// The fork of a process.
#[tactic(auto, unfolding(crate::specs::Reading::fork_at))]
fn fork_of(
    alloc: Global,
    end: u32,
    process: ProcessNo,
    call: CallNo,
    bytes: &[u8],
) -> Read<'_, Message>
    ensures { Gives (λ x. (x.0, x.1.now)) result (fork_at end process call bytes.now) }
{
    let (text, rest) = u16_at(end, bytes)?;
    let (place_on, rest) = place_of(end, rest)?;
    let (args, rest) = arguments_of(alloc, end, rest)?;
    let action = Action::Fork {
        process: TextNo(text),
        args,
        place_on,
    };
    Ok((
        Message {
            process,
            call,
            action,
        },
        rest,
    ))
}

/// A message from the front of these bytes, where `end` bytes were given in all: for readers of longer forms.
#[tactic(auto, unfolding(crate::specs::Reading::message_at))]
pub fn message_of(alloc: Global, end: u32, bytes: &[u8]) -> Read<'_, Message>
    ensures { Gives (λ x. (x.0, x.1.now)) result (message_at end bytes.now) }
{
    let (process, rest) = u16_at(end, bytes)?;
    let (call, rest) = u64_at(end, rest)?;
    let (tag, rest) = choice_of(end, rest)?;
    let (process, call) = (ProcessNo(process), CallNo(call));
    match tag {
        1 => make_of(end, process, call, rest),
        2 => call_of(alloc, end, process, call, rest),
        _ => fork_of(alloc, end, process, call, rest),
    }
}

// So many messages. Room is made as they come.
fn some_of(alloc: Global, end: u32, count: u32, bytes: &[u8]) -> Read<'_, Vec<Message>>
    ensures { Gives (λ x. (x.0.items, x.1.now)) result (items_at (message_at end) any end count None bytes.now) }
{
    let mut messages = Vec::new(alloc);
    let mut rest = bytes;
    for _ in 0..count {
        let (message, after) = message_of(alloc, end, rest)?;
        messages.push(message)?;
        rest = after;
    }
    Ok((messages, rest))
}

/// The number of messages, and the messages: for readers of longer forms.
#[tactic(auto, unfolding(crate::specs::Reading::messages_at))]
pub fn messages_of(alloc: Global, end: u32, bytes: &[u8]) -> Read<'_, Items<Message>>
    ensures { Gives (λ x. (x.0, x.1.now)) result (messages_at end bytes.now) }
{
    let (count, rest) = u32_at(end, bytes)?;
    let (messages, rest) = some_of(alloc, end, count, rest)?;
    Ok((Items::new(messages), rest))
}
