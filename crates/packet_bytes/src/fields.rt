//! Reading the fields of messages, replies and packets.

ghost use Rattle.std.specs.Prelude.{◌≡◌, None, map};
ghost use Rattle.orca_base.specs.declared.limits.TheConstants.{VALUE_NESTING};
ghost use Rattle.value_core.specs.View.{datum_of};
ghost use Rattle.value_bytes.specs.Reading.{Gives, byte_at, item_at, items_at, last_of, value_at};
ghost use Rattle.packet_bytes.specs.Reading.{any, arguments_at, broke_at, choice_at, fault_of as fault_at, gave_at, members_at, named_at, object_at, place_at, reply_at, rises};

use orca_base::{FaultKind, Items, NODES, ObjectId, refuse};
use std::alloc::Global;
use value_bytes::{Read, ValueError, byte_of, place, u16_at, u32_at, u64_at, value_in_front};
use value_core::{Parts, Reply, Value};

// A byte from 1 to 3.
#[tactic(auto, unfolding(crate::specs::Reading::choice_at))]
pub(crate) fn choice_of(end: u32, bytes: &[u8]) -> Read<'_, u8>
    ensures { Gives (λ x. (x.0, x.1.now)) result (choice_at end bytes.now) }
{
    match bytes {
        [] => refuse(ValueError::Short { at: end }),
        [byte, rest @ ..] => {
            if 1 <= *byte && *byte <= 3 {
                return Ok((*byte, rest));
            }
            let at = place(end, bytes);
            refuse(ValueError::NotCanonical { at })
        }
    }
}

/// An object's name: for readers of longer forms.
#[tactic(auto, unfolding(crate::specs::Reading::object_at))]
pub fn object_of(end: u32, bytes: &[u8]) -> Read<'_, ObjectId>
    ensures { Gives (λ x. (x.0, x.1.now)) result (object_at end bytes.now) }
{
    let (process, rest) = u16_at(end, bytes)?;
    let (number, rest) = u32_at(end, rest)?;
    Ok((ObjectId { process, number }, rest))
}

#[tactic(auto, unfolding(crate::specs::Reading::named_at))]
fn named_of(end: u32, bytes: &[u8]) -> Read<'_, Option<i64>>
    ensures { Gives (λ x. (x.0, x.1.now)) result (named_at end bytes.now) }
{
    let (number, rest) = u64_at(end, bytes)?;
    Ok((Some(number.cast_signed()), rest))
}

// The member that a fork names, if any.
#[tactic(auto, unfolding(crate::specs::Reading::place_at))]
pub(crate) fn place_of(end: u32, bytes: &[u8]) -> Read<'_, Option<i64>>
    ensures { Gives (λ x. (x.0, x.1.now)) result (place_at end bytes.now) }
{
    let (byte, rest) = byte_of(1, end, bytes)?;
    if byte == 0 {
        return Ok((None, rest));
    }
    named_of(end, rest)
}

// So many values. Room is made as they come.
fn values_of(alloc: Global, end: u32, count: u8, bytes: &[u8]) -> Read<'_, Vec<Value>>
    ensures { Gives (λ x. (map datum_of x.0.items, x.1.now)) result
        (items_at (value_at end VALUE_NESTING) any end count None bytes.now) }
{
    let mut values = Vec::new(alloc);
    let mut rest = bytes;
    for _ in 0..count {
        let (value, after) = value_in_front(alloc, end, rest)?;
        values.push(value)?;
        rest = after;
    }
    Ok((values, rest))
}

#[tactic(auto, unfolding(crate::specs::Reading::arguments_at))]
pub(crate) fn arguments_of(alloc: Global, end: u32, bytes: &[u8]) -> Read<'_, Parts>
    ensures { Gives (λ x. (x.0, x.1.now)) result (arguments_at end bytes.now) }
{
    let (count, rest) = byte_of(255, end, bytes)?;
    let (values, rest) = values_of(alloc, end, count, rest)?;
    Ok((Parts::from_vec(values), rest))
}

// The fault with this number.
fn fault_of(number: u8) -> FaultKind
    ensures { result ≡ fault_at number }
{
    match number {
        0 => FaultKind::Overflow,
        1 => FaultKind::DivideByZero,
        2 => FaultKind::IndexOutside,
        3 => FaultKind::FromEmpty,
        4 => FaultKind::TooLarge,
        5 => FaultKind::TooLong,
        6 => FaultKind::TooDeep,
        _ => FaultKind::NoReturn,
    }
}

#[tactic(auto, unfolding(crate::specs::Reading::gave_at))]
fn gave_of(alloc: Global, end: u32, bytes: &[u8]) -> Read<'_, Reply>
    ensures { Gives (λ x. (x.0, x.1.now)) result (gave_at end bytes.now) }
{
    let (value, rest) = value_in_front(alloc, end, bytes)?;
    Ok((Reply::Gave { value }, rest))
}

#[tactic(auto, unfolding(crate::specs::Reading::broke_at))]
fn broke_of(end: u32, bytes: &[u8]) -> Read<'_, Reply>
    ensures { Gives (λ x. (x.0, x.1.now)) result (broke_at end bytes.now) }
{
    let (number, rest) = byte_of(7, end, bytes)?;
    let fault = fault_of(number);
    Ok((Reply::Broke { fault }, rest))
}

#[tactic(auto, unfolding(crate::specs::Reading::reply_at))]
pub(crate) fn reply_of(alloc: Global, end: u32, bytes: &[u8]) -> Read<'_, Reply>
    ensures { Gives (λ x. (x.0, x.1.now)) result (reply_at end bytes.now) }
{
    let (tag, rest) = byte_of(2, end, bytes)?;
    match tag {
        0 => Ok((Reply::Done, rest)),
        1 => gave_of(alloc, end, rest),
        _ => broke_of(end, rest),
    }
}

// Whether the member is greater than the last of these.
fn is_next(members: &[u8], member: u8) -> bool
    ensures { result ≡ rises (last_of members.now) member }
{
    match members.last() {
        None => true,
        Some(last) => *last < member,
    }
}

// A member below 16 that is greater than the last of these.
#[tactic(auto, unfolding(value_bytes::specs::Reading::item_at))]
fn member_of<'a>(end: u32, members: &[u8], bytes: &'a [u8]) -> Read<'a, u8>
    ensures { Gives (λ x. (x.0, x.1.now)) result (item_at (byte_at 15 end) rises end (last_of members.now) bytes.now) }
{
    let (member, rest) = byte_of(NODES - 1, end, bytes)?;
    if !is_next(members, member) {
        return refuse(ValueError::NotCanonical {
            at: place(end, bytes),
        });
    }
    Ok((member, rest))
}

// So many members, rising. Room is made as they come.
fn rising_of(alloc: Global, end: u32, count: u8, bytes: &[u8]) -> Read<'_, Vec<u8>>
    ensures { Gives (λ x. (x.0.items, x.1.now)) result (items_at (byte_at 15 end) rises end count None bytes.now) }
{
    let mut members = Vec::new(alloc);
    let mut rest = bytes;
    for _ in 0..count {
        let (member, after) = member_of(end, &members, rest)?;
        members.push(member)?;
        rest = after;
    }
    Ok((members, rest))
}

#[tactic(auto, unfolding(crate::specs::Reading::members_at))]
pub(crate) fn members_of(alloc: Global, end: u32, bytes: &[u8]) -> Read<'_, Items<u8>>
    ensures { Gives (λ x. (x.0, x.1.now)) result (members_at end bytes.now) }
{
    let (count, rest) = byte_of(255, end, bytes)?;
    let (members, rest) = rising_of(alloc, end, count, rest)?;
    Ok((Items::new(members), rest))
}
