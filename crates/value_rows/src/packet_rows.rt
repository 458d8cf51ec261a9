//! Packets and messages in bytes.
//!
//! - `packet BYTES`: the packet that the bytes are, in numbers, or the fault. It is written so again and has so many
//!   bytes; each front is too short by where it ends, and with a byte behind it has one too many.
//! - `message BYTES`, `message at PLACE, BYTES`: the message whose spelling stands at a place, in numbers, and where it
//!   ends; or the fault. One that is all of the bytes is written so again, has so many bytes, and is read also between
//!   others.

ghost use Rattle.value_core.specs.Sound.{IsSoundMessage};

use crate::flat_packet;
use group_packets::{Packet, packet_length};
use orca_base::{Body, Refusal};
use packet_bytes::{PacketError, read_message, read_packet, write_message, write_packet};
use row_files::{Row, RowError, bytes, flat, malformed, number_32, said};
use std::alloc::Global;
use value_core::Message;

// No row has more bytes.
const MOST: usize = 10_000;

/// What a row's call answers.
pub fn answer(alloc: Global, row: &Row<'_>) -> Result<String, RowError> {
    match (row.verb(), row.given()) {
        ("packet", [given]) => packet(alloc, &bytes(alloc, given)?),
        ("message", [given]) => message(alloc, &bytes(alloc, given)?),
        ("message at", [place, given]) => {
            message_at(alloc, number_32(place)?, &bytes(alloc, given)?)
        }
        _ => malformed("no call"),
    }
}

// What is told of a fault.
fn fault_text(alloc: Global, refusal: Refusal<PacketError>) -> Result<String, RowError> {
    match refusal {
        Refusal::Because { cause } => Ok(format!(in alloc; "{cause:?}")?),
        Refusal::NoMemory => Err(RowError::NoMemory),
    }
}

fn packet(alloc: Global, bytes: &[u8]) -> Result<String, RowError> {
    if bytes.len() > MOST {
        return malformed("too many bytes");
    }
    let packet = match read_packet(alloc, bytes) {
        Ok(packet) => packet,
        Err(refusal) => return fault_text(alloc, refusal),
    };
    if packet_length(&packet) as usize != bytes.len() || !is_written(alloc, bytes)? {
        return said(alloc, "written otherwise");
    }
    if !are_fronts_short(alloc, bytes)? || !is_longer_trailing(alloc, bytes)? {
        return said(alloc, "read otherwise where it is cut or goes on");
    }
    packet_text(alloc, &packet)
}

fn packet_text(alloc: Global, packet: &Packet<Message>) -> Result<String, RowError> {
    let mut numbers = Vec::new(alloc);
    flat_packet::put_packet(&mut numbers, packet)?;
    flat::text_of(alloc, &numbers)
}

// Whether the packet that these bytes are is written so.
fn is_written(alloc: Global, bytes: &[u8]) -> Result<bool, RowError> {
    if bytes.len() > MOST {
        return malformed("too many bytes");
    }
    match read_packet(alloc, bytes) {
        Ok(packet) => Ok(write_packet(alloc, &packet)?.as_slice() == bytes),
        Err(_) => Ok(false),
    }
}

// Whether these bytes are refused so.
fn is_refused(alloc: Global, bytes: &[u8], fault: PacketError) -> Result<bool, RowError> {
    if bytes.len() > MOST {
        return malformed("too many bytes");
    }
    match read_packet(alloc, bytes) {
        Ok(_) => Ok(false),
        Err(Refusal::Because { cause }) => Ok(cause == fault),
        Err(Refusal::NoMemory) => Err(RowError::NoMemory),
    }
}

fn are_fronts_short(alloc: Global, bytes: &[u8]) -> Result<bool, RowError> {
    let mut front = Vec::new(alloc);
    let mut at = 0u32;
    for byte in bytes {
        if !is_refused(alloc, &front, PacketError::Short { at })? {
            return Ok(false);
        }
        front.push(*byte)?;
        at = at.saturating_add(1);
    }
    Ok(true)
}

fn is_longer_trailing(alloc: Global, bytes: &[u8]) -> Result<bool, RowError> {
    let mut longer = Vec::from_slice(alloc, bytes)?;
    longer.push(0)?;
    match u32::try_from(bytes.len()) {
        Ok(at) => is_refused(alloc, &longer, PacketError::Trailing { at }),
        Err(_) => Ok(false),
    }
}

fn message(alloc: Global, bytes: &[u8]) -> Result<String, RowError> {
    if bytes.len() > MOST {
        return malformed("too many bytes");
    }
    let (message, end) = match read_message(alloc, bytes, 0) {
        Ok(found) => found,
        Err(refusal) => return fault_text(alloc, refusal),
    };
    if end as usize != bytes.len() || message.byte_length() != end {
        return said(alloc, "of another length");
    }
    if !is_message_written(alloc, bytes)? || !is_between_others(alloc, bytes, &message)? {
        return said(alloc, "written or read otherwise");
    }
    message_text(alloc, &message, end)
}

// Whether the message that these bytes are is written so.
fn is_message_written(alloc: Global, bytes: &[u8]) -> Result<bool, RowError> {
    if bytes.len() > MOST {
        return malformed("too many bytes");
    }
    match read_message(alloc, bytes, 0) {
        Ok((message, _)) => Ok(is_written_so(alloc, &message, bytes)?),
        Err(_) => Ok(false),
    }
}

fn is_written_so(alloc: Global, message: &Message, bytes: &[u8]) -> Result<bool, RowError>
    requires { IsSoundMessage message.now }
{
    Ok(write_message(alloc, message)?.as_slice() == bytes)
}

// Whether the message is read where other bytes stand before and behind it.
fn is_between_others(alloc: Global, bytes: &[u8], message: &Message) -> Result<bool, RowError> {
    let mut around = vec![in alloc; 9, 9, 9]?;
    around.extend_from_slice(bytes)?;
    let end = around.len();
    around.extend_from_slice(&[9, 9])?;
    if around.len() > MOST {
        return malformed("too many bytes");
    }
    match read_message(alloc, &around, 3) {
        Ok((found, found_end)) => Ok(found.is(message) && found_end as usize == end),
        Err(_) => Ok(false),
    }
}

// A message with its end.
fn message_text(alloc: Global, message: &Message, end: u32) -> Result<String, RowError> {
    let mut numbers = Vec::new(alloc);
    flat_packet::put_message(&mut numbers, message)?;
    let numbers = flat::text_of(alloc, &numbers)?;
    Ok(format!(in alloc; "{numbers} up to {end}")?)
}

fn message_at(alloc: Global, place: u32, bytes: &[u8]) -> Result<String, RowError> {
    if bytes.len() > MOST {
        return malformed("too many bytes");
    }
    match read_message(alloc, bytes, place) {
        Ok((message, end)) => message_text(alloc, &message, end),
        Err(refusal) => fault_text(alloc, refusal),
    }
}
