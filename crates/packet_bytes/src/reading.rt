//! Reading packets and messages.

ghost use Rattle.std.specs.Prelude.{◌≡◌, ◌≢◌, ◌<◌, ◌^◌, ℕ, Err, Ok, IfOk, length, drop};
ghost use Rattle.orca_base.specs.Refusal.{IfBecause, MatchRefusal};
ghost use Rattle.value_core.specs.Sound.{IsSoundMessage, IsSoundReply};
ghost use Rattle.value_core.specs.declared.action.Reply.{Reply as Replied};
ghost use Rattle.value_core.specs.declared.message.Message.{Message as Told};
ghost use Rattle.value_bytes.specs.declared.fault.ValueError.{ValueError as ValueFault};
ghost use Rattle.group_packets.specs.Sound.{IsSoundPacket};
ghost use Rattle.group_packets.specs.declared.packet.Packet.{Packet as Sent};
ghost use Rattle.packet_bytes.specs.declared.fault.PacketError.TheVariants.{Trailing};
ghost use Rattle.packet_bytes.specs.Reading.{Answers, content_at, found_at, in_field as as_field, message_at, packet_at, whole as as_whole};
ghost use Rattle.packet_bytes.specs.Sound.{IsMessage, IsPacket};
ghost use Rattle.packet_bytes.specs.Spelling.{packet_spelling};
ghost use Rattle.packet_bytes.specs.Standing.{StandsAt};

use crate::fault::PacketError;
use crate::messages::message_of;
use crate::packets::content_of;
use group_packets::Packet;
use orca_base::{Refusal, refuse};
use std::alloc::Global;
use value_bytes::{ValueError, behind, place};
use value_core::Message;

// A field's fault, as packets tell it.
fn in_field(fault: ValueError) -> PacketError
    ensures { result ≡ as_field fault }
{
    match fault {
        ValueError::Short { at } => PacketError::Short { at },
        ValueError::BadTag { at } | ValueError::NotCanonical { at } => PacketError::BadField { at },
    }
}

// The packet that was read, where no bytes are left.
fn whole(
    end: u32,
    packet: Packet<Message>,
    rest: &[u8],
) -> Result<Packet<Message>, Refusal<PacketError>>
    ensures { Answers result (as_whole end (Ok (packet, rest.now))) }
{
    if rest.is_empty() {
        return Ok(packet);
    }
    let at = place(end, rest);
    refuse(PacketError::Trailing { at })
}

// The packet with this tag, whose incarnation and fields are all of these bytes.
fn whole_of(
    alloc: Global,
    tag: u8,
    end: u32,
    bytes: &[u8],
) -> Result<Packet<Message>, Refusal<PacketError>>
    ensures { Answers result (as_whole end (content_at tag end bytes.now)) }
{
    match content_of(alloc, tag, end, bytes) {
        Ok((packet, rest)) => whole(end, packet, rest),
        Err(Refusal::Because { cause }) => refuse(in_field(cause)),
        Err(Refusal::NoMemory) => Err(Refusal::NoMemory),
    }
}

// The packet that all of these bytes are.
#[tactic(auto, unfolding(crate::specs::Reading::packet_at))]
fn packet_of(alloc: Global, bytes: &[u8]) -> Result<Packet<Message>, Refusal<PacketError>>
    requires { length bytes.now < 2 ^ 32 }
    ensures { Answers result (packet_at bytes.now) }
{
    let end = bytes.len() as u32;
    match bytes {
        [] => refuse(PacketError::Short { at: 0 }),
        [tag, rest @ ..] => {
            if 1 <= *tag && *tag <= 13 {
                return whole_of(alloc, *tag, end, rest);
            }
            refuse(PacketError::BadTag { at: 0 })
        }
    }
}

/// The packet that all of these bytes are; or the first fault from the left (docs/RUNTIME.md, Packets in bytes). There are fewer than
/// 2^32 bytes, so that each place is a `u32`.
pub fn read_packet(alloc: Global, bytes: &[u8]) -> Result<Packet<Message>, Refusal<PacketError>>
    requires { length bytes.now < 2 ^ 32 }
    // The packet is sound, its numbers fit, and the bytes are its spelling.
    ensures found { IfOk result (λ p. IsPacket p × (bytes.now ≡ packet_spelling p)) }
    // So it may be written.
    ensures sound { IfOk result (λ p. IsSoundPacket IsSoundMessage IsSoundReply p) }
    // Where the bytes are the spelling of a sound packet whose numbers fit, the answer is that packet.
    ensures only { (p : Sent Told Replied) → IsPacket p → bytes.now ≡ packet_spelling p →
        MatchRefusal result (λ q. q ≡ p) (λ fault. ⊥) }
    // A fault is the first from the left.
    ensures refused { IfBecause result (λ fault. packet_at bytes.now ≡ Err fault) }
    // The same in one equation, for readers of longer forms.
    ensures exact { Answers result (packet_at bytes.now) }
{
    packet_of(alloc, bytes)
}

// The message whose spelling stands at this place, and the place behind it.
#[tactic(auto, unfolding(crate::specs::Reading::found_at))]
fn find(alloc: Global, bytes: &[u8], at: u32) -> Result<(Message, u32), Refusal<PacketError>>
    requires { length bytes.now < 2 ^ 32 }
    ensures { Answers result (found_at bytes.now at) }
{
    let end = bytes.len() as u32;
    match message_of(alloc, end, behind(bytes, at)) {
        Ok((message, rest)) => Ok((message, place(end, rest))),
        Err(Refusal::Because { cause }) => refuse(in_field(cause)),
        Err(Refusal::NoMemory) => Err(Refusal::NoMemory),
    }
}

/// The message whose spelling stands at this place, and the place behind it; or the first fault from the left (docs/RUNTIME.md, Packets
/// in bytes), which is never `Trailing`. At or behind the end of the bytes that is `Short`. There are fewer than 2^32 bytes, so that
/// each place is a `u32`.
pub fn read_message(
    alloc: Global,
    bytes: &[u8],
    at: u32,
) -> Result<(Message, u32), Refusal<PacketError>>
    requires { length bytes.now < 2 ^ 32 }
    // The message is sound, its numbers fit, and the bytes from `at` up to the end told are its spelling.
    ensures found { IfOk result (λ x. IsMessage x.0 × StandsAt bytes.now at x.1 x.0) }
    // Where the spelling of a sound message whose numbers fit stands at `at`, the answer is that message with its end, whatever follows.
    ensures only { (m : Told) (end : ℕ) → IsMessage m → StandsAt bytes.now at end m →
        MatchRefusal result (λ x. (x.0 ≡ m) × (x.1 ≡ end)) (λ fault. ⊥) }
    // A fault is the first from the left, and a field's.
    ensures refused { IfBecause result (λ fault. (e : ValueFault) × (message_at (length bytes.now) (drop at bytes.now) ≡ Err e) ×
        (fault ≡ as_field e)) }
    ensures never_trailing { IfBecause result (λ fault. (place : ℕ) → fault ≢ Trailing place) }
    // The same in one equation, for readers of longer forms.
    ensures exact { Answers result (found_at bytes.now at) }
{
    find(alloc, bytes, at)
}
