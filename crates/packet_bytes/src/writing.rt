//! Writing messages and packets.

ghost use Rattle.std.specs.Prelude.{◌≡◌, ◌<◌, ◌^◌, ◌++◌, ◌∷◌, [], All, length, IfOk, OnOk};
ghost use Rattle.group_packets.specs.Packet.{packet_bytes, stopped};
ghost use Rattle.group_packets.specs.declared.packet.Packet.TheVariants as sent;
ghost use Rattle.group_packets.specs.Sound.{AreMembers, AreSoundEntries, IsSoundPacket};
ghost use Rattle.value_core.specs.Lengths.{answer_length, message_length, told_length};
ghost use Rattle.value_core.specs.Sound.{AreSoundArguments, IsSoundAction, IsSoundMessage, IsSoundReply};
ghost use Rattle.packet_bytes.specs.Sound.{ActionFits, Fits2, Fits8, IsMessage, IsPacket, ObjectFits, PlaceFits};
ghost use Rattle.packet_bytes.specs.Spelling.{action_spelling, arguments_spelling, eight, fault_number, members_spelling, message_spelling, messages_spelling, object_spelling, packet_spelling, place_spelling, reply_spelling, truth_byte, two};

use group_packets::{Join, News, Packet};
use orca_base::{FaultKind, MessageId, NoMemory, ObjectId};
use std::alloc::Global;
use value_bytes::push_value;
use value_core::{Action, Message, Parts, Reply};

/// Adds 2 bytes: for writers of longer forms.
#[tactic(auto, unfolding(crate::specs::Spelling::two))]
pub fn put_two(out: &mut Vec<u8>, number: u16) -> Result<(), NoMemory>
    ensures spelled { OnOk result (out.new.items ≡ out.old.items ++ two number) }
    ensures fits { Fits2 number }
{
    out.extend_from_slice(&number.to_be_bytes())?;
    Ok(())
}

/// Adds 8 bytes: for writers of longer forms.
#[tactic(auto, unfolding(crate::specs::Spelling::eight))]
pub fn put_eight(out: &mut Vec<u8>, number: u64) -> Result<(), NoMemory>
    ensures spelled { OnOk result (out.new.items ≡ out.old.items ++ eight number) }
    ensures fits { Fits8 number }
{
    out.extend_from_slice(&number.to_be_bytes())?;
    Ok(())
}

/// Adds an object's name: for writers of longer forms.
#[tactic(auto, unfolding(crate::specs::Spelling::four, crate::specs::Spelling::object_spelling))]
pub fn put_object(out: &mut Vec<u8>, object: ObjectId) -> Result<(), NoMemory>
    ensures spelled { OnOk result (out.new.items ≡ out.old.items ++ object_spelling object) }
    ensures fits { OnOk result (ObjectFits object) }
{
    put_two(out, object.process)?;
    out.extend_from_slice(&object.number.to_be_bytes())?;
    Ok(())
}

// Adds the member that a fork names, if any.
#[tactic(auto, unfolding(crate::specs::Spelling::eight, crate::specs::Spelling::place_spelling))]
fn put_place(out: &mut Vec<u8>, place_on: Option<i64>) -> Result<(), NoMemory>
    ensures spelled { OnOk result (out.new.items ≡ out.old.items ++ place_spelling place_on) }
    ensures fits { OnOk result (PlaceFits place_on) }
{
    let Some(place) = place_on else {
        out.push(0)?;
        return Ok(());
    };
    out.push(1)?;
    out.extend_from_slice(&place.to_be_bytes())?;
    Ok(())
}

// Adds the number of the arguments, and the arguments.
#[tactic(auto, unfolding(crate::specs::Spelling::arguments_spelling))]
fn put_arguments(out: &mut Vec<u8>, args: &Parts) -> Result<(), NoMemory>
    requires { AreSoundArguments args.now }
    ensures { OnOk result (out.new.items ≡ out.old.items ++ arguments_spelling args.now) }
{
    out.push(args.len() as u8)?;
    for value in args.as_slice() {
        push_value(out, value)?;
    }
    Ok(())
}

// Adds an action.
fn put_action(out: &mut Vec<u8>, action: &Action) -> Result<(), NoMemory>
    requires { IsSoundAction action.now }
    ensures spelled { OnOk result (out.new.items ≡ out.old.items ++ action_spelling action.now) }
    ensures fits { OnOk result (ActionFits action.now) }
{
    match action {
        Action::Make { kind, object } => {
            out.push(1)?;
            put_two(out, kind.0)?;
            put_object(out, *object)
        }
        Action::Call {
            kind,
            op,
            object,
            args,
        } => {
            out.push(2)?;
            put_two(out, kind.0)?;
            put_two(out, op.0)?;
            put_object(out, *object)?;
            put_arguments(out, args)
        }
        Action::Fork {
            process,
            args,
            place_on,
        } => {
            out.push(3)?;
            put_two(out, process.0)?;
            put_place(out, *place_on)?;
            put_arguments(out, args)
        }
        Action::Ended | Action::Faulted { .. } => Ok(()),
    }
}

/// Adds a message: for writers of longer forms.
#[tactic(auto, unfolding(crate::specs::Spelling::message_spelling))]
pub fn put_message(out: &mut Vec<u8>, message: &Message) -> Result<(), NoMemory>
    requires { IsSoundMessage message.now }
    ensures spelled { OnOk result (out.new.items ≡ out.old.items ++ message_spelling message.now) }
    ensures is { OnOk result (IsMessage message.now) }
{
    put_two(out, message.process.0)?;
    put_eight(out, message.call.0)?;
    put_action(out, &message.action)
}

/// Adds the number of the messages, and the messages: for writers of longer forms.
#[tactic(auto, unfolding(crate::specs::Spelling::four, crate::specs::Spelling::messages_spelling))]
pub fn put_messages(out: &mut Vec<u8>, messages: &[Message]) -> Result<(), NoMemory>
    requires { AreSoundEntries IsSoundMessage messages.now }
    ensures spelled { OnOk result (out.new.items ≡ out.old.items ++ messages_spelling messages.now) }
    ensures are { OnOk result (AreSoundEntries IsMessage messages.now) }
{
    out.extend_from_slice(&(messages.len() as u32).to_be_bytes())?;
    for message in messages {
        put_message(out, message)?;
    }
    Ok(())
}

// Adds the number of the members, and the members.
#[tactic(auto, unfolding(crate::specs::Spelling::members_spelling))]
fn put_members(out: &mut Vec<u8>, members: &[u8]) -> Result<(), NoMemory>
    requires { AreMembers members.now }
    ensures { OnOk result (out.new.items ≡ out.old.items ++ members_spelling members.now) }
{
    out.push(members.len() as u8)?;
    out.extend_from_slice(members)?;
    Ok(())
}

// A fault's number.
fn number_of(fault: FaultKind) -> u8
    ensures { result ≡ fault_number fault }
{
    match fault {
        FaultKind::Overflow => 0,
        FaultKind::DivideByZero => 1,
        FaultKind::IndexOutside => 2,
        FaultKind::FromEmpty => 3,
        FaultKind::TooLarge => 4,
        FaultKind::TooLong => 5,
        FaultKind::TooDeep => 6,
        FaultKind::NoReturn => 7,
    }
}

// Adds a reply.
#[tactic(auto, unfolding(crate::specs::Spelling::reply_spelling))]
fn put_reply(out: &mut Vec<u8>, reply: &Reply) -> Result<(), NoMemory>
    requires { IsSoundReply reply.now }
    ensures { OnOk result (out.new.items ≡ out.old.items ++ reply_spelling reply.now) }
{
    match reply {
        Reply::Done => {
            out.push(0)?;
            Ok(())
        }
        Reply::Gave { value } => {
            out.push(1)?;
            push_value(out, value)
        }
        Reply::Broke { fault } => {
            out.extend_from_slice(&[2, number_of(*fault)])?;
            Ok(())
        }
    }
}

// Adds a tag and an incarnation.
fn put_head(out: &mut Vec<u8>, tag: u8, incarnation: u64) -> Result<(), NoMemory>
    ensures spelled { OnOk result (out.new.items ≡ out.old.items ++ tag ∷ eight incarnation) }
    ensures fits { OnOk result (Fits8 incarnation) }
{
    out.push(tag)?;
    put_eight(out, incarnation)
}

// Adds a packet of three numbers.
fn put_numbers(
    out: &mut Vec<u8>,
    tag: u8,
    incarnation: u64,
    first: u64,
    other: u64,
) -> Result<(), NoMemory>
    ensures spelled { OnOk result (out.new.items ≡ out.old.items ++ (tag ∷ eight incarnation ++ eight first ++ eight other)) }
    ensures fits { OnOk result (Fits8 incarnation × Fits8 first × Fits8 other) }
{
    put_head(out, tag, incarnation)?;
    put_eight(out, first)?;
    put_eight(out, other)
}

// Adds a packet of two numbers and a message.
fn put_with(
    out: &mut Vec<u8>,
    tag: u8,
    incarnation: u64,
    number: u64,
    message: &Message,
) -> Result<(), NoMemory>
    requires { IsSoundMessage message.now }
    ensures spelled { OnOk result
        (out.new.items ≡ out.old.items ++ (tag ∷ eight incarnation ++ eight number ++ message_spelling message.now)) }
    ensures fits { OnOk result (Fits8 incarnation × Fits8 number) }
    ensures is { OnOk result (IsMessage message.now) }
{
    put_head(out, tag, incarnation)?;
    put_eight(out, number)?;
    put_message(out, message)
}

// Adds an Order.
fn put_order(
    out: &mut Vec<u8>,
    incarnation: u64,
    number: u64,
    id: MessageId,
    accepted: u64,
    stable: u64,
) -> Result<(), NoMemory>
    ensures spelled { OnOk result (out.new.items ≡ out.old.items ++
        (3 ∷ eight incarnation ++ eight number ++ two id.process.0 ++ eight id.call.0 ++ eight accepted ++ eight stable)) }
    ensures fits { OnOk result
        (Fits8 incarnation × Fits8 number × Fits2 id.process.0 × Fits8 id.call.0 × Fits8 accepted × Fits8 stable) }
{
    put_head(out, 3, incarnation)?;
    put_eight(out, number)?;
    put_two(out, id.process.0)?;
    put_eight(out, id.call.0)?;
    put_eight(out, accepted)?;
    put_eight(out, stable)
}

// Adds an Entry.
fn put_entry(
    out: &mut Vec<u8>,
    incarnation: u64,
    number: u64,
    accepted: u64,
    stable: u64,
    message: &Message,
) -> Result<(), NoMemory>
    requires { IsSoundMessage message.now }
    ensures spelled { OnOk result (out.new.items ≡ out.old.items ++
        (4 ∷ eight incarnation ++ eight number ++ eight accepted ++ eight stable ++ message_spelling message.now)) }
    ensures fits { OnOk result (Fits8 incarnation × Fits8 number × Fits8 accepted × Fits8 stable) }
    ensures is { OnOk result (IsMessage message.now) }
{
    put_head(out, 4, incarnation)?;
    put_eight(out, number)?;
    put_eight(out, accepted)?;
    put_eight(out, stable)?;
    put_message(out, message)
}

// Adds a Nack.
fn put_nack(
    out: &mut Vec<u8>,
    incarnation: u64,
    first: u64,
    applied: u64,
    whole: bool,
) -> Result<(), NoMemory>
    ensures spelled { OnOk result (out.new.items ≡ out.old.items ++
        (7 ∷ eight incarnation ++ eight first ++ eight applied ++ truth_byte whole ∷ [])) }
    ensures fits { OnOk result (Fits8 incarnation × Fits8 first × Fits8 applied) }
{
    put_numbers(out, 7, incarnation, first, applied)?;
    out.push(u8::from(whole))?;
    Ok(())
}

// Adds a Join.
fn put_join(out: &mut Vec<u8>, join: &Join<Message>) -> Result<(), NoMemory>
    requires { AreSoundEntries IsSoundMessage join.now.messages }
    ensures spelled { OnOk result (out.new.items ≡ out.old.items ++ packet_spelling (sent.Join join.now)) }
    ensures is { OnOk result (IsPacket (sent.Join join.now)) }
{
    put_head(out, 10, join.incarnation)?;
    put_eight(out, join.installed)?;
    put_eight(out, join.accepted)?;
    put_eight(out, join.applied)?;
    put_eight(out, join.base)?;
    put_messages(out, join.messages.as_slice())
}

// Adds a Result.
fn put_result(out: &mut Vec<u8>, news: &News<Message>) -> Result<(), NoMemory>
    requires entries { AreSoundEntries IsSoundMessage news.now.messages }
    requires members { AreMembers news.now.members }
    ensures spelled { OnOk result (out.new.items ≡ out.old.items ++ packet_spelling (sent.Result news.now)) }
    ensures is { OnOk result (IsPacket (sent.Result news.now)) }
{
    put_head(out, 11, news.incarnation)?;
    put_eight(out, news.accepted)?;
    put_eight(out, news.base)?;
    put_members(out, news.members.as_slice())?;
    put_messages(out, news.messages.as_slice())
}

// Adds an Answer.
fn put_answer(
    out: &mut Vec<u8>,
    incarnation: u64,
    place: u64,
    id: MessageId,
    reply: &Reply,
) -> Result<(), NoMemory>
    requires { IsSoundReply reply.now }
    ensures spelled { OnOk result (out.new.items ≡ out.old.items ++
        (13 ∷ eight incarnation ++ eight place ++ two id.process.0 ++ eight id.call.0 ++ reply_spelling reply.now)) }
    ensures fits { OnOk result (Fits8 incarnation × Fits8 place × Fits2 id.process.0 × Fits8 id.call.0) }
{
    put_head(out, 13, incarnation)?;
    put_eight(out, place)?;
    put_two(out, id.process.0)?;
    put_eight(out, id.call.0)?;
    put_reply(out, reply)
}

// Adds a packet.
fn put_packet(out: &mut Vec<u8>, packet: &Packet<Message>) -> Result<(), NoMemory>
    requires { IsSoundPacket IsSoundMessage IsSoundReply packet.now }
    ensures spelled { OnOk result (out.new.items ≡ out.old.items ++ packet_spelling packet.now) }
    ensures is { OnOk result (IsPacket packet.now) }
{
    match packet {
        Packet::Request {
            incarnation,
            applied,
            message,
        } => put_with(out, 1, *incarnation, *applied, message),
        Packet::Body {
            incarnation,
            applied,
            message,
        } => put_with(out, 2, *incarnation, *applied, message),
        Packet::Order {
            incarnation,
            number,
            process,
            call,
            accepted,
            stable,
        } => {
            let id = MessageId {
                process: *process,
                call: *call,
            };
            put_order(out, *incarnation, *number, id, *accepted, *stable)
        }
        Packet::Entry {
            incarnation,
            number,
            accepted,
            stable,
            message,
        } => put_entry(out, *incarnation, *number, *accepted, *stable, message),
        Packet::Ack {
            incarnation,
            length,
            applied,
        } => put_numbers(out, 5, *incarnation, *length, *applied),
        Packet::Accept {
            incarnation,
            accepted,
            stable,
        } => put_numbers(out, 6, *incarnation, *accepted, *stable),
        Packet::Nack {
            incarnation,
            first,
            applied,
            whole,
        } => put_nack(out, *incarnation, *first, *applied, *whole),
        Packet::Status {
            incarnation,
            length,
            applied,
        } => put_numbers(out, 8, *incarnation, *length, *applied),
        Packet::Invite { incarnation } => put_head(out, 9, *incarnation),
        Packet::Join { join } => put_join(out, join),
        Packet::Result { news } => put_result(out, news),
        Packet::Ask {
            incarnation,
            place,
            message,
        } => put_with(out, 12, *incarnation, *place, message),
        Packet::Answer {
            incarnation,
            place,
            process,
            call,
            reply,
        } => {
            let id = MessageId {
                process: *process,
                call: *call,
            };
            put_answer(out, *incarnation, *place, id, reply)
        }
    }
}

/// The one spelling of a sound message (docs/RUNTIME.md, Packets in bytes).
pub fn write_message(alloc: Global, message: &Message) -> Result<Vec<u8>, NoMemory>
    requires { IsSoundMessage message.now }
    ensures spelled { IfOk result (λ v. v.items ≡ message_spelling message.now) }
    ensures length { IfOk result (λ v. length v.items ≡ message_length message.now) }
    // Its numbers fit, so it is read back from there (`only` of `read_message`).
    ensures is { IfOk result (λ v. IsMessage message.now) }
{
    let mut out = Vec::new(alloc);
    put_message(&mut out, message)?;
    Ok(out)
}

/// The one spelling of a sound packet (docs/RUNTIME.md, Packets in bytes).
pub fn write_packet(alloc: Global, packet: &Packet<Message>) -> Result<Vec<u8>, NoMemory>
    requires { IsSoundPacket IsSoundMessage IsSoundReply packet.now }
    ensures spelled { IfOk result (λ v. v.items ≡ packet_spelling packet.now) }
    ensures length { IfOk result (λ v. length v.items ≡ packet_bytes message_length answer_length packet.now) }
    // So `packet_length` is the number of the bytes written, or the greatest number of 32 bits where it is greater.
    ensures told { IfOk result (λ v. stopped (length v.items) ≡
        stopped (packet_bytes (λ m. told_length (message_length m)) (λ r. told_length (answer_length r)) packet.now)) }
    // Its numbers fit, so it is read back (`only` of `read_packet`).
    ensures is { IfOk result (λ v. IsPacket packet.now) }
{
    let mut out = Vec::new(alloc);
    put_packet(&mut out, packet)?;
    Ok(out)
}
