//! Packets, read from words and written as words: the kind, and each field as `name=value`.

use crate::failed::Failed;
use crate::fields::Fields;
use crate::plain::Plain;
use group_packets::{Join, News, Packet};
use orca_base::{CallNo, Items, NoMemory, ProcessNo};
use std::alloc::{AllocError, Global};

/// So many messages of as many bytes each, of rising calls.
pub fn messages(
    alloc: Global,
    count: u64,
    first: u64,
    bytes: u32,
) -> Result<Items<Plain>, NoMemory> {
    let mut all = Vec::new(alloc);
    for place in 0..count {
        all.push(Plain {
            call: first.saturating_add(place),
            bytes,
        })?;
    }
    Ok(Items::new(all))
}

// The message whose call and bytes are the next words.
fn read_message(fields: &mut Fields) -> Result<Plain, Failed> {
    let call = fields.number("call")?;
    let bytes = fields.number("bytes")?;
    Ok(Plain {
        call,
        bytes: u32::try_from(bytes).map_err(|_| Failed::Form)?,
    })
}

// The messages of which the next words tell how many they are, the first one's call, and the bytes of each.
fn read_messages(alloc: Global, fields: &mut Fields) -> Result<Items<Plain>, Failed> {
    let count = fields.number("messages")?;
    let first = fields.number("first")?;
    let bytes = fields.number("bytes")?;
    if count > 1000 {
        return Err(Failed::Form);
    }
    let bytes = u32::try_from(bytes).map_err(|_| Failed::Form)?;
    Ok(messages(alloc, count, first, bytes)?)
}

/// The answer whose fields are the next words.
pub fn read_join(alloc: Global, fields: &mut Fields) -> Result<Join<Plain>, Failed> {
    Ok(Join {
        incarnation: fields.number("incarnation")?,
        installed: fields.number("installed")?,
        accepted: fields.number("accepted")?,
        applied: fields.number("applied")?,
        base: fields.number("base")?,
        messages: read_messages(alloc, fields)?,
    })
}

/// The Result whose fields are the next words.
pub fn read_news(alloc: Global, fields: &mut Fields) -> Result<News<Plain>, Failed> {
    Ok(News {
        incarnation: fields.number("incarnation")?,
        accepted: fields.number("accepted")?,
        base: fields.number("base")?,
        members: Items::new(fields.members(alloc)?),
        messages: read_messages(alloc, fields)?,
    })
}

/// The packet of this kind whose fields are the next words.
pub fn read_packet(
    alloc: Global,
    kind: &str,
    fields: &mut Fields,
) -> Result<Packet<Plain>, Failed> {
    match kind {
        "request" | "body" | "order" | "entry" => read_ordering(kind, fields),
        "ack" | "accept" | "nack" | "status" => read_telling(kind, fields),
        "ask" | "answer" => read_single(kind, fields),
        "invite" => Ok(Packet::Invite {
            incarnation: fields.number("incarnation")?,
        }),
        "join" => Ok(Packet::Join {
            join: read_join(alloc, fields)?,
        }),
        "result" => Ok(Packet::Result {
            news: read_news(alloc, fields)?,
        }),
        _ => Err(Failed::Form),
    }
}

// A packet with a message, or its name.
fn read_ordering(kind: &str, fields: &mut Fields) -> Result<Packet<Plain>, Failed> {
    let incarnation = fields.number("incarnation")?;
    match kind {
        "request" => Ok(Packet::Request {
            incarnation,
            applied: fields.number("applied")?,
            message: read_message(fields)?,
        }),
        "body" => Ok(Packet::Body {
            incarnation,
            applied: fields.number("applied")?,
            message: read_message(fields)?,
        }),
        "order" => Ok(Packet::Order {
            incarnation,
            number: fields.number("number")?,
            process: ProcessNo(u16::from(fields.small("process")?)),
            call: CallNo(fields.number("call")?),
            accepted: fields.number("accepted")?,
            stable: fields.number("stable")?,
        }),
        _ => Ok(Packet::Entry {
            incarnation,
            number: fields.number("number")?,
            accepted: fields.number("accepted")?,
            stable: fields.number("stable")?,
            message: read_message(fields)?,
        }),
    }
}

// A packet that tells how far its sender is.
fn read_telling(kind: &str, fields: &mut Fields) -> Result<Packet<Plain>, Failed> {
    let incarnation = fields.number("incarnation")?;
    match kind {
        "ack" => Ok(Packet::Ack {
            incarnation,
            length: fields.number("length")?,
            applied: fields.number("applied")?,
        }),
        "accept" => Ok(Packet::Accept {
            incarnation,
            accepted: fields.number("accepted")?,
            stable: fields.number("stable")?,
        }),
        "nack" => Ok(Packet::Nack {
            incarnation,
            first: fields.number("first")?,
            applied: fields.number("applied")?,
            whole: fields.flag("whole")?,
        }),
        _ => Ok(Packet::Status {
            incarnation,
            length: fields.number("length")?,
            applied: fields.number("applied")?,
        }),
    }
}

// A packet of a call on a single copy.
fn read_single(kind: &str, fields: &mut Fields) -> Result<Packet<Plain>, Failed> {
    let incarnation = fields.number("incarnation")?;
    let place = fields.number("place")?;
    if kind == "ask" {
        return Ok(Packet::Ask {
            incarnation,
            place,
            message: read_message(fields)?,
        });
    }
    Ok(Packet::Answer {
        incarnation,
        place,
        process: ProcessNo(u16::from(fields.small("process")?)),
        call: CallNo(fields.number("call")?),
        reply: fields.number("reply")?,
    })
}

// ---- written

// A list of messages as words, where they are of rising calls and have the same number of bytes.
fn messages_text(alloc: Global, messages: &[Plain]) -> Result<String, AllocError> {
    let (first, bytes) = match messages.first() {
        Some(message) => (message.call, message.bytes),
        None => (0, 0),
    };
    for (place, message) in messages.iter().enumerate() {
        if message.call != first.saturating_add(place as u64) || message.bytes != bytes {
            return format!(in alloc; "messages={} of other calls or bytes", messages.len());
        }
    }
    format!(in alloc; "messages={} first={first} bytes={bytes}", messages.len())
}

// A list of members as a word.
fn members_text(alloc: Global, members: &[u8]) -> Result<String, AllocError> {
    if members.is_empty() {
        return String::from_str(alloc, "members=none");
    }
    let mut text = String::from_str(alloc, "members=")?;
    for (place, member) in members.iter().enumerate() {
        if place > 0 {
            text.push(',')?;
        }
        text.push_str(format!(in alloc; "{member}")?.as_str())?;
    }
    Ok(text)
}

fn join_text(alloc: Global, join: &Join<Plain>) -> Result<String, AllocError> {
    let messages = messages_text(alloc, join.messages.as_slice())?;
    format!(in alloc;
        "join incarnation={} installed={} accepted={} applied={} base={} {messages}",
        join.incarnation, join.installed, join.accepted, join.applied, join.base
    )
}

fn news_text(alloc: Global, news: &News<Plain>) -> Result<String, AllocError> {
    let members = members_text(alloc, news.members.as_slice())?;
    let messages = messages_text(alloc, news.messages.as_slice())?;
    format!(in alloc;
        "result incarnation={} accepted={} base={} {members} {messages}",
        news.incarnation, news.accepted, news.base
    )
}

fn message_text(alloc: Global, message: &Plain) -> Result<String, AllocError> {
    format!(in alloc; "call={} bytes={}", message.call, message.bytes)
}

/// A packet as words.
pub fn packet_text(alloc: Global, packet: &Packet<Plain>) -> Result<String, AllocError> {
    match packet {
        Packet::Request { .. } | Packet::Body { .. } | Packet::Ask { .. } => message_only_text(
            alloc, packet,
        ),
        Packet::Order { .. } | Packet::Entry { .. } => ordering_text(alloc, packet),
        Packet::Invite { incarnation } => format!(in alloc; "invite incarnation={incarnation}"),
        Packet::Join { join } => join_text(alloc, join),
        Packet::Result { news } => news_text(alloc, news),
        Packet::Answer {
            incarnation,
            place,
            process,
            call,
            reply,
        } => {
            format!(in alloc;
                "answer incarnation={incarnation} place={place} process={} call={} reply={reply}",
                process.0, call.0
            )
        },
        _ => telling_text(alloc, packet),
    }
}

// A packet that asks something of a message.
fn message_only_text(alloc: Global, packet: &Packet<Plain>) -> Result<String, AllocError> {
    match packet {
        Packet::Request {
            incarnation,
            applied,
            message,
        } => {
            let message = message_text(alloc, message)?;
            format!(in alloc; "request incarnation={incarnation} applied={applied} {message}")
        },
        Packet::Body {
            incarnation,
            applied,
            message,
        } => {
            let message = message_text(alloc, message)?;
            format!(in alloc; "body incarnation={incarnation} applied={applied} {message}")
        },
        Packet::Ask {
            incarnation,
            place,
            message,
        } => {
            let message = message_text(alloc, message)?;
            format!(in alloc; "ask incarnation={incarnation} place={place} {message}")
        },
        _ => String::from_str(alloc, "a packet of another kind"),
    }
}

// A packet that gives a number.
fn ordering_text(alloc: Global, packet: &Packet<Plain>) -> Result<String, AllocError> {
    match packet {
        Packet::Order {
            incarnation,
            number,
            process,
            call,
            accepted,
            stable,
        } => {
            let name = format!(in alloc; "process={} call={}", process.0, call.0)?;
            format!(in alloc;
                "order incarnation={incarnation} number={number} {name} accepted={accepted} stable={stable}"
            )
        },
        Packet::Entry {
            incarnation,
            number,
            accepted,
            stable,
            message,
        } => {
            let message = message_text(alloc, message)?;
            format!(in alloc;
                "entry incarnation={incarnation} number={number} accepted={accepted} stable={stable} {message}"
            )
        },
        _ => String::from_str(alloc, "a packet of another kind"),
    }
}

// A packet that tells how far its sender is.
fn telling_text(alloc: Global, packet: &Packet<Plain>) -> Result<String, AllocError> {
    match packet {
        Packet::Ack {
            incarnation,
            length,
            applied,
        } => {
            format!(in alloc; "ack incarnation={incarnation} length={length} applied={applied}")
        },
        Packet::Accept {
            incarnation,
            accepted,
            stable,
        } => {
            format!(in alloc;
                "accept incarnation={incarnation} accepted={accepted} stable={stable}"
            )
        },
        Packet::Nack {
            incarnation,
            first,
            applied,
            whole,
        } => {
            let whole = yes_or_no(*whole);
            format!(in alloc;
                "nack incarnation={incarnation} first={first} applied={applied} whole={whole}"
            )
        },
        Packet::Status {
            incarnation,
            length,
            applied,
        } => {
            format!(in alloc; "status incarnation={incarnation} length={length} applied={applied}")
        },
        _ => String::from_str(alloc, "a packet of another kind"),
    }
}

/// A flag as a word.
pub fn yes_or_no(flag: bool) -> &'static str {
    if flag { "yes" } else { "no" }
}
