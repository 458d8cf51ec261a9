//! What happens to a member, as a line says it.

use crate::failed::Failed;
use crate::fields::Fields;
use crate::packets::{read_join, read_news, read_packet};
use crate::plain::Plain;
use group_packets::{Join, News, Packet};
use std::alloc::Global;

/// What a member does, or what comes to it.
#[derive(Drop)]
pub enum Event {
    /// The message is submitted.
    Submit { message: Plain },
    /// Messages of 40 bytes are submitted, of the calls from the first to the last.
    SubmitAll { first: u64, last: u64 },
    /// A packet comes from this member, by `receive`.
    Receive { from: u8, packet: Packet<Plain> },
    /// The entries from the first to the last come from member 0, each of which tells that those in front of it are accepted.
    Entries { first: u64, last: u64 },
    /// It applied its entries up to this number.
    Applies { number: u64 },
    /// A tick, and where it is due it coordinates.
    Tick,
    /// It hears a packet of this incarnation from this member.
    Listen { from: u8, incarnation: u64 },
    /// It coordinates.
    Coordinate,
    /// An invitation to this incarnation comes.
    Invited { from: u8, incarnation: u64 },
    /// An answer comes.
    Joined { from: u8, join: Join<Plain> },
    /// A Result comes.
    Announced { from: u8, news: News<Plain> },
}

/// The event that a line says.
pub fn read_event(alloc: Global, line: &str) -> Result<Event, Failed> {
    let mut fields = Fields::of(alloc, line)?;
    let verb = fields.word()?;
    let event = match verb.as_str() {
        "receive" | "listen" | "invited" | "joined" | "announced" => {
            coming(alloc, verb.as_str(), &mut fields)?
        },
        verb => own(verb, &mut fields)?,
    };
    fields.end()?;
    Ok(event)
}

// What comes from another member.
fn coming(alloc: Global, verb: &str, fields: &mut Fields) -> Result<Event, Failed> {
    let from = fields.member()?;
    if verb == "listen" {
        let incarnation = fields.number("incarnation")?;
        return Ok(Event::Listen { from, incarnation });
    }
    let kind = fields.word()?;
    match (verb, kind.as_str()) {
        ("receive", kind) => Ok(Event::Receive {
            from,
            packet: read_packet(alloc, kind, fields)?,
        }),
        ("invited", "invite") => Ok(Event::Invited {
            from,
            incarnation: fields.number("incarnation")?,
        }),
        ("joined", "join") => Ok(Event::Joined {
            from,
            join: read_join(alloc, fields)?,
        }),
        ("announced", "result") => Ok(Event::Announced {
            from,
            news: read_news(alloc, fields)?,
        }),
        _ => Err(Failed::Form),
    }
}

// What a member does by itself, and many entries.
fn own(verb: &str, fields: &mut Fields) -> Result<Event, Failed> {
    match verb {
        "submit" => {
            let call = fields.number("call")?;
            let bytes = fields.number("bytes")?;
            let bytes = u32::try_from(bytes).map_err(|_| Failed::Form)?;
            Ok(Event::Submit {
                message: Plain { call, bytes },
            })
        },
        "submit_all" => Ok(Event::SubmitAll {
            first: fields.number("first")?,
            last: fields.number("last")?,
        }),
        "entries" => Ok(Event::Entries {
            first: fields.number("first")?,
            last: fields.number("last")?,
        }),
        "applies" => Ok(Event::Applies {
            number: fields.number("number")?,
        }),
        "tick" => Ok(Event::Tick),
        "coordinate" => Ok(Event::Coordinate),
        _ => Err(Failed::Form),
    }
}
