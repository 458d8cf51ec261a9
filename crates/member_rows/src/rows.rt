//! Rows: a member does what the lines say, and what comes of it is compared with what they want.

ghost use Rattle.std.specs.Prelude.{OnOk};
ghost use Rattle.member_rows.specs.Tested.{IsTested};

use crate::calls::{Done, done_by, opened};
use crate::events::{Event, read_event};
use crate::failed::Failed;
use crate::fields::Fields;
use crate::packets::{packet_text, read_packet, yes_or_no};
use crate::plain::Plain;
use group_member::{Config, Member};
use group_packets::packet_length;
use group_reset::Joined;
use history_buffer::Slot;
use std::alloc::{AllocError, Global};
use std::collections::VecDeque;

/// What was wanted, and what was found in its place.
#[derive(Drop)]
pub struct Other {
    pub wanted: String,
    pub found: String,
}

// What a line wants to know.
#[derive(Clone, Copy, Debug, PartialEq, Eq)]
enum Asked {
    Sends,
    Stands,
    Waits,
    Outcome,
}

// A line of a row.
#[derive(Drop)]
enum Line {
    // It says nothing.
    Nothing,
    // What was sent so far isn't asked for.
    Forget,
    // Something happens.
    Event { event: Event },
    // This is wanted.
    Wanted { asked: Asked, text: String },
}

// What a row has come to.
#[derive(Drop)]
struct Seen {
    // What was sent, and isn't asked for yet.
    sent: VecDeque<String>,
    // What came of the last answer.
    outcome: String,
    // What wasn't as wanted.
    others: Vec<Other>,
}

impl Seen {
    fn new(alloc: Global) -> Seen {
        Seen {
            sent: VecDeque::new(alloc),
            outcome: String::new(alloc),
            others: Vec::new(alloc),
        }
    }

    // What is found is compared with what is wanted.
    fn compare(&mut self, alloc: Global, wanted: &str, found: &str) -> Result<(), AllocError> {
        if wanted != found {
            self.others.push(Other {
                wanted: String::from_str(alloc, wanted)?,
                found: String::from_str(alloc, found)?,
            })?;
        }
        Ok(())
    }

    // This is wanted to be the next that was sent.
    fn compare_sent(&mut self, alloc: Global, wanted: &str) -> Result<(), AllocError> {
        match self.sent.pop_front() {
            Some(found) => self.compare(alloc, wanted, found.as_str()),
            None => self.compare(alloc, wanted, "nothing more sent"),
        }
    }

    // Nothing more is wanted to be sent so far.
    fn compare_rest(&mut self, alloc: Global) -> Result<(), AllocError> {
        for _ in 0..u64::MAX {
            let Some(found) = self.sent.pop_front() else {
                break;
            };
            self.compare(alloc, "nothing more sent", found.as_str())?;
        }
        Ok(())
    }

    // What an event sent, and what came of an answer.
    fn note(&mut self, alloc: Global, done: &Done) -> Result<(), AllocError> {
        for letter in &done.sends {
            let packet = packet_text(alloc, &letter.packet)?;
            self.sent
                .push_back(format!(in alloc; "{} {packet}", letter.to)?)?;
        }
        if let Some(outcome) = &done.outcome {
            self.outcome = outcome_text(alloc, outcome)?;
        }
        Ok(())
    }
}

// What comes of an answer, as words.
fn outcome_text(alloc: Global, outcome: &Joined) -> Result<String, AllocError> {
    match outcome {
        Joined::Stale => String::from_str(alloc, "stale"),
        Joined::Waiting { have, need } => format!(in alloc; "waiting have={have} need={need}"),
        Joined::GaveUp { base, applied } => format!(in alloc;
            "gave_up base={base} applied={applied}"
        ),
        Joined::Installed => String::from_str(alloc, "installed"),
    }
}

// How many entries are purged, of at most 999.
fn purged(member: &Member<Plain>) -> u64 {
    for number in 1..1000u64 {
        if !matches!(member.entry(number), Slot::Purged) {
            return number - 1;
        }
    }
    999
}

// How a member stands, as words.
fn standing_text(alloc: Global, member: &Member<Plain>) -> Result<String, AllocError>
    requires { IsTested member.now }
{
    format!(in alloc;
        "incarnation={} promised={} length={} accepted={} applied={} purged={} outside={}",
        member.installed(),
        member.promised(),
        member.length(),
        member.accepted(),
        member.applied(),
        purged(member),
        yes_or_no(member.is_outside())
    )
}

// Whether it is the active sequencer, and a message waits for room, as a word.
fn waiting_word(member: &Member<Plain>) -> &'static str
    requires { IsTested member.now }
{
    yes_or_no(member.has_waiting())
}

// What is asked is compared with what is wanted.
fn compare(
    alloc: Global,
    member: &Member<Plain>,
    seen: &mut Seen,
    asked: Asked,
    wanted: &str,
) -> Result<(), AllocError>
    requires { IsTested member.now }
{
    match asked {
        Asked::Sends => seen.compare_sent(alloc, wanted),
        Asked::Stands => {
            let found = standing_text(alloc, member)?;
            seen.compare(alloc, wanted, found.as_str())
        },
        Asked::Waits => seen.compare(alloc, wanted, waiting_word(member)),
        Asked::Outcome => {
            let found = std::mem::replace(&mut seen.outcome, String::new(alloc));
            seen.compare(alloc, wanted, found.as_str())
        },
    }
}

// What a line says.
fn read_line(alloc: Global, line: &str) -> Result<Line, Failed> {
    let (verb, rest) = line.split_once(' ').unwrap_or((line, ""));
    let asked = match verb {
        "" | "--" => return Ok(Line::Nothing),
        "sends" => Asked::Sends,
        "stands" => Asked::Stands,
        "waits" => Asked::Waits,
        "outcome" => Asked::Outcome,
        "forget" => return if rest.is_empty() {
            Ok(Line::Forget)
        } else {
            Err(Failed::Form)
        },
        _ => return Ok(Line::Event {
            event: read_event(alloc, line)?,
        }),
    };
    Ok(Line::Wanted {
        asked,
        text: String::from_str(alloc, rest)?,
    })
}

// Something happens to the member, behind which nothing more is wanted of what was sent before.
fn happens(
    alloc: Global,
    member: &mut Member<Plain>,
    seen: &mut Seen,
    event: Event,
) -> Result<(), Failed>
    requires { IsTested member.old }
    ensures { OnOk result (IsTested member.new) }
{
    seen.compare_rest(alloc)?;
    let done = done_by(alloc, member, event)?;
    seen.note(alloc, &done)?;
    Ok(())
}

// A line is done.
fn line_done(
    alloc: Global,
    member: &mut Member<Plain>,
    seen: &mut Seen,
    line: &str,
) -> Result<(), Failed>
    requires { IsTested member.old }
    ensures { OnOk result (IsTested member.new) }
{
    match read_line(alloc, line)? {
        Line::Nothing => Ok(()),
        Line::Forget => {
            seen.sent.clear();
            Ok(())
        },
        Line::Event { event } => happens(alloc, member, seen, event),
        Line::Wanted { asked, text } => Ok(compare(alloc, member, seen, asked, text.as_str())?),
    }
}

// The lines of a row of member `me` of such a group.
fn member_row(alloc: Global, config: Config, me: u8, lines: &str) -> Result<Vec<Other>, Failed> {
    let mut member = opened(alloc, config, me)?;
    let mut seen = Seen::new(alloc);
    'lines: for line in lines.split('\n') {
        match line_done(alloc, &mut member, &mut seen, line) {
            Ok(()) => {},
            Err(failed) => {
                seen.compare(alloc, line, failed.text())?;
                return Ok(seen.others);
            },
        }
    }
    seen.compare_rest(alloc)?;
    Ok(seen.others)
}

// A row of one packet, whose words behind `packet` are its length and itself: a copy of it is measured and written.
fn packet_row(alloc: Global, words: &str) -> Result<Vec<Other>, Failed> {
    let mut fields = Fields::of(alloc, words)?;
    let _length = fields.number("length")?;
    let kind = fields.word()?;
    let packet = read_packet(alloc, kind.as_str(), &mut fields)?;
    fields.end()?;
    let copied = packet.copy(alloc)?;
    let text = packet_text(alloc, &copied)?;
    let found = format!(in alloc; "length={} {text}", packet_length(&copied))?;
    let mut seen = Seen::new(alloc);
    seen.compare(alloc, words, found.as_str())?;
    Ok(seen.others)
}

// The group of a row, and its member's number, from the words behind `member`.
fn read_group(alloc: Global, words: &str) -> Result<(Config, u8), Failed> {
    let mut fields = Fields::of(alloc, words)?;
    let me = fields.member()?;
    let nodes = fields.small("nodes")?;
    let resilience = fields.small("resilience")?;
    fields.end()?;
    Ok((Config { nodes, resilience }, me))
}

/// What isn't as a row wants it: its first line is `packet` with a length and a packet, or `member` with its group, behind which
/// its lines stand.
pub fn row(alloc: Global, text: &str) -> Result<Vec<Other>, Failed> {
    let (first, lines) = text.split_once('\n').unwrap_or((text, ""));
    match first.split_once(' ') {
        Some(("packet", words)) => {
            if lines.trim().is_empty() {
                packet_row(alloc, words)
            } else {
                Err(Failed::Form)
            }
        },
        Some(("member", words)) => {
            let (config, me) = read_group(alloc, words)?;
            member_row(alloc, config, me, lines)
        },
        _ => Err(Failed::Form),
    }
}
