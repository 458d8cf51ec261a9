//! Calls of a member, each of which tests its condition before.

ghost use Rattle.std.specs.Prelude.{◌<◌, ◌*◌, OnOk, IfOk};
ghost use Rattle.member_rows.specs.Tested.{IsTested};

use crate::conditions::{can_hear, can_join};
use crate::events::Event;
use crate::failed::Failed;
use crate::plain::Plain;
use group_member::{Config, Member, Sends, Timed};
use group_packets::{Join, News, Packet};
use group_reset::{Joined, announced, coordinate, invited, joined};
use orca_base::NoMemory;
use std::alloc::Global;

/// What an event sent, and what came of an answer.
#[derive(Drop)]
pub struct Done {
    /// What was sent, the first first.
    pub sends: Sends<Plain>,
    /// What came of an answer, where the event was one.
    pub outcome: Option<Joined>,
}

/// Member `me` of such a group as it begins.
pub fn opened(alloc: Global, config: Config, me: u8) -> Result<Member<Plain>, Failed>
    ensures { IfOk result IsTested }
{
    if me >= config.nodes {
        return Err(Failed::Condition);
    }
    if 2 * config.resilience as u16 >= config.nodes as u16 {
        return Err(Failed::Condition);
    }
    Ok(new_member(alloc, config, me)?)
}

// The same, where its numbers are in order.
fn new_member(alloc: Global, config: Config, me: u8) -> Result<Member<Plain>, NoMemory>
    requires me { me < config.nodes }
    requires few { 2 * config.resilience < config.nodes }
    ensures { IfOk result IsTested }
{
    Member::new(alloc, config, me)
}

// A message is submitted.
fn submit(
    alloc: Global,
    member: &mut Member<Plain>,
    message: Plain,
) -> Result<Sends<Plain>, NoMemory>
    requires { IsTested member.old }
    ensures { OnOk result (IsTested member.new) }
{
    member.submit(alloc, message)
}

// A packet comes.
fn receive(
    alloc: Global,
    member: &mut Member<Plain>,
    from: u8,
    packet: Packet<Plain>,
) -> Result<Sends<Plain>, NoMemory>
    requires { IsTested member.old }
    ensures { OnOk result (IsTested member.new) }
{
    member.receive(alloc, from, packet)
}

// It applied its entries up to this number.
fn note(alloc: Global, member: &mut Member<Plain>, number: u64) -> Result<Sends<Plain>, Failed>
    requires { IsTested member.old }
    ensures { OnOk result (IsTested member.new) }
{
    if number < member.applied() || member.accepted() < number || number >= 1 << 62 {
        return Err(Failed::Condition);
    }
    Ok(member.note_applied(alloc, number)?)
}

// It coordinates.
fn begin(alloc: Global, member: &mut Member<Plain>) -> Result<Sends<Plain>, Failed>
    requires { IsTested member.old }
    ensures { OnOk result (IsTested member.new) }
{
    if member.promised() >= 1 << 62 {
        return Err(Failed::Condition);
    }
    Ok(coordinate(member, alloc)?)
}

// A tick alone: what is sent, where it isn't due.
fn tick_alone(alloc: Global, member: &mut Member<Plain>) -> Result<Option<Sends<Plain>>, NoMemory>
    requires { IsTested member.old }
    ensures { OnOk result (IsTested member.new) }
{
    match member.timer(alloc)? {
        Timed::Due => Ok(None),
        Timed::Sent { sends } => Ok(Some(sends)),
    }
}

// A tick.
fn tick(alloc: Global, member: &mut Member<Plain>) -> Result<Sends<Plain>, Failed>
    requires { IsTested member.old }
    ensures { OnOk result (IsTested member.new) }
{
    match tick_alone(alloc, member)? {
        None => begin(alloc, member),
        Some(sends) => Ok(sends),
    }
}

// An invitation comes.
fn invite(
    alloc: Global,
    member: &mut Member<Plain>,
    from: u8,
    incarnation: u64,
) -> Result<Sends<Plain>, NoMemory>
    requires { IsTested member.old }
    ensures { OnOk result (IsTested member.new) }
{
    invited(member, alloc, from, incarnation)
}

// An answer comes.
fn answer(
    alloc: Global,
    member: &mut Member<Plain>,
    from: u8,
    join: Join<Plain>,
) -> Result<(Joined, Sends<Plain>), Failed>
    requires { IsTested member.old }
    ensures { OnOk result (IsTested member.new) }
{
    if from >= member.config().nodes {
        return Err(Failed::Condition);
    }
    if !can_join(member, &join) {
        return Err(Failed::Condition);
    }
    Ok(joined(member, alloc, from, join)?)
}

// A Result comes.
fn hear(
    alloc: Global,
    member: &mut Member<Plain>,
    from: u8,
    news: News<Plain>,
) -> Result<Sends<Plain>, Failed>
    requires { IsTested member.old }
    ensures { OnOk result (IsTested member.new) }
{
    if !can_hear(member, &news) {
        return Err(Failed::Condition);
    }
    Ok(announced(member, alloc, from, news)?)
}

// It hears a packet of this incarnation from this member.
fn listen(member: &mut Member<Plain>, from: u8, incarnation: u64)
    requires { IsTested member.old }
    ensures { IsTested member.new }
{
    member.listen(from, incarnation);
}

// Many messages of 40 bytes are submitted; what that sends isn't told.
fn submit_all(
    alloc: Global,
    member: &mut Member<Plain>,
    first: u64,
    last: u64,
) -> Result<(), NoMemory>
    requires { IsTested member.old }
    ensures { OnOk result (IsTested member.new) }
{
    'calls: for call in first..last.saturating_add(1) {
        let _sent = submit(alloc, member, Plain { call, bytes: 40 })?;
    }
    Ok(())
}

// Many entries come; what that sends isn't told.
fn entries(alloc: Global, member: &mut Member<Plain>, first: u64, last: u64) -> Result<(), NoMemory>
    requires { IsTested member.old }
    ensures { OnOk result (IsTested member.new) }
{
    'entries: for number in first..last.saturating_add(1) {
        let entry = Packet::Entry {
            incarnation: 0,
            number,
            accepted: number.saturating_sub(1),
            stable: 0,
            message: Plain {
                call: number,
                bytes: 40,
            },
        };
        let _sent = receive(alloc, member, 0, entry)?;
    }
    Ok(())
}

// What an event sends, of one of the group that is at work.
fn sent_by(alloc: Global, member: &mut Member<Plain>, event: Event) -> Result<Sends<Plain>, Failed>
    requires { IsTested member.old }
    ensures { OnOk result (IsTested member.new) }
{
    match event {
        Event::Submit { message } => Ok(submit(alloc, member, message)?),
        Event::Receive { from, packet } => Ok(receive(alloc, member, from, packet)?),
        Event::Applies { number } => note(alloc, member, number),
        Event::Tick => tick(alloc, member),
        Event::Coordinate => begin(alloc, member),
        Event::Invited { from, incarnation } => Ok(invite(alloc, member, from, incarnation)?),
        Event::Announced { from, news } => hear(alloc, member, from, news),
        Event::SubmitAll { first, last } => {
            submit_all(alloc, member, first, last)?;
            Ok(Vec::new(alloc))
        },
        Event::Entries { first, last } => {
            entries(alloc, member, first, last)?;
            Ok(Vec::new(alloc))
        },
        Event::Listen { from, incarnation } => {
            listen(member, from, incarnation);
            Ok(Vec::new(alloc))
        },
        Event::Joined { .. } => Ok(Vec::new(alloc)),
    }
}

/// What an event sends, and what comes of an answer.
pub fn done_by(alloc: Global, member: &mut Member<Plain>, event: Event) -> Result<Done, Failed>
    requires { IsTested member.old }
    ensures { OnOk result (IsTested member.new) }
{
    match event {
        Event::Joined { from, join } => {
            let done = answer(alloc, member, from, join)?;
            Ok(Done {
                sends: done.1,
                outcome: Some(done.0),
            })
        },
        event => Ok(Done {
            sends: sent_by(alloc, member, event)?,
            outcome: None,
        }),
    }
}
