//! One event after the other.

ghost use Rattle.std.specs.Prelude.{◌≡◌, ◌⊎◌, ◌+◌, ◌-◌, ◌<◌, ◌≤◌, ◌^◌, ◌++◌, [], if◌then◌else◌, length, vec_capacity, Err, IfOk, OnErr, OnOk};
ghost use Rattle.world_rules.specs.Standings.{standing};
ghost use Rattle.world_rules.specs.Steps.{idle_after};
ghost use Rattle.world_rules.specs.declared.standing.Standing.TheVariants.{Going};
ghost use Rattle.world_parts.specs.Seen.{tasks_out};
ghost use Rattle.world_parts.specs.Standing.{Is, Stands, seen_of};
ghost use Rattle.world_core.specs.Stepping.{IsRefused, KeepsOut, OutBefore, Stepped, is_going};
ghost use Rattle.world_core.specs.Closing.{HasClosed, HasEnded, HasLeft, HasRoomMade, MayEnd, MayLeave, asked_all, sent_all};
ghost use Rattle.world_core.specs.Drafting.{taken};
ghost use Rattle.world_parts.specs.Recorded.{of_pieces};
ghost use Rattle.std.specs.List.{AllByRecursion as Each};

use crate::draft::{Draft, Part};
use crate::events::happens;
use history_buffer::Shared;
use letter_bytes::Outgoing;
use lossy_net::Net;
use net_rules::Fate;
use node_core::Node;
use node_parts::OneRun;
use orca_base::{Items, NoMemory};
use std::alloc::{AllocError, Global};
use thiserror::Error;
use value_core::Message;
use wires::Wire;
use world_parts::{Ledger, Parts, Piece};
use world_rules::{Event, Standing, Step};

/// Why an event wasn't done.
#[derive(Clone, Copy, Debug, PartialEq, Eq, Error)]
pub enum StepError {
    /// It isn't possible here.
    #[error("the event is not possible")]
    NotEnabled,
    /// There was no memory.
    #[error("out of memory")]
    NoMemory,
}

impl From<NoMemory> for StepError {
    ghost use Rattle.world_core.specs.declared.step.StepError.TheVariants.{NoMemory as Without};

    ghost from_gives = { λ _ r. r ≡ Without };

    fn from(_: NoMemory) -> StepError {
        StepError::NoMemory
    }
}

impl From<AllocError> for StepError {
    ghost use Rattle.world_core.specs.declared.step.StepError.TheVariants.{NoMemory as Without};

    ghost from_gives = { λ _ r. r ≡ Without };

    fn from(_: AllocError) -> StepError {
        StepError::NoMemory
    }
}

/// Does an event, which becomes the last step, with the fates that the wire in use gives the packets that it sends, in their order. A
/// Burst ends a task of its process that is out.
///
/// NotEnabled comes exactly where the event isn't possible here: no event is in a run that isn't going. All room is made, the wire's
/// too, before the wire is asked. So after either error the world is as it was, and the wire was asked nothing.
pub(crate) fn step<P: OneRun, W: Wire>(
    parts: &mut Parts<P>,
    alloc: Global,
    machine: &P,
    event: Event,
    wire: &mut W,
) -> Result<(), StepError>
    requires { Stands P.stood P.left P.run.frame parts.old }
    ensures stands { Stands P.stood P.left P.run.frame parts.new }
    ensures done { OnOk result (Stepped P.run.frame event (seen_of parts.old) (seen_of parts.new) (W.told wire.old) (W.told wire.new)) }
    ensures err { OnErr result (seen_of parts.new ≡ seen_of parts.old) }
    ensures unasked { OnErr result (W.told wire.new ≡ W.told wire.old) }
    ensures refused { result ≡ Err StepError.NotEnabled → IsRefused P.run.frame event (seen_of parts.old) }
    ensures enabled { IsRefused P.run.frame event (seen_of parts.old) → (result ≡ Err StepError.NotEnabled) ⊎ (result ≡ Err StepError.NoMemory) }
    ensures tasks { OutBefore (seen_of parts.old) (seen_of parts.new) }
    ensures out { OnOk result (KeepsOut P.run.frame event (seen_of parts.old) (seen_of parts.new)) }
    ensures fewer { tasks_out (seen_of parts.new) ≤ tasks_out (seen_of parts.old) }
    ensures script { W.rule wire.new ≡ W.rule wire.old }
    ensures since { W.loaded wire.new ≡ W.loaded wire.old }
{
    if is_going(parts.standing()) {
        does(parts, alloc, machine, event, wire)
    } else {
        Err(StepError::NotEnabled)
    }
}

/// Whether the run is going.
pub(crate) fn is_going(standing: Standing) -> bool
    ensures { result ≡ is_going standing }
{
    matches!(standing, Standing::Going)
}

// The same in a run that is going.
fn does<P: OneRun, W: Wire>(
    parts: &mut Parts<P>,
    alloc: Global,
    machine: &P,
    event: Event,
    wire: &mut W,
) -> Result<(), StepError>
    requires stands { Stands P.stood P.left P.run.frame parts.old }
    requires going { Is P.stood P.left P.run.frame parts.old (λ w. standing P.run.frame w ≡ Going) }
    ensures stands { Stands P.stood P.left P.run.frame parts.new }
    ensures done { OnOk result (Stepped P.run.frame event (seen_of parts.old) (seen_of parts.new) (W.told wire.old) (W.told wire.new)) }
    ensures err { OnErr result (seen_of parts.new ≡ seen_of parts.old) }
    ensures unasked { OnErr result (W.told wire.new ≡ W.told wire.old) }
    ensures refused { result ≡ Err StepError.NotEnabled → IsRefused P.run.frame event (seen_of parts.old) }
    ensures enabled { IsRefused P.run.frame event (seen_of parts.old) → (result ≡ Err StepError.NotEnabled) ⊎ (result ≡ Err StepError.NoMemory) }
    ensures tasks { OutBefore (seen_of parts.old) (seen_of parts.new) }
    ensures out { OnOk result (KeepsOut P.run.frame event (seen_of parts.old) (seen_of parts.new)) }
    ensures fewer { tasks_out (seen_of parts.new) ≤ tasks_out (seen_of parts.old) }
    ensures script { W.rule wire.new ≡ W.rule wire.old }
    ensures since { W.loaded wire.new ≡ W.loaded wire.old }
{
    let draft = happens(parts, alloc, machine, event)?;
    let fates = make_room(parts, alloc, &draft, wire)?;
    let idle = idle_after(parts, event, draft.has_stirred);
    leave_net(parts, event);
    let fates = close(parts, draft, fates, wire);
    end_tasks(parts, event);
    parts.idle = idle;
    parts.ledger.push_step(Step {
        event,
        fates: Items::new(fates),
    });
    Ok(())
}

// Room for all that the event leaves: for its packets in the network and at the wire, for their fates, and in what is kept, where each
// task that is out has room too. An event that sends 2^32 packets or more finds no memory.
fn make_room<P: OneRun, W: Wire>(
    parts: &mut Parts<P>,
    alloc: Global,
    draft: &Draft<P>,
    wire: &mut W,
) -> Result<Vec<Fate>, NoMemory>
    requires { Stands P.stood P.left P.run.frame parts.old }
    ensures same { HasRoomMade parts.old parts.new }
    ensures few { OnOk result (length draft.now.outgoing.items < 2 ^ 32) }
    ensures net { OnOk result (length draft.now.outgoing.items ≤ parts.new.net.spare) }
    ensures wires { OnOk result (length draft.now.outgoing.items ≤ W.spare wire.new) }
    ensures fates { IfOk result (λ fates. (fates.items ≡ []) × (length draft.now.outgoing.items ≤ vec_capacity fates)) }
    ensures steps { OnOk result (tasks_out (seen_of parts.old) + 1 ≤ parts.new.ledger.step_room) }
    ensures entries { OnOk result (length draft.now.entries.items ≤ parts.new.ledger.entry_room) }
    ensures pieces { OnOk result (tasks_out (seen_of parts.old) + length draft.now.pieces.items ≤ parts.new.ledger.piece_room) }
    ensures told { W.told wire.new ≡ W.told wire.old }
    ensures script { W.rule wire.new ≡ W.rule wire.old }
    ensures since { W.loaded wire.new ≡ W.loaded wire.old }
{
    let Ok(packets) = u32::try_from(draft.outgoing.len()) else {
        return Err(NoMemory);
    };
    let tasks = parts.tasks_out() as usize;
    let fates = Vec::with_capacity(alloc, packets as usize)?;
    parts.net.make_room(packets)?;
    parts
        .ledger
        .make_room(tasks + 1, draft.entries.len(), tasks + draft.pieces.len())?;
    wire.make_room(packets)?;
    Ok(fates)
}

// How many ticks followed each other without a burst, once the event is done.
fn idle_after<P: OneRun>(parts: &Parts<P>, event: Event, has_stirred: bool) -> u64
    requires { parts.now.idle < 2 ^ 63 }
    ensures { result ≡ (if has_stirred then 0 else idle_after event parts.now.idle) }
{
    match event {
        _ if has_stirred => 0,
        Event::Burst { .. } => 0,
        Event::Tick => parts.idle + 1,
        _ => parts.idle,
    }
}

// What the event does to packets in flight, to which members live, and to the wires.
fn leave_net<P: OneRun>(parts: &mut Parts<P>, event: Event)
    requires { MayLeave event parts.old }
    ensures { HasLeft event parts.old parts.new }
{
    match event {
        Event::Deliver { packet, copy } => {
            let _ = parts.net.take(packet, copy);
        },
        Event::Tick => parts.net.tick(),
        Event::Crash { node } => parts.lives[node as usize] = false,
        Event::Swap => parts.swaps += 1,
        Event::Burst { .. } | Event::Act { .. } | Event::Suspect { .. } => {},
    }
}

// A crashed member's tasks are no longer out.
fn end_tasks<P: OneRun>(parts: &mut Parts<P>, event: Event)
    requires { MayEnd event parts.old }
    ensures { HasEnded P.stood P.left event parts.old parts.new }
{
    if let Event::Crash { node } = event {
        parts.nodes[node as usize].recall();
    }
}

// The members that did their parts take their places, what was performed is kept, and the packets are sent: these are their fates. It takes
// no memory.
fn close<P: OneRun, W: Wire>(
    parts: &mut Parts<P>,
    draft: Draft<P>,
    fates: Vec<Fate>,
    wire: &mut W,
) -> Vec<Fate>
    requires members { Each (λ part. part.member < length parts.old.nodes.items) draft.parts.items }
    requires entries { length draft.entries.items ≤ parts.old.ledger.entry_room }
    requires pieces { length draft.pieces.items ≤ parts.old.ledger.piece_room }
    requires net { length draft.outgoing.items ≤ parts.old.net.spare }
    requires wires { length draft.outgoing.items ≤ W.spare wire.old }
    requires fates { (fates.items ≡ []) × (length draft.outgoing.items ≤ vec_capacity fates) }
    requires twins { Each (λ one. one.twin ≡ one.bytes) draft.outgoing.items }
    requires below { Each (λ flight. flight.number ≤ parts.old.sent) parts.old.net.flights }
    requires small { parts.old.sent + length draft.outgoing.items < 2 ^ 63 }
    ensures closed { HasClosed draft parts.old result.items parts.new }
    ensures told { W.told wire.new ≡ W.told wire.old ++ asked_all parts.old.sent draft.outgoing.items result.items }
    ensures script { W.rule wire.new ≡ W.rule wire.old }
    ensures since { W.loaded wire.new ≡ W.loaded wire.old }
{
    let Draft {
        parts: members,
        outgoing,
        entries,
        pieces,
        has_stirred: _,
    } = draft;
    take_places(&mut parts.nodes, members);
    keep_entries(&mut parts.ledger, entries);
    keep_pieces(&mut parts.ledger, pieces);
    let count = outgoing.len() as u64;
    let fates = send_all(&mut parts.net, parts.sent, outgoing, fates, wire);
    parts.sent += count;
    fates
}

// The members that did their parts take their places.
fn take_places<P: OneRun>(nodes: &mut Vec<Node<P>>, members: Vec<Part<P>>)
    requires { Each (λ part. part.member < length nodes.old.items) members.items }
    ensures { nodes.new.items ≡ taken members.items nodes.old.items }
{
    'members: for part in members {
        nodes[part.member as usize] = part.node;
    }
}

// These entries stand behind those of the list. There is room for them.
fn keep_entries(ledger: &mut Ledger, entries: Vec<Shared<Message>>)
    requires { length entries.items ≤ ledger.old.entry_room }
    ensures { ledger.new ≡ record ledger.old {
      entries = ledger.old.entries ++ entries.items;
      entry_room = ledger.old.entry_room - length entries.items;
    } }
{
    'entries: for entry in entries {
        ledger.push_entry(entry);
    }
}

// And what was performed behind that which was. There is room for it.
fn keep_pieces(ledger: &mut Ledger, pieces: Vec<Piece>)
    requires { length pieces.items ≤ ledger.old.piece_room }
    ensures { ledger.new ≡ record ledger.old {
      performed = ledger.old.performed ++ of_pieces pieces.items;
      piece_room = ledger.old.piece_room - length pieces.items;
    } }
{
    'pieces: for piece in pieces {
        ledger.push_piece(piece);
    }
}

// The packets are sent, with the numbers behind this one. The wire is asked of each, and these are their fates.
fn send_all<W: Wire>(
    net: &mut Net,
    sent: u64,
    outgoing: Vec<Outgoing>,
    fates: Vec<Fate>,
    wire: &mut W,
) -> Vec<Fate>
    requires net { length outgoing.items ≤ net.old.spare }
    requires wires { length outgoing.items ≤ W.spare wire.old }
    requires fates { (fates.items ≡ []) × (length outgoing.items ≤ vec_capacity fates) }
    requires twins { Each (λ one. one.twin ≡ one.bytes) outgoing.items }
    requires below { Each (λ flight. flight.number ≤ sent) net.old.flights }
    requires small { sent + length outgoing.items < 2 ^ 63 }
    ensures flights { net.new.flights ≡ sent_all sent outgoing.items result.items net.old.flights }
    ensures count { length result.items ≡ length outgoing.items }
    ensures told { W.told wire.new ≡ W.told wire.old ++ asked_all sent outgoing.items result.items }
    ensures script { W.rule wire.new ≡ W.rule wire.old }
    ensures since { W.loaded wire.new ≡ W.loaded wire.old }
{
    let mut fates = fates;
    let mut number = sent;
    'packets: for one in outgoing {
        number += 1;
        let fate = wire.fate(number, one.kind, one.from, one.to, one.length);
        net.put(number, one.from, one.to, one.bytes, one.twin, fate);
        fates.push_reserved(fate);
    }
    fates
}
