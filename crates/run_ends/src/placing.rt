//! Where the lines of the book were performed.

ghost use Rattle.std.specs.Prelude.{◌≡◌, ◌||◌, ◌<◌, IfOk, OnOk, is_some};
ghost use Rattle.value_core.specs.History.{object_at};
ghost use Rattle.value_core.specs.declared.action.Line.{Line as LineOf};
ghost use Rattle.world_parts.specs.Standing.{Is, Stands};
ghost use Rattle.world_places.specs.Told.{calls_such, has_number, note_by, note_told, some_keeps};
ghost use Rattle.world_rules.specs.Worlds.{places};
ghost use Rattle.run_ends.specs.Telling.{IsInOrder, ListsCalls, has};

use crate::telling::in_order;
use book_law::Placed;
use history_buffer::Shared;
use node_parts::OneRun;
use orca_base::{Body, NoMemory, ObjectId};
use std::alloc::Global;
use std::collections::BTreeSet;
use value_core::{Action, Line, Message};
use world_parts::Parts;
use world_rules::PlaceNote;

// Calls, by their processes and their numbers there.
type Calls = BTreeSet<(u16, u64)>;

/// Where the lines of the book were performed, one place for each line, in their order.
pub fn places<P: OneRun>(parts: &Parts<P>, alloc: Global) -> Result<Vec<PlaceNote>, NoMemory>
    requires { Stands P.stood P.left P.run.frame parts.now }
    ensures { Is P.stood P.left P.run.frame parts.now (λ w. IfOk result (λ notes. notes.items ≡ places P.run.frame w)) }
{
    let performed = in_order(parts, alloc)?;
    notes_of(parts, alloc, performed.as_slice())
}

/// Where these operations were performed, which stand in the order of the book.
pub(crate) fn notes_of<P: OneRun>(
    parts: &Parts<P>,
    alloc: Global,
    performed: &[Placed],
) -> Result<Vec<PlaceNote>, NoMemory>
    requires stands { Stands P.stood P.left P.run.frame parts.now }
    requires order { IsInOrder P.stood P.left P.run.frame parts.now performed.now }
    ensures { Is P.stood P.left P.run.frame parts.now (λ w. IfOk result (λ notes. notes.items ≡ places P.run.frame w)) }
{
    let listed = calls_of(alloc, parts.ledger.entries())?;
    let mut notes = Vec::new(alloc);
    'performed: for placed in performed {
        notes.push(note_of(parts, &listed, placed))?;
    }
    Ok(notes)
}

// Where an operation was performed.
fn note_of<P: OneRun>(parts: &Parts<P>, listed: &Calls, placed: &Placed) -> PlaceNote
    requires stands { Stands P.stood P.left P.run.frame parts.now }
    requires listed { ListsCalls parts.now.ledger.entries listed.now }
    ensures { Is P.stood P.left P.run.frame parts.now (λ w. result ≡ note_told P.run.frame w placed.now) }
{
    let is_single = calls_single(parts, &placed.line.action);
    let is_listed = has(listed, &placed.line);
    note_by(is_single, is_listed, placed.place)
}

// A call on a single object was performed on its copy, a line of a message of the list at its entry, and any other is a read.
fn note_by(is_single: bool, is_listed: bool, number: u64) -> PlaceNote
    ensures { result ≡ note_by is_single is_listed number }
{
    if is_single {
        PlaceNote::Single { number }
    } else if is_listed {
        PlaceNote::Entry { number }
    } else {
        PlaceNote::Read { number }
    }
}

// Whether the action is a call on an object that some member keeps as a single one.
fn calls_single<P: OneRun>(parts: &Parts<P>, action: &Action) -> bool
    requires { Stands P.stood P.left P.run.frame parts.now }
    ensures { Is P.stood P.left P.run.frame parts.now (λ w. result ≡ calls_such (some_keeps P.run.frame w) action.now) }
{
    match action {
        Action::Call { object, .. } => some_keeps(parts, *object),
        Action::Make { .. } | Action::Fork { .. } | Action::Ended | Action::Faulted { .. } => false,
    }
}

// Whether some member keeps the object as a single one.
fn some_keeps<P: OneRun>(parts: &Parts<P>, object: ObjectId) -> bool
    requires { Stands P.stood P.left P.run.frame parts.now }
    ensures { Is P.stood P.left P.run.frame parts.now (λ w. result ≡ some_keeps P.run.frame w object) }
{
    'members: for member in 0..parts.numbers.nodes {
        if keeps(parts, member, object) {
            return true;
        }
    }
    false
}

// Whether this member does.
fn keeps<P: OneRun>(parts: &Parts<P>, member: u8, object: ObjectId) -> bool
    requires stands { Stands P.stood P.left P.run.frame parts.now }
    requires within { member < P.run.frame.settings.nodes }
    ensures { Is P.stood P.left P.run.frame parts.now (λ w. result ≡ is_some (object_at (w.nodes member).copies.own object)) }
{
    let node = parts.member_of(member);
    node.copies().own().get(object).is_some()
}

// The calls that these entries are of.
fn calls_of(alloc: Global, entries: &[Shared<Message>]) -> Result<Calls, NoMemory>
    ensures { IfOk result (ListsCalls entries.now) }
{
    let mut calls = BTreeSet::new(alloc);
    'entries: for entry in entries {
        add(&mut calls, entry.message())?;
    }
    Ok(calls)
}

// Adds the call that a message is of.
fn add(calls: &mut Calls, message: &Message) -> Result<(), NoMemory>
    ensures { OnOk result ((line : LineOf) → has calls.new line ≡ (has_number message.now line || has calls.old line)) }
{
    let name = message.id();
    calls.insert((name.process.0, name.call.0))?;
    Ok(())
}

// Whether the line's call is among these.
fn has(calls: &Calls, line: &Line) -> bool
    ensures { result ≡ has calls.now line.now }
{
    calls.contains(&(line.process.0, line.call.0))
}
