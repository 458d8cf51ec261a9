//! What an event leaves, before it is done: made beside the world, so that the world is as it was where memory lacks.

ghost use Rattle.std.specs.Prelude.{◌≡◌, ◌<◌, ◌+◌, ◌-◌, ◌^◌, ◌++◌, ◌∷◌, [], ◌||◌, ◌&&◌, ◌==◌, not, All, false, nat_lt, if◌then◌else◌, length, OnOk};
ghost use Rattle.book_law.specs.Performed.{placed};
ghost use Rattle.group_packets.specs.Sound.{IsSoundPacket};
ghost use Rattle.value_core.specs.Sound.{IsSoundMessage, IsSoundReply};
ghost use Rattle.world_parts.specs.Recorded.{of_piece, of_pieces};
ghost use Rattle.world_core.specs.Drafting.{HasAdded, HasSpelled, behind, lines_behind};

use book_law::Placed;
use group_member::Letter;
use history_buffer::Shared;
use letter_bytes::{Outgoing, write_letter};
use node_core::{CheckedIn, Node};
use node_parts::{Moved, OneRun};
use orca_base::{Items, NoMemory};
use std::alloc::Global;
use value_core::{Line, Message};
use world_parts::Piece;

/// A member that did its part.
#[derive(Drop)]
pub(crate) struct Part<P: OneRun> {
    pub(crate) member: u8,
    pub(crate) node: Node<P>,
}

/// What an event leaves: the members that did their parts, the packets that they sent, the entries that are new to the run, what was
/// performed, and whether a member's applied number or installed incarnation changed or an operation was performed beside the list.
#[derive(Drop)]
pub(crate) struct Draft<P: OneRun> {
    pub(crate) parts: Vec<Part<P>>,
    pub(crate) outgoing: Vec<Outgoing>,
    pub(crate) entries: Vec<Shared<Message>>,
    pub(crate) pieces: Vec<Piece>,
    pub(crate) has_stirred: bool,
}

impl<P: OneRun> Draft<P> {
    /// Nothing yet.
    pub(crate) fn nothing(alloc: Global) -> Draft<P>
        ensures parts { result.parts.items ≡ [] }
        ensures outgoing { result.outgoing.items ≡ [] }
        ensures entries { result.entries.items ≡ [] }
        ensures pieces { result.pieces.items ≡ [] }
        ensures stirred { result.has_stirred ≡ false }
    {
        Draft {
            parts: Vec::new(alloc),
            outgoing: Vec::new(alloc),
            entries: Vec::new(alloc),
            pieces: Vec::new(alloc),
            has_stirred: false,
        }
    }

    /// A member did its part, in a run whose list has so many entries.
    pub(crate) fn add_part(
        &mut self,
        alloc: Global,
        listed: u64,
        before: &Node<P>,
        after: Node<P>,
        moved: Moved,
    ) -> Result<(), NoMemory>
        requires sound { All (λ letter. IsSoundPacket IsSoundMessage IsSoundReply letter.packet) moved.sends.items }
        requires told { length moved.entries.items ≡ length moved.messages.items }
        requires small { before.now.copies.applied + length moved.messages.items < 2 ^ 63 }
        requires few { listed + length self.old.entries.items < 2 ^ 63 }
        ensures { OnOk result (HasAdded listed before.now after moved self.old self.new) }
    {
        let member = before.member().me();
        let has_moved = either(has_stirred(before, &after), !moved.aside.is_empty());
        let stirred = either(self.has_stirred, has_moved);
        self.has_stirred = stirred;
        let Moved {
            sends,
            entries,
            messages,
            aside,
        } = moved;
        spell_all(alloc, member, sends.as_slice(), &mut self.outgoing)?;
        let known = listed + self.entries.len() as u64;
        let applied = before.copies().applied();
        keep_messages(known, applied, messages, &mut self.entries)?;
        keep_lines(known, applied, entries, &mut self.pieces)?;
        keep_aside(aside, &mut self.pieces)?;
        let part = Part {
            member,
            node: after,
        };
        self.parts.push(part)?;
        Ok(())
    }

    /// A process's burst was computed.
    pub(crate) fn add_burst(
        &mut self,
        member: u8,
        after: Node<P>,
        burst: CheckedIn,
    ) -> Result<(), NoMemory>
        ensures parts { OnOk result (self.new.parts.items ≡ self.old.parts.items ++ record { member = member; node = after } ∷ []) }
        ensures outgoing { self.new.outgoing.items ≡ self.old.outgoing.items }
        ensures entries { self.new.entries.items ≡ self.old.entries.items }
        ensures pieces { OnOk result (of_pieces self.new.pieces.items ≡ of_pieces self.old.pieces.items ++ placed burst.place burst.reads.items) }
        ensures stirred { OnOk result (self.new.has_stirred ≡ (self.old.has_stirred || not (length burst.reads.items == 0))) }
    {
        let has_read = !burst.reads.is_empty();
        self.has_stirred = self.has_stirred || has_read;
        self.pieces.push(reads_of(burst))?;
        let part = Part {
            member,
            node: after,
        };
        self.parts.push(part)?;
        Ok(())
    }
}

/// The reads of a burst.
pub(crate) fn reads_of(burst: CheckedIn) -> Piece
    ensures { of_piece result ≡ placed burst.place burst.reads.items }
{
    Piece::Lines {
        place: burst.place,
        lines: Items::new(burst.reads),
    }
}

// These letters in bytes, behind those that were there.
fn spell_all(
    alloc: Global,
    from: u8,
    letters: &[Letter<Shared<Message>>],
    outgoing: &mut Vec<Outgoing>,
) -> Result<(), NoMemory>
    requires { All (λ letter. IsSoundPacket IsSoundMessage IsSoundReply letter.packet) letters.now }
    ensures { OnOk result (HasSpelled from letters.now outgoing.old.items outgoing.new.items) }
{
    'letters: for letter in letters {
        let one = write_letter(alloc, from, letter)?;
        outgoing.push(one)?;
    }
    Ok(())
}

// Of these messages, of which the first stands behind so many entries, those that stand behind `known` are kept.
fn keep_messages(
    known: u64,
    applied: u64,
    messages: Vec<Shared<Message>>,
    entries: &mut Vec<Shared<Message>>,
) -> Result<(), NoMemory>
    requires { applied + length messages.items < 2 ^ 63 }
    ensures { OnOk result (entries.new.items ≡ entries.old.items ++ behind known applied messages.items) }
{
    let mut place = applied;
    'messages: for message in messages {
        place += 1;
        keep_message(known, place, message, entries)?;
    }
    Ok(())
}

// The message at this place is kept where that is behind `known`.
fn keep_message(
    known: u64,
    place: u64,
    message: Shared<Message>,
    entries: &mut Vec<Shared<Message>>,
) -> Result<(), NoMemory>
    ensures { OnOk result (entries.new.items ≡ entries.old.items ++ (if nat_lt known place then message ∷ [] else [])) }
{
    if place > known {
        entries.push(message)?;
    }
    Ok(())
}

// So are their lines.
fn keep_lines(
    known: u64,
    applied: u64,
    all: Vec<Items<Line>>,
    pieces: &mut Vec<Piece>,
) -> Result<(), NoMemory>
    requires { applied + length all.items < 2 ^ 63 }
    ensures { OnOk result (of_pieces pieces.new.items ≡ of_pieces pieces.old.items ++ lines_behind known applied all.items) }
{
    let mut place = applied;
    'entries: for lines in all {
        place += 1;
        keep_entry(known, place, lines, pieces)?;
    }
    Ok(())
}

// The lines at this place are kept where that is behind `known`.
fn keep_entry(
    known: u64,
    place: u64,
    lines: Items<Line>,
    pieces: &mut Vec<Piece>,
) -> Result<(), NoMemory>
    ensures { OnOk result (of_pieces pieces.new.items ≡ of_pieces pieces.old.items ++ (if nat_lt known place then placed place lines else [])) }
{
    if place > known {
        pieces.push(Piece::Lines { place, lines })?;
    }
    Ok(())
}

// And all that stands beside the list.
fn keep_aside(aside: Vec<Placed>, pieces: &mut Vec<Piece>) -> Result<(), NoMemory>
    ensures { OnOk result (of_pieces pieces.new.items ≡ of_pieces pieces.old.items ++ aside.items) }
{
    'aside: for placed in aside {
        pieces.push(Piece::One { placed })?;
    }
    Ok(())
}

// Whether one of the two is so.
fn either(one: bool, other: bool) -> bool
    ensures { result ≡ (one || other) }
{
    one || other
}

// Whether the member applied an entry or installed an incarnation.
fn has_stirred<P: OneRun>(before: &Node<P>, after: &Node<P>) -> bool
    ensures { result ≡ not ((before.now.member.applied == after.now.member.applied) && (before.now.member.installed == after.now.member.installed)) }
{
    before.member().applied() != after.member().applied()
        || before.member().installed() != after.member().installed()
}
