//! What is kept of a run: its steps, the entries of its list, and what was performed.

ghost use Rattle.std.specs.Prelude.{◌≡◌, ◌+◌, ◌-◌, ◌^◌, ◌≤◌, ◌++◌, ◌∷◌, [], length, min, OnErr, OnOk};
ghost use Rattle.world_parts.specs.Recorded.{of_piece, of_pieces};

use book_law::Placed;
use history_buffer::Shared;
use net_rules::Fate;
use orca_base::{Items, NoMemory};
use std::alloc::Global;
use std::marker::Model;
use value_core::{Line, Message};
use world_rules::Step;

/// Performed operations that came together.
#[derive(Drop)]
pub enum Piece {
    /// The lines of an entry, or the reads of a burst: all at one place.
    Lines { place: u64, lines: Items<Line> },
    /// One operation.
    One { placed: Placed },
}

/// The steps of a run; the entries of its list, in their order; and what was performed, in order of events. Clauses see for how many more
/// of each there is room.
#[derive(Drop)]
pub struct Ledger {
    steps: Vec<Step>,
    entries: Vec<Shared<Message>>,
    pieces: Vec<Piece>,
    lines: u64,
    step_room: usize,
    entry_room: usize,
    piece_room: usize,
}

impl Model for Ledger {
    ghost use Rattle.std.specs.Prelude.{◌≡◌, ◌+◌, ◌-◌, ◌^◌, ◌≤◌, length, min, vec_capacity, vec_len};
    ghost use Rattle.std.specs.Coded.{codes};
    ghost use Rattle.value_core.specs.Code.{data_code};
    ghost use Rattle.world_parts.specs.Recorded.{Recorded, of_pieces};

    ghost Value = { Recorded };

    ghost coded = { Prim.hlevel (codes, data_code) };

    ghost view = { λ l. record {
      steps = l.steps.items;
      entries = l.entries.items;
      performed = of_pieces l.pieces.items;
      step_room = l.step_room;
      entry_room = l.entry_room;
      piece_room = l.piece_room;
    } };

    ghost invariant = { λ l. (vec_len l.steps + l.step_room ≤ vec_capacity l.steps)
        × (vec_len l.entries + l.entry_room ≤ vec_capacity l.entries)
        × (vec_len l.pieces + l.piece_room ≤ vec_capacity l.pieces)
        × (l.lines ≡ min (length (of_pieces l.pieces.items)) (2 ^ 64 - 1)) };
}

impl Piece {
    // How many operations it has.
    fn len(&self) -> usize
        ensures { result ≡ length (of_piece self.now) }
    {
        match self {
            Piece::Lines { lines, .. } => lines.len(),
            Piece::One { .. } => 1,
        }
    }
}

impl Ledger {
    /// Nothing yet, and no room.
    pub fn new(alloc: Global) -> Ledger
        ensures { result ≡ record { steps = []; entries = []; performed = []; step_room = 0; entry_room = 0; piece_room = 0 } }
    {
        Ledger {
            steps: Vec::new(alloc),
            entries: Vec::new(alloc),
            pieces: Vec::new(alloc),
            lines: 0,
            step_room: 0,
            entry_room: 0,
            piece_room: 0,
        }
    }

    /// The steps.
    pub fn steps(&self) -> &[Step]
        ensures { result.now ≡ self.now.steps }
    {
        self.steps.as_slice()
    }

    /// The entries of the list.
    pub fn entries(&self) -> &[Shared<Message>]
        ensures { result.now ≡ self.now.entries }
    {
        self.entries.as_slice()
    }

    /// What was performed.
    pub fn pieces(&self) -> &[Piece]
        ensures { of_pieces result.now ≡ self.now.performed }
    {
        self.pieces.as_slice()
    }

    /// How many operations were performed, or the greatest number of 64 bits where there are more.
    pub fn lines(&self) -> u64
        ensures { result ≡ min (length self.now.performed) (2 ^ 64 - 1) }
    {
        self.lines
    }

    /// Makes room for at least so many steps, entries and pieces more. Room that there is stays.
    pub fn make_room(&mut self, steps: usize, entries: usize, pieces: usize) -> Result<(), NoMemory>
        ensures steps { OnOk result (steps ≤ self.new.step_room) }
        ensures entries { OnOk result (entries ≤ self.new.entry_room) }
        ensures pieces { OnOk result (pieces ≤ self.new.piece_room) }
        ensures step_room { self.old.step_room ≤ self.new.step_room }
        ensures piece_room { self.old.piece_room ≤ self.new.piece_room }
        ensures same { self.new ≡ record self.old {
          step_room = self.new.step_room;
          entry_room = self.new.entry_room;
          piece_room = self.new.piece_room;
        } }
    {
        self.steps.reserve(steps.max(self.step_room))?;
        self.step_room = steps.max(self.step_room);
        self.entries.reserve(entries.max(self.entry_room))?;
        self.entry_room = entries.max(self.entry_room);
        self.pieces.reserve(pieces.max(self.piece_room))?;
        self.piece_room = pieces.max(self.piece_room);
        Ok(())
    }

    /// One more step. There is room for it.
    pub fn push_step(&mut self, step: Step)
        requires { 1 ≤ self.old.step_room }
        ensures { self.new ≡ record self.old { steps = self.old.steps ++ step ∷ []; step_room = self.old.step_room - 1 } }
    {
        self.step_room -= 1;
        self.steps.push_reserved(step);
    }

    /// One more entry of the list. There is room for it.
    pub fn push_entry(&mut self, entry: Shared<Message>)
        requires { 1 ≤ self.old.entry_room }
        ensures { self.new ≡ record self.old { entries = self.old.entries ++ entry ∷ []; entry_room = self.old.entry_room - 1 } }
    {
        self.entry_room -= 1;
        self.entries.push_reserved(entry);
    }

    /// What was performed now. There is room for it.
    #[tactic(auto, using(crate::proofs::Keeping::one_more))]
    pub fn push_piece(&mut self, piece: Piece)
        requires { 1 ≤ self.old.piece_room }
        ensures { self.new ≡ record self.old { performed = self.old.performed ++ of_piece piece; piece_room = self.old.piece_room - 1 } }
    {
        self.piece_room -= 1;
        self.lines = self.lines.saturating_add(piece.len() as u64);
        self.pieces.push_reserved(piece);
    }

    /// The fates of an event that sends nothing.
    pub fn no_fates(&self) -> Vec<Fate>
        ensures { result.items ≡ [] }
    {
        Vec::new(*self.steps.allocator())
    }

    /// The steps, and what was performed, given away.
    pub fn into_parts(self) -> (Vec<Step>, Vec<Piece>)
        ensures steps { result.0.items ≡ self.steps }
        ensures performed { of_pieces result.1.items ≡ self.performed }
    {
        (self.steps, self.pieces)
    }
}
