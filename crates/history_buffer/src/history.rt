//! A window over a list.

ghost use Rattle.std.specs.Prelude.{◌≡◌, ◌+◌, ◌<◌, ◌≤◌, ◌^◌, ◌↔◌, [], length, slice_get, take, IfOk, IfErr, OnOk, IsErr};
ghost use Rattle.circular_buffer.specs.Buffer.{buffer};
ghost use Rattle.history_buffer.specs.Slots.{slot_at, slot_copied};
ghost use Rattle.history_buffer.specs.Window.{last_number, opening_window, purged_to, pushed, window};

use circular_buffer::HeapCircularBuffer;
use orca_base::{Body, Items, NoMemory, WINDOW};
use std::alloc::Global;
use std::marker::Model;

/// The entries of a list behind its first `base`, of which at most `WINDOW` are kept. Entries are numbered from 1.
#[derive(Drop)]
pub struct History<B> {
    base: u64,
    kept: HeapCircularBuffer<B>,
}

impl<B> Model for History<B> {
    ghost use Rattle.std.specs.Prelude.{◌≡◌, ◌≤◌, length};
    ghost use Rattle.orca_base.specs.declared.limits.TheConstants.{WINDOW};
    ghost use Rattle.history_buffer.specs.Window.{Window, window, window_code};

    ghost Value = { Window B };

    ghost coded = { window_code B.code };

    ghost view = { λ h. window h.base h.kept.items };

    ghost invariant = { λ h. (h.kept.capacity ≡ WINDOW) × (length h.kept.items ≤ WINDOW) };
}

/// No room for this entry.
#[derive(Debug, Drop)]
pub struct Full<B> {
    /// The entry that was to be appended.
    pub body: B,
}

/// What a history has at a number.
#[derive(Debug, Drop)]
pub enum Slot<T> {
    /// The entry of this number.
    Found { item: T },
    /// The number is at most the base.
    Purged,
    /// The number is beyond the last entry's.
    NotYet,
}

impl<B> History<B> {
    /// That of an empty list.
    pub fn new(alloc: Global) -> Result<History<B>, NoMemory>
        ensures { IfOk result (λ history. history ≡ opening_window) }
    {
        History::behind(alloc, 0)
    }

    /// That of a list of which so many entries are purged, and no other is there yet.
    pub fn behind(alloc: Global, base: u64) -> Result<History<B>, NoMemory>
        ensures { IfOk result (λ history. history ≡ window base []) }
    {
        Ok(History {
            base,
            kept: HeapCircularBuffer::with_capacity(alloc, WINDOW as usize)?,
        })
    }

    /// How many entries are purged.
    pub fn base(&self) -> u64
        ensures { result ≡ self.now.base }
    {
        self.base
    }

    /// How many entries are kept.
    pub fn kept(&self) -> u32
        ensures kept { result ≡ length self.now.items }
        ensures within { result ≤ WINDOW }
    {
        self.kept.len() as u32
    }

    /// The number of the last entry: how many entries the list has.
    pub fn last(&self) -> u64
        requires { last_number self.now < 2 ^ 64 }
        ensures { result ≡ last_number self.now }
    {
        self.base + self.kept.len() as u64
    }

    /// Appends an entry, or hands it back, exactly where the window is full.
    pub fn push(&mut self, body: B) -> Result<(), Full<B>>
        ensures full { IsErr result ↔ (length self.old.items ≡ WINDOW) }
        ensures ok { OnOk result (self.new ≡ pushed body self.old) }
        ensures err { IfErr result (λ full. (full.body ≡ body) × (self.new ≡ self.old)) }
    {
        match self.kept.try_push_back(body) {
            Ok(()) => Ok(()),
            Err(body) => Err(Full { body }),
        }
    }

    /// The entry of this number, or why it isn't kept.
    pub fn get(&self, number: u64) -> Slot<&B>
        ensures { slot_copied result ≡ slot_at self.now number }
    {
        if number <= self.base {
            return Slot::Purged;
        }
        match self.kept.get((number - self.base - 1) as usize) {
            Some(item) => Slot::Found { item },
            None => Slot::NotYet,
        }
    }
}

impl<B: Drop> History<B> {
    /// The entries up to this number are purged. A number at most the base changes nothing.
    pub fn purge_to(&mut self, number: u64)
        requires { number ≤ last_number self.old }
        ensures { self.new ≡ purged_to number self.old }
    {
        'entries: while self.base < number {
            let _purged = self.kept.pop_front();
            self.base += 1;
        }
    }
}

impl<B: Body> History<B> {
    /// An equal history, with room of its own.
    pub fn copy(&self, alloc: Global) -> Result<History<B>, NoMemory>
        ensures { IfOk result (λ history. history ≡ self.now) }
    {
        let mut copied = History::behind(alloc, self.base)?;
        'entries: for index in 0..self.kept.len() {
            append_copy(alloc, &mut copied.kept, &self.kept, index)?;
        }
        Ok(copied)
    }

    /// The entries that are kept, each copied, as a packet carries them.
    #[tactic(auto, using(crate::proofs::Entries::one_copied))]
    pub fn messages(&self, alloc: Global) -> Result<Items<B>, NoMemory>
        ensures { IfOk result (λ messages. messages ≡ self.now.items) }
    {
        let mut messages = Vec::with_capacity(alloc, self.kept.len())?;
        'entries: for index in 0..self.kept.len() {
            messages.push(copy_at(alloc, &self.kept, index)?)?;
        }
        Ok(Items::new(messages))
    }
}

// A copy of the entry at this place.
fn copy_at<B: Body>(
    alloc: Global,
    kept: &HeapCircularBuffer<B>,
    index: usize,
) -> Result<B, NoMemory>
    requires { index < length kept.now.items }
    ensures { IfOk result (λ body. slice_get kept.now.items index ≡ Some body) }
{
    match kept.get(index) {
        Some(entry) => entry.copy(alloc),
        None => unreachable!(),
    }
}

// Where one list is another's beginning up to a place, it has a copy of the entry at that place too.
fn append_copy<B: Body>(
    alloc: Global,
    copied: &mut HeapCircularBuffer<B>,
    kept: &HeapCircularBuffer<B>,
    index: usize,
) -> Result<(), NoMemory>
    requires place { index < length kept.now.items }
    requires room { index < copied.old.capacity }
    requires begins { copied.old.items ≡ take index kept.now.items }
    ensures { OnOk result (copied.new ≡ buffer (take (index + 1) kept.now.items) copied.old.capacity) }
{
    if let Some(entry) = kept.get(index) {
        copied.push_back(entry.copy(alloc)?);
    }
    Ok(())
}
