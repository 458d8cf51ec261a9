//! A member that joins late.

ghost use Rattle.std.specs.Prelude.{◌≡◌, ◌≢◌, ◌≤◌, ◌<◌, ◌^◌, ◌-◌, ◌↔◌, IfOk, OnOk, OnErr, List, ℕ};
ghost use Rattle.value_core.specs.declared.message.Message.{Message as Ordered};
ghost use Rattle.object_manager.specs.After.{after, opening_copies};
ghost use Rattle.object_manager.specs.Applies.{CopiesBlocked, CopiesFit};
ghost use Rattle.object_manager.specs.State.{IsState};
ghost use Rattle.group_join.specs.Following.{AreAfter, IsGap, MayApply, MayReceive, brings, copies_in, follows};
ghost use Rattle.group_join.specs.declared.follower.Took.TheVariants as took;

use crate::packet::JoinPacket;
use object_manager::{ApplyError, Copies, CopiesState, copies_law};
use orca_base::NoMemory;
use std::alloc::Global;
use std::marker::Model;
use value_core::{Message, Performer};

/// What a follower did with a packet.
#[derive(Clone, Copy, Debug, PartialEq, Eq)]
pub enum Took {
    /// Nothing: it brings no more entries than were applied.
    Stale,
    /// Nothing: it is the entry of this number, and so many entries were applied.
    Gap { number: u64, applied: u64 },
    /// It took the entry, or the state.
    Taken,
}

/// The copies of a member that joins late. It orders nothing, acknowledges nothing and answers no reset.
#[derive(Drop)]
pub struct Follower {
    copies: Copies,
}

impl Model for Follower {
    ghost use Rattle.object_manager.specs.After.{Copied};

    ghost Value = { Copied };

    ghost use Rattle.std.specs.Coded.{codes};
    ghost use Rattle.value_core.specs.Code.{data_code};

    ghost coded = { Prim.hlevel (codes, data_code) };

    ghost view = { λ f. f.copies };
}

impl Follower {
    /// Before the first packet: the opening copies.
    pub fn new(alloc: Global) -> Result<Follower, NoMemory>
        ensures { IfOk result (λ f. f ≡ opening_copies) }
    {
        Ok(Follower {
            copies: Copies::opening(alloc)?,
        })
    }

    /// How many entries it applied.
    pub fn applied(&self) -> u64
        ensures { result ≡ self.now.applied }
    {
        self.copies.applied()
    }

    /// Its copies.
    pub fn copies(&self) -> &Copies
        ensures { result.now ≡ self.now }
    {
        &self.copies
    }

    /// A packet comes. By some list, each of whose entries may be applied in turn and passes no limit, the follower's copies are those
    /// after its first entries, and the packet tells the list: an entry is the list's at its number, a state that after as many of its
    /// entries. By each such list the copies are then again those after its first entries (docs/RUNTIME.md, A member that joins late).
    ///
    /// A packet is stale exactly where it brings no more entries than were applied, and there is a gap exactly where it is an entry behind
    /// the next one. Neither changes anything.
    pub fn receive<P: Performer>(
        &mut self,
        alloc: Global,
        performer: &P,
        packet: JoinPacket,
    ) -> Result<Took, NoMemory>
        requires may { (list : List Ordered) × MayReceive (P.fits_args performer.now) (P.performs performer.now) list self.old packet }
        ensures follows { OnOk result (self.new ≡ follows (P.performs performer.now) self.old packet) }
        ensures after { (list : List Ordered) → MayReceive (P.fits_args performer.now) (P.performs performer.now) list self.old packet →
            AreAfter (P.performs performer.now) list self.new }
        ensures stale { IfOk result (λ t. (t ≡ took.Stale) ↔ (brings packet ≤ self.old.applied)) }
        ensures gap { IfOk result (λ t. (number have : ℕ) → (t ≡ took.Gap number have) ↔ IsGap packet self.old.applied number have) }
        ensures taken { IfOk result (λ t. t ≡ took.Taken → self.new.applied ≡ brings packet) }
        ensures kept { IfOk result (λ t. t ≢ took.Taken → self.new ≡ self.old) }
        ensures rises { self.old.applied ≤ self.new.applied }
        ensures err { OnErr result (self.new ≡ self.old) }
    {
        copies_law(performer);
        let applied = self.copies.applied();
        match packet {
            JoinPacket::Seek { applied: _ } => Ok(Took::Stale),
            JoinPacket::State { state } => {
                if state.applied <= applied {
                    return Ok(Took::Stale);
                }
                self.take_state(alloc, state)?;
                Ok(Took::Taken)
            }
            JoinPacket::Next { number, message } => {
                if number <= applied {
                    return Ok(Took::Stale);
                }
                if number - applied > 1 {
                    return Ok(Took::Gap { number, applied });
                }
                self.take_entry(alloc, performer, &message)?;
                Ok(Took::Taken)
            }
        }
    }

    // The copies that have this state take the place of its own.
    fn take_state(&mut self, alloc: Global, state: CopiesState) -> Result<(), NoMemory>
        requires { IsState state }
        ensures ok { OnOk result (self.new ≡ copies_in state) }
        ensures err { OnErr result (self.new ≡ self.old) }
    {
        self.copies = Copies::from_state(alloc, state)?;
        Ok(())
    }

    // The next entry is applied, which passes no limit.
    fn take_entry<P: Performer>(
        &mut self,
        alloc: Global,
        performer: &P,
        message: &Message,
    ) -> Result<(), NoMemory>
        requires fits { CopiesFit (P.fits_state performer.now) (P.fits_args performer.now) self.old }
        requires blocked { CopiesBlocked (P.performs performer.now) self.old }
        requires may { MayApply (P.fits_args performer.now) (P.performs performer.now) self.old message.now }
        requires room { self.old.applied < 2 ^ 64 - 1 }
        ensures ok { OnOk result (self.new ≡ after (P.performs performer.now) self.old message.now) }
        ensures err { OnErr result (self.new ≡ self.old) }
    {
        match self.copies.apply(alloc, performer, message) {
            Ok(_lines) => Ok(()),
            Err(ApplyError::NoMemory) => Err(NoMemory),
            Err(ApplyError::Limit { .. }) => unreachable!(),
        }
    }
}
