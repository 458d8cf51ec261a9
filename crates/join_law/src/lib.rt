//! What a member that joins late has, beside every run (docs/RUNTIME.md, A member that joins late).
//!
//! Its packets may be lost, repeated and reordered, and any member may answer at any time: its copies are those after a beginning of the
//! list that the run's members agree on, and so the objects that the book's lines up to there leave (`follows` of `followers_law`). The
//! command `join`, which isn't built, will use `Rounds` and `RoundsUpTo` of specs/: what it is going to do beside a run, and each moment
//! of it. It stands on the law of runs and on `group_join`. No code stands here: its functions are laws. Nothing is said of single
//! objects, nor that packets arrive.
#![tactic(auto)]

ghost use Rattle.join_law.specs.OneCell.{FollowsOneCell};
ghost use Rattle.join_law.specs.Promise.{
  AllFollow,
  AllMayReceive,
  BehindEnds,
  BehindGoesOn,
  BehindStays,
  MomentsAreReached,
  MomentsFollow,
  MomentsGoOn,
  NoneFall,
  ReachedGoesOn,
  ReachedMayReceive,
  RoundEnds,
  RoundsCatchUp,
  RoundsFollow,
  RoundsGoOn,
  RoundsStay,
  MomentsStay,
};

use book_law::{every_call_fits, singles_law};
use group_law::agreement_law;
use group_rules::wire_law;
use value_core::{Message, Processor, Reply};
use world_book::legal_book;
use world_law::group_steps;

/// The law of a member that joins late, for every setting that a run may have, without single objects. A call of this function does
/// nothing.
///
/// - `follows`: after every list of moves, in which steps of the run happen, anything is asked for, any member answers, and packets come
///   again and in any order, the follower's copies are those after the first entries of the agreed list, as many as it applied; its
///   objects are those that the book's lines up to there leave; and each packet that was ever sent tells that list.
/// - `rises`: its applied number never falls.
/// - `rounds`: its copies and objects are so after the command's rounds, from whichever event on and whatever fates their packets have.
/// - `moments`: so they are at each moment of these rounds, also within one, to which there are as many fates as questions.
/// - `catches`: where each packet that was asked about passes, the follower applied in the end at least as much as each living member
///   that isn't outside.
pub fn followers_law<P: Processor>(machine: &P)
    ensures follows { AllFollow (P.performs machine.now) (P.computes machine.now) }
    ensures rises { NoneFall (P.performs machine.now) (P.computes machine.now) }
    ensures rounds { RoundsFollow (P.performs machine.now) (P.computes machine.now) }
    ensures moments { MomentsFollow (P.performs machine.now) (P.computes machine.now) }
    ensures catches { RoundsCatchUp (P.performs machine.now) (P.computes machine.now) }
{
    agreement_law::<Message>();
    group_steps();
    singles_law();
    legal_book(machine);
}

/// A follower may receive each packet that was ever sent, and so each that comes at a moment of the command's rounds: what
/// `Follower::receive` asks is met by the list that the run's members agree on. A call of this function does nothing.
pub fn followers_may_receive<P: Processor>(machine: &P)
    ensures within { ReachedMayReceive (P.performs machine.now) (P.computes machine.now) (P.fits_args machine.now) }
    ensures all { AllMayReceive (P.performs machine.now) (P.computes machine.now) (P.fits_args machine.now) }
{
    agreement_law::<Message>();
    wire_law::<Message, Reply>();
    group_steps();
    singles_law();
    every_call_fits(machine);
    legal_book(machine);
}

/// The moments of the command's rounds, for every run, as a loop goes through them. A call of this function does nothing.
///
/// - `reached`: whatever the rounds reach, also within one round, some moves lead to, and by then each packet that is held back or comes
///   was sent.
/// - `goes`: so it is of the opening; and it stays so at a step of the run, where a round begins, at its Seek, from moment to
///   moment, and at a round's end.
/// - `steps`: a step and its round go behind those beside a run.
/// - `behind`, `behind_ends`: so do rounds behind the run, one after the other; and when all are done.
/// - `answered`, `answered_behind`, `stay`: what the wire answers later changes nothing of what stands, beside the run, behind it and
///   within a round.
/// - `moments`, `ends`: a moment goes behind those within a round; where nothing comes any more, its half is done.
pub fn rounds_law()
    ensures reached { MomentsAreReached }
    ensures goes { ReachedGoesOn }
    ensures steps { RoundsGoOn }
    ensures behind { BehindGoesOn }
    ensures behind_ends { BehindEnds }
    ensures answered { RoundsStay }
    ensures answered_behind { BehindStays }
    ensures stay { MomentsStay }
    ensures moments { MomentsGoOn }
    ensures ends { RoundEnds }
{}

/// A follower beside one cell on three members, whose run the check computes: from the 8th event on, it ends with 3 entries of 3, and
/// with 0 of 3 where all that it sends is lost. Others of its packets are held, come twice, or are cut. A call of this function does nothing.
pub fn one_cell_is_followed()
    ensures { FollowsOneCell }
{}
