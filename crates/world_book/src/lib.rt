//! The book of every run is legal (docs/RUNTIME.md, The world of a run).
//!
//! It joins the two sides of the law of the world: what the group gives in each event (`world_law`), and that each step is a chain of
//! events of the book's law (`world_course`). It shows that a process at an action may submit it. It has no code: its function is a
//! law, whose body calls theirs. Nothing is said here of whether a run ends.
#![tactic(auto)]

ghost use Rattle.world_book.specs.Following.{RunsFollow};
ghost use Rattle.world_book.specs.Holding.{RunsGoOn, RunsHold};
ghost use Rattle.world_book.specs.Promise.{ReplaysAreOne, RunsAreKept, RunsEndStuck};
ghost use Rattle.world_book.specs.Sounding.{RunsSound};
ghost use Rattle.world_book.specs.Submitting.{ProcessesMaySubmit};

use book_law::{every_call_fits, stuck_law};
use group_law::agreement_law;
use value_core::{Message, Processor};
use world_course::worlds_are_courses;
use world_facts::processes_stand;
use world_law::{group_steps, letters_are_sound, numbers_stay_small, replay_law, runs_hold};

/// The law of every run, for every setting that a run may have and every list of steps. A call of this function does nothing.
///
/// - `kept`: the kept book is a history of the program; each process's replies are the book's up to what its member applied, but for one
///   of a call on a single object that is on its way, and the whole book has one more at most; and each member's copies of replicated
///   objects are what the book up to there leaves of them, and of each single object that it owns and whose make it applied it keeps
///   what the whole book leaves. But for its single objects its copies, with their queue, are those of the list, and so are the objects
///   at each earlier place.
/// - `follows`: each world follows a course of the book's law, whose list is the world's, by each test that agrees with its choices of
///   single objects.
/// - `stuck`: where a member applied the whole list, a process whose call is suspended on its copies is stuck in the book, and so is
///   one here that waits with a read; whose call is suspended on a single object is stuck at any moment. So where the run is over, each
///   process of a living member is stuck that hasn't ended or faulted.
/// - `may`: a process at an action that wasn't carried out may submit it, so that `group_steps` of `world_law` speaks of each of these
///   runs.
/// - `holds`: so all that the group's side says where what is submitted may be submitted, holds of each world of a run: packets are
///   numbered, numbers small, members caught up, processes at home, Asks and Answers true, and no place beyond what a member applied.
/// - `goes`: and in each step of a run processes go on, at places that don't fall, and what a burst sees at a place that its member
///   applied stays what it is.
/// - `sound`: what was submitted, what a process is about to ask, what was performed beside the list, each line of the book, and
///   what travels, is sound.
/// - `once`: a list of steps leads to one world at most.
pub fn legal_book<P: Processor>(machine: &P)
    ensures kept { RunsAreKept (P.performs machine.now) (P.computes machine.now) }
    ensures follows { RunsFollow (P.performs machine.now) (P.computes machine.now) }
    ensures stuck { RunsEndStuck (P.performs machine.now) (P.computes machine.now) }
    ensures may { ProcessesMaySubmit (P.performs machine.now) (P.computes machine.now) }
    ensures holds { RunsHold (P.performs machine.now) (P.computes machine.now) }
    ensures goes { RunsGoOn (P.performs machine.now) (P.computes machine.now) }
    ensures sound { RunsSound (P.performs machine.now) (P.computes machine.now) }
    ensures once { ReplaysAreOne (P.computes machine.now) }
{
    agreement_law::<Message>();
    group_steps();
    runs_hold();
    letters_are_sound();
    numbers_stay_small();
    processes_stand();
    worlds_are_courses(machine);
    every_call_fits(machine);
    replay_law(machine);
    stuck_law(machine);
}
