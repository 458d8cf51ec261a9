//! What a run in code is kept by: laws of runs beside those of the book (docs/proofs/world.md, What a run in code is kept by).
//!
//! Each speaks of a replayed world, so that whoever keeps such a world has their premises. It has no code: its functions are laws, whose
//! bodies are empty or call the laws below.
#![tactic(auto)]

ghost use Rattle.node_rules.specs.Conditions.{Fitness};
ghost use Rattle.run_law.specs.Earlier.{AllApplyAgain, AllBurstsFit};
ghost use Rattle.run_law.specs.Growing.{EventsGrow};
ghost use Rattle.run_law.specs.Limits.{AllStopBefore};
ghost use Rattle.run_law.specs.Parts.{AllFitApart, AllTicksApart, InAllParts};
ghost use Rattle.run_law.specs.Replies.{RepliesByLines, RepliesOffBooks};
ghost use Rattle.run_law.specs.Sending.{SendsOwn};
ghost use Rattle.run_law.specs.Spent.{AllSpentBusy};

use group_law::agreement_law;
use group_rules::wire_law;
use value_core::{Message, Processor, Reply};
use world_book::legal_book;
use world_calls::calls_fit;
use world_facts::standings_mean;
use world_law::{group_steps, numbers_stay_small};

/// In each possible event of a run each letter that a member sends in its part is from that member. A call of this function does nothing.
pub fn letters_are_own<P: Processor>(machine: &P)
    ensures { InAllParts (P.performs machine.now) (P.computes machine.now) SendsOwn }
{
    agreement_law::<Message>();
    wire_law::<Message, Reply>();
    legal_book(machine);
}

/// At a tick each living member does its part from where it stood before, whatever the members before it did. So it is in every world.
pub fn ticks_are_apart()
    ensures { AllTicksApart }
{}

/// While a run is going, what is asked of each member's part of a possible event is met at that member as it stood before, also at a tick.
/// A call of this function does nothing.
pub fn parts_fit_apart<P: Processor>(machine: &P)
    ensures { AllFitApart (P.performs machine.now) (P.computes machine.now)
        (record {
          state = P.fits_state machine.now;
          args = P.fits_args machine.now;
          text = P.fits_text machine.now;
          reply = P.fits_reply machine.now;
        }) }
{
    calls_fit(machine);
}

/// In every run the limit that stops a living member is told by the entry before which it stands: of objects before a make, of processes
/// before a fork, and before no other entry it stops. A call of this function does nothing.
pub fn limits_stop<P: Processor>(machine: &P)
    ensures { AllStopBefore (P.performs machine.now) (P.computes machine.now) }
{
    agreement_law::<Message>();
    legal_book(machine);
}

/// What is so of the list of a run and of what was performed, while it is going. A call of this function does nothing.
///
/// - `grow`: what each possible event adds. The list grows at its end, and each member's entries begin it. A member's part tells just the
///   lines that the list has of the entries that it applied in it, and what it performs beside the list has no place beyond them. So what was
///   performed grows at its end: the lines of the entries that are new to the list, and what is new beside it, put behind what was performed
///   before, are what was performed then.
/// - `again`: the first entries of each member may be applied to opening copies again, by the single objects that it knows, and pass no
///   limit.
/// - `earlier`: of each process that computes, `BurstFits` of `node_rules` holds on what its member's objects were at each place from the
///   process's own on, up to what its member applied.
/// - `spent`: a process that computes with all the turns that there may be is busy with these, whether the run is going or not.
pub fn run_law<P: Processor>(machine: &P)
    ensures grow { EventsGrow (P.performs machine.now) (P.computes machine.now) }
    ensures again { AllApplyAgain (P.performs machine.now) (P.computes machine.now)
        (record {
          state = P.fits_state machine.now;
          args = P.fits_args machine.now;
          text = P.fits_text machine.now;
          reply = P.fits_reply machine.now;
        }) }
    ensures earlier { AllBurstsFit (P.performs machine.now) (P.computes machine.now)
        (record {
          state = P.fits_state machine.now;
          args = P.fits_args machine.now;
          text = P.fits_text machine.now;
          reply = P.fits_reply machine.now;
        }) }
    ensures spent { AllSpentBusy (P.performs machine.now) (P.computes machine.now) }
{
    agreement_law::<Message>();
    wire_law::<Message, Reply>();
    group_steps();
    numbers_stay_small();
    standings_mean();
    legal_book(machine);
}

/// Replies off the book. A call of this function does nothing.
///
/// - `lines`: in a history a process's replies are those of its lines, in their order.
/// - `books`: so what a process has received in a run are the first of the replies of its lines in the book.
pub fn replies_stand<P: Processor>(machine: &P)
    ensures lines { RepliesByLines (P.performs machine.now) (P.computes machine.now) }
    ensures books { RepliesOffBooks (P.performs machine.now) (P.computes machine.now) }
{
    legal_book(machine);
}
