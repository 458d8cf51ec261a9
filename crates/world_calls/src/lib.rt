//! What the calls of a run's members ask is met (docs/RUNTIME.md, The world of a run).
//!
//! `node_rules` says what a member's code is asked at each moment of its part of an event. Here it is shown of each possible event of a run
//! that is going: at each moment the world stands for a course of the book's law (`world_course`), beside a run of the group (`world_law`),
//! and these say the conditions; numbers stay small. It has no code: its function is a law, whose body calls theirs.
#![tactic(auto)]

ghost use Rattle.node_rules.specs.Conditions.{Fitness};
ghost use Rattle.world_calls.specs.Law.{AllBurstsFit, AllPartsFit};

use book_law::every_call_fits;
use group_law::agreement_law;
use group_rules::wire_law;
use value_core::{Message, Processor, Reply};
use world_course::worlds_are_courses;
use world_law::{group_steps, numbers_stay_small, runs_hold};

/// The calls of members in every run of a lawful program, for every setting that a run may have and every list of steps. A call of this
/// function does nothing.
///
/// - `parts`: while a run is going, `EventFits` of `node_rules` holds of each member's part of each possible event, by the machine's
///   predicates: of a process's action, of a letter that comes, of a suspicion, and at a tick of each living member, in the world that the
///   members below it leave.
/// - `bursts`: so does `BurstFits` of each process that computes, on its member's copies as they are now.
pub fn calls_fit<P: Processor>(machine: &P)
    ensures parts { AllPartsFit (P.performs machine.now) (P.computes machine.now)
        (record {
          state = P.fits_state machine.now;
          args = P.fits_args machine.now;
          text = P.fits_text machine.now;
          reply = P.fits_reply machine.now;
        }) }
    ensures bursts { AllBurstsFit (P.performs machine.now) (P.computes machine.now)
        (record {
          state = P.fits_state machine.now;
          args = P.fits_args machine.now;
          text = P.fits_text machine.now;
          reply = P.fits_reply machine.now;
        }) }
{
    agreement_law::<Message>();
    wire_law::<Message, Reply>();
    group_steps();
    numbers_stay_small();
    runs_hold();
    worlds_are_courses(machine);
    every_call_fits(machine);
}
