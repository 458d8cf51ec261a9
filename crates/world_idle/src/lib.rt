//! Idle stretches of a run, the world's half: after faults have ended, only so many ticks pass in a row without progress (docs/EVENTS.md).
//!
//! A fault is a crash, a suspicion, an exchange of the wire, or a packet whose fate is neither Pass nor a Hold for no ticks. Behind the
//! last fault of a run, and behind the ticks for which packets are then still held, an idle stretch is a list of steps none of which
//! changes the promised, installed, accepted or applied number of any member. How many stretches follow, so how long a run takes to end,
//! isn't bounded. It is of lawful programs, with single objects and without. It has no code: its functions are laws, whose bodies are empty
//! or call the laws below.
#![tactic(auto)]

ghost use Rattle.world_idle.specs.Counting.{IdleTicksAreCounted};
ghost use Rattle.world_idle.specs.Stretches.{IdleStretchesAreShort, IdleStretchesAreShorter};
ghost use Rattle.world_idle.specs.Worked.{GrowingLogs, HeldTicks, SixTicks};

use book_law::book_law;
use group_idle::idle_stretches_are_short;
use group_law::agreement_law;
use value_core::{Message, Processor};
use world_book::legal_book;
use world_facts::{processes_stand, standings_mean};
use world_law::{group_steps, members_catch_up, processes_are_home};

/// After the last fault of a run of a lawful program with at most r crashes, and after the ticks for which packets are then still held,
/// where no member is outside at its end, each idle stretch has only so many ticks. A call of this function does nothing.
///
/// - `short`: at most N + 8.
/// - `shorter`: even N + 6.
pub fn stretches_are_short<P: Processor>(machine: &P)
    ensures short { IdleStretchesAreShort (P.performs machine.now) (P.computes machine.now) }
    ensures shorter { IdleStretchesAreShorter (P.performs machine.now) (P.computes machine.now) }
{
    agreement_law::<Message>();
    book_law();
    group_steps();
    members_catch_up();
    processes_are_home();
    standings_mean();
    processes_stand();
    legal_book(machine);
    idle_stretches_are_short::<Message>();
}

/// The ticks that a world counts as idle are those at the end of the run that leads to it, since the last step in which a process computed,
/// a member applied an entry or installed an incarnation, or an operation was performed beside the list of entries. A call of this function
/// does nothing.
pub fn idle_ticks_are_counted()
    ensures { IdleTicksAreCounted }
{}

/// Runs on three members, of which one may be lost: in the first two the sequencer crashes while it alone knows that an entry is accepted,
/// and in the third the member that acknowledges crashes.
///
/// - `six`: six ticks are an idle stretch, and at the seventh a member coordinates.
/// - `held`: where two packets are held behind the crash, for one tick and for two, the stretch begins two ticks later.
/// - `grown`: a stretch in which a log grows is idle.
pub fn worked_stretches()
    ensures six { SixTicks }
    ensures held { HeldTicks }
    ensures grown { GrowingLogs }
{}
