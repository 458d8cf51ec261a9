//! Enough events, the world's half: how many events are enough where each packet comes once, whole and unheld, and no member fails
//! (docs/EVENTS.md).
//!
//! A run is faultless where each packet's fate is Pass, or a Hold for no ticks, no member crashes or is suspected, no wire is exchanged,
//! and of the packets that are ready the first is delivered; actions and bursts may come in any order. Its group is then what a list of
//! the group's moves leads to, and the letters in flight are what that list has on its way; beside them fly Asks and Answers, at most two
//! for each call. All of it is of lawful programs, with single objects and without, by settings that a run may have. It has no code: its
//! functions are laws, whose bodies are empty or call the laws below.
#![tactic(auto)]

ghost use Rattle.std.specs.Prelude.{◌≡◌, length};
ghost use Rattle.world_enough.specs.Bound.{
  EventsAreEnough,
  EventsAreEnoughWithSingles,
  FaultlessRunsDeliver,
  FaultlessRunsGoWell,
  FaultlessRunsNeedNoMore,
  FaultlessRunsWork,
  bound,
  bound_with_singles,
};
ghost use Rattle.world_enough.specs.Faultless.{LeadsFaultless, delivered, worked};
ghost use Rattle.world_enough.specs.Numbered.{FaultsAreNumbered};
ghost use Rattle.world_enough.specs.OneOwner.{owner_end, owner_steps};
ghost use Rattle.world_enough.specs.Paid.{FaultlessRunsPay};
ghost use Rattle.world_enough.specs.Tie.{FaultlessRunsHaveGroup, FaultlessRunsNeedNoTick};
ghost use Rattle.value_core.specs.declared.action.Action.TheVariants as action;
ghost use Rattle.world_rules.specs.OneCell.{one_cell, one_cell_end, one_cell_steps};
ghost use Rattle.world_rules.specs.Played.Stage.{Over, Submitted};
ghost use Rattle.world_rules.specs.ProcessSteps.{with_stage};
ghost use Rattle.world_rules.specs.Programs.{assign};
ghost use Rattle.world_rules.specs.SingleCopies.{single_cell};
ghost use Rattle.world_rules.specs.Worlds.{opening_world};

use book_law::book_law;
use group_bound::enough_events;
use group_law::agreement_law;
use group_rules::wire_law;
use run_law::replies_stand;
use value_core::{Message, Processor, Reply};
use world_book::legal_book;
use world_facts::{processes_stand, standings_mean};
use world_law::{group_steps, members_catch_up, processes_are_home};

/// No tick comes in a faultless run, and its group is what a list of the group's moves leads to; beside that list's letters at most two
/// packets for each call were delivered, its Ask and its Answer, and none where no object is single; and a quiet moment at which no limit
/// is passed is the run's end. A call of this function does nothing.
pub fn faultless_runs_need_no_tick<P: Processor>(machine: &P)
    ensures { FaultlessRunsNeedNoTick (P.performs machine.now) (P.computes machine.now) }
{
    agreement_law::<Message>();
    wire_law::<Message, Reply>();
    book_law();
    group_steps();
    members_catch_up();
    processes_are_home();
    standings_mean();
    processes_stand();
    legal_book(machine);
    enough_events::<Message>();
}

/// The bursts and acts of a faultless run are paid by what processes have done, in turns, but for one more where a process that
/// computes has no turns left. A call of this function does nothing.
pub fn faultless_runs_pay<P: Processor>(machine: &P)
    ensures { FaultlessRunsPay (P.performs machine.now) (P.computes machine.now) }
{
    agreement_law::<Message>();
    wire_law::<Message, Reply>();
    group_steps();
    processes_are_home();
    standings_mean();
    processes_stand();
    legal_book(machine);
    faultless_runs_need_no_tick(machine);
}

/// A faultless run never lacks a group. A call of this function does nothing.
pub fn faultless_runs_have_group<P: Processor>(machine: &P)
    ensures { FaultlessRunsHaveGroup (P.performs machine.now) (P.computes machine.now) }
{
    standings_mean();
    enough_events::<Message>();
    faultless_runs_need_no_tick(machine);
}

/// At every moment of a faultless run at most so many packets were delivered: 6 N (L + 1), with N members and L entries in the sequencer's
/// log, and two for each call, or none where no object is single. A call of this function does nothing.
pub fn faultless_runs_deliver<P: Processor>(machine: &P)
    ensures { FaultlessRunsDeliver (P.performs machine.now) (P.computes machine.now) }
{
    agreement_law::<Message>();
    wire_law::<Message, Reply>();
    group_steps();
    processes_are_home();
    standings_mean();
    processes_stand();
    legal_book(machine);
    replies_stand(machine);
    enough_events::<Message>();
    faultless_runs_need_no_tick(machine);
}

/// There are at most two bursts and acts for each line of the book and each process at an action, one for each process, and one for each
/// 10,000 turns; and one more where a process has no turns left. A call of this function does nothing.
pub fn faultless_runs_work<P: Processor>(machine: &P)
    ensures { FaultlessRunsWork (P.performs machine.now) (P.computes machine.now) }
{
    agreement_law::<Message>();
    wire_law::<Message, Reply>();
    group_steps();
    processes_are_home();
    standings_mean();
    processes_stand();
    legal_book(machine);
    replies_stand(machine);
    faultless_runs_pay(machine);
}

/// So a faultless run has no more events than these deliveries, bursts and acts. A call of this function does nothing.
pub fn faultless_runs_need_no_more<P: Processor>(machine: &P)
    ensures { FaultlessRunsNeedNoMore (P.performs machine.now) (P.computes machine.now) }
{
    faultless_runs_need_no_tick(machine);
    faultless_runs_deliver(machine);
    faultless_runs_work(machine);
}

/// A faultless run goes well: no tick, no member lost, no more events than its bound, but for one where it is out of turns or at a limit;
/// it has a group; and where more events were stated than its bound it isn't out of events. In the bound stand two events for each call,
/// and two more where objects may be single. A call of this function does nothing.
pub fn faultless_runs_go_well<P: Processor>(machine: &P)
    ensures { FaultlessRunsGoWell (P.performs machine.now) (P.computes machine.now) }
{
    agreement_law::<Message>();
    wire_law::<Message, Reply>();
    group_steps();
    processes_are_home();
    standings_mean();
    processes_stand();
    legal_book(machine);
    faultless_runs_need_no_tick(machine);
    faultless_runs_have_group(machine);
    faultless_runs_need_no_more(machine);
}

/// In every run without single objects in which of the packets that are ready the first comes: without a fault it goes well; and where it
/// is out of events it had as many as were stated, and some fate was neither Pass nor a Hold for no ticks, or a member crashed or was
/// suspected, or a wire was exchanged, or the events stated are no more than its bound. A call of this function does nothing.
pub fn events_are_enough<P: Processor>(machine: &P)
    ensures { EventsAreEnough (P.performs machine.now) (P.computes machine.now) }
{
    standings_mean();
    faultless_runs_go_well(machine);
}

/// So it is with single objects, by the bound that has an Ask and an Answer for each call. A call of this function does nothing.
pub fn events_are_enough_with_singles<P: Processor>(machine: &P)
    ensures { EventsAreEnoughWithSingles (P.performs machine.now) (P.computes machine.now) }
{
    standings_mean();
    faultless_runs_go_well(machine);
}

/// Steps are faulty exactly where their last fault has a number, as idle stretches count faults. A call of this function does nothing.
pub fn faults_are_numbered()
    ensures { FaultsAreNumbered }
{}

/// The worked run of one cell on three members, of which one acknowledges, is faultless, and 81 events are its bound. Two more are it
/// where its process took 25,000 turns, and where that waits at an action; and 89 are it where objects may be single.
pub fn one_cell_is_bounded()
    ensures faultless { LeadsFaultless one_cell (opening_world one_cell) one_cell_steps one_cell_end }
    ensures events { length one_cell_steps ≡ 22 }
    ensures packets { delivered one_cell_steps ≡ 15 }
    ensures works { worked one_cell_steps ≡ 7 }
    ensures bound { bound one_cell one_cell_end ≡ 81 }
    ensures turns { bound one_cell (with_stage 25000 (Over action.Ended)) ≡ 83 }
    ensures waits { bound one_cell (with_stage 0 (Submitted (assign 6))) ≡ 83 }
    ensures singles { bound_with_singles one_cell one_cell_end ≡ 89 }
{}

/// The worked run of a cell that is single, on two members, is faultless: it has 14 events, of which 4 are packets and the others bursts
/// and acts, and 54 are its bound.
pub fn one_owner_is_bounded()
    ensures faultless { LeadsFaultless single_cell (opening_world single_cell) owner_steps owner_end }
    ensures events { length owner_steps ≡ 14 }
    ensures packets { delivered owner_steps ≡ 4 }
    ensures works { worked owner_steps ≡ 10 }
    ensures bound { bound_with_singles single_cell owner_end ≡ 54 }
{}
