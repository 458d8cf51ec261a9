//! The law of the world: what is true of every run, over the definitions of `world_rules` alone.
//!
//! What stands here is the group's side. Replays are one; each event is a list of the group's events, where what it submits may be
//! submitted, so the law of the group speaks of the world at each moment of an event; numbers stay small, packets are numbered and what
//! travels is sound; members catch up; Asks and Answers are true and come to where they belong; processes are at their homes and go on, at
//! places that don't fall. `runs_hold` has all that as one, from step to step. That the kept book is a history stands above
//! (`world_course`, `world_book`). It stands on `group_law`, and has no code: its functions are laws, whose bodies are empty or call the
//! group's laws.
#![tactic(auto)]

ghost use Rattle.world_law.specs.Acts.{AllActsMeet};
ghost use Rattle.world_law.specs.Answers.{AllAnswers};
ghost use Rattle.world_law.specs.Asks.{AllAsks};
ghost use Rattle.world_law.specs.CaughtUp.{AllCatchUp, AllRoundsEnd};
ghost use Rattle.world_law.specs.Counts.{AllCount, AllMomentsCount};
ghost use Rattle.world_law.specs.Gives.{AllGive};
ghost use Rattle.world_law.specs.Going.{ProcessesGoOn};
ghost use Rattle.world_law.specs.Grouped.{AllGrouped};
ghost use Rattle.world_law.specs.Holds.{AllHold};
ghost use Rattle.world_law.specs.Homes.{AllHome};
ghost use Rattle.world_law.specs.Lists.{AllGrow};
ghost use Rattle.world_law.specs.Moments.{AllMoments};
ghost use Rattle.world_law.specs.Once.{RunsOnce};
ghost use Rattle.world_law.specs.Packets.{AllNumber};
ghost use Rattle.world_law.specs.Places.{AllReach, PlacesNeverFall};
ghost use Rattle.world_law.specs.SoundPackets.{AllLettersSound};
ghost use Rattle.world_law.specs.Turns.{AllByMeaning};

use group_law::{agreement_law, packets_are_sound};
use group_rules::wire_law;
use value_core::{Message, Processor, Reply};

/// A list of steps leads to one world at most, whatever computes the program.
pub fn replay_law<P: Processor>(machine: &P)
    ensures once { RunsOnce (P.computes machine.now) }
{}

/// The world's group, in every run in which what is submitted may be submitted.
///
/// - `events`: each event is a list of the group's events, so the law of the group speaks of the world's group; each member has noted just
///   what its copies applied; what is in flight was sent.
/// - `moments`: so it is at each moment of an event, while a member does its part; and then what members know to be accepted is one list,
///   in which each message stands once, that its process submitted.
/// - `gives`: so each event has, at each of its moments, what a walk through copies and processes needs of the group.
/// - `lists`: the list of the run grows at its end alone, and what a member applied is its beginning.
pub fn group_steps()
    ensures events { AllGrouped }
    ensures moments { AllMoments }
    ensures gives { AllGive }
    ensures lists { AllGrow }
{
    agreement_law::<Message>();
    wire_law::<Message, Reply>();
}

/// In every run each Answer that is in flight, that waits for its place, or that an owner keeps, is of an operation that was performed
/// beside the list, at its place.
pub fn answers_are_true()
    ensures { AllAnswers }
{}

/// In every run processes go on at their members: text and arguments stay, replies and turns only grow.
pub fn processes_go_on()
    ensures { ProcessesGoOn }
{}

/// In every run no process's place falls, where each Answer on its way to a process is an old one, or of the call that the process asks,
/// and then from no lower a place.
pub fn places_never_fall()
    ensures { PlacesNeverFall }
{}

/// In every run each Ask that is in flight, or waits for its place, is of a process that asks this call of an owner, from this place, or
/// that has its reply by now.
pub fn asks_are_true()
    ensures { AllAsks }
{}

/// How great the numbers of a run are.
///
/// - `steps`: in every run whose submissions are allowed there are at most as many submissions as steps, and as many ticks and
///   coordinations of each member; so in a group of at most 16 members, and after at most 4,000,000 steps, all numbers of entries and of
///   incarnations, of members and of what travels, are below 2^62.
/// - `moments`: so it is at each moment of an event, with what the event did so far.
pub fn numbers_stay_small()
    ensures steps { AllCount }
    ensures moments { AllMomentsCount }
{
    agreement_law::<Message>();
    wire_law::<Message, Reply>();
}

/// In every run whose submissions are allowed, packets are numbered: those in flight stand in order, the wires were asked about packets 1,
/// 2 and so on, about each once, and the next number is in flight nowhere. A letter goes from a member to a member, and no process, and no
/// Ask or Answer, has a place beyond what its member applied.
pub fn packets_are_numbered()
    ensures { AllNumber }
{
    agreement_law::<Message>();
    wire_law::<Message, Reply>();
}

/// In every run whose submissions are allowed, what travels is what bytes spell, where the messages that were submitted or are next, and
/// the replies of what was performed beside the list, are sound.
pub fn letters_are_sound()
    ensures { AllLettersSound }
{
    agreement_law::<Message>();
    wire_law::<Message, Reply>();
    packets_are_sound::<Message, Reply>();
}

/// Members catch up.
///
/// - `steps`: after each step no entry is due at a living member, or its next one would pass a limit.
/// - `rounds`: as many rounds as messages wait at its sequencer suffice for that, a round more changes nothing, and so a member may stop
///   once nothing is due.
pub fn members_catch_up()
    ensures steps { AllCatchUp }
    ensures rounds { AllRoundsEnd }
{
    agreement_law::<Message>();
    wire_law::<Message, Reply>();
}

/// In every run the wire in use is the one behind as many exchanges as the run has, each event meets the world of the steps before it, and
/// an act of a wire is passed over just where its event isn't possible.
pub fn acts_meet_runs()
    ensures { AllActsMeet }
{}

/// All that the group's side says of each world of a run, carried from step to step, where what is submitted may be; and processes go on,
/// at places that don't fall.
pub fn runs_hold()
    ensures { AllHold }
{
    agreement_law::<Message>();
    wire_law::<Message, Reply>();
}

/// In every run whose submissions are allowed, each process is at its home: who plays it is the member that its fork named, and no other.
pub fn processes_are_home()
    ensures { AllHome }
{
    agreement_law::<Message>();
    wire_law::<Message, Reply>();
}

/// In every run whose submissions are allowed, each Answer on its way to a process is an old one, or of the call that the process asks, and
/// then from no lower a place; so no process's place falls (`places_never_fall`).
pub fn answers_reach()
    ensures { AllReach }
{
    agreement_law::<Message>();
    wire_law::<Message, Reply>();
}

/// In every run the action at which a process is, is what it does next by its meaning, after its replies; it took no more turns than there
/// may be, and fewer where it doesn't compute; and it is over where it ended or faulted alone.
pub fn processes_stand_by_meaning()
    ensures { AllByMeaning }
{}
