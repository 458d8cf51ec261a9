//! Facts of the world of a run that follow from its definitions alone (docs/RUNTIME.md, The world of a run).
//!
//! They are what a reader of a world asks first: which lines of the book a member's number covers, what each standing says of members and
//! processes, which events are possible, what is counted, what a step leaves as it is, and where members and processes stand at the end.
//! They rest on `world_rules` and on the definitions of `book_law`. Nothing of the group's law or of the book's is used, so nothing is
//! said here of what entries do to processes that wait for them. It has no code: its functions are laws, whose bodies are empty.
#![tactic(auto)]

ghost use Rattle.world_facts.specs.Counted.{AllCounted, StepsLeave};
ghost use Rattle.world_facts.specs.Ends.{AllEndsStand, EndsMean, FinishedRunsEnd};
ghost use Rattle.world_facts.specs.Passing.{IsTestOfPassing};
ghost use Rattle.world_facts.specs.Places.{AllPlaced, FrontsOfBooks, WorkedPlaces};
ghost use Rattle.world_facts.specs.Possible.{StepsMay};
ghost use Rattle.world_facts.specs.Processes.{AllBegin, AllStand, HomesAreMembers};
ghost use Rattle.world_facts.specs.Rows.{AllRead};
ghost use Rattle.world_facts.specs.TooManyCrashes.{TooManyCrashes};
ghost use Rattle.world_facts.specs.WorkedEnds.{PremisesMet, WorkedEnds};

use value_core::Processor;

/// The book by places, of every world.
///
/// - `fronts`: whatever list, and whatever stands beside it, the book is what it is up to a place and what stands behind that.
/// - `placed`: so it is of a world's book; its lines up to a place are those that were performed there or before, and each line has one
///   place.
/// - `worked`: a worked run's book, cut at a place, which the check computes.
pub fn book_by_places()
    ensures fronts { FrontsOfBooks }
    ensures placed { AllPlaced }
    ensures worked { WorkedPlaces }
{}

/// What each standing of a run says of its members and processes, of every world.
pub fn standings_mean()
    ensures { AllRead }
{}

/// A step is an event that is possible, with as many fates as packets. No event is possible in a run that isn't going.
pub fn steps_may()
    ensures { StepsMay }
{}

/// What is counted, and what stays.
///
/// - `counted`: after a run's steps the world has counted its steps, swaps and packets; wires were asked of each packet once.
/// - `leaves`: a step leaves crashed members as they are, and makes one crash only by its Crash; what was performed beside the list, and
///   what wires were asked, grow at the end alone.
pub fn worlds_count()
    ensures counted { AllCounted }
    ensures leaves { StepsLeave }
{}

/// Processes at their members, in every run, whatever the group did.
///
/// - `homes`: each process is on a member, in whatever world.
/// - `begins`: whatever entries there are, process 0 is the first that they begin, a longer list begins with the same processes, and there
///   are as many as copies count after these entries.
/// - `stands`: copies count no more processes than there may be, and a member knows no process beyond those; a process takes no more turns
///   than it may; one that isn't computing is at what it does next, and is over exactly where that is its end or a fault; and a read that
///   waits is blocked.
pub fn processes_stand()
    ensures homes { HomesAreMembers }
    ensures begins { AllBegin }
    ensures stands { AllStand }
{}

/// Where members and processes stand at the end.
///
/// - `all`: there is one end of each member and of each process, in whatever world; who is busy is on a living member, and whose member
///   crashed on a crashed one. Where the run stands at Faulted some process has faulted, and where it is Blocked one of a living member
///   waits for a reply.
/// - `finished`: at the end of a run that has finished each process of a living member has ended.
/// - `worked`: the ends of worked worlds, which the check computes.
pub fn ends_stand()
    ensures all { AllEndsStand }
    ensures finished { FinishedRunsEnd }
    ensures worked { WorkedEnds }
{}

/// In every run of a lawful program, where a process stands at the end is what it does next after the replies that it received: it ended,
/// or faulted so, or waits for the reply to that action. It rests on the laws of the trait alone. A call of this function does nothing.
pub fn ends_mean<P: Processor>(machine: &P)
    ensures { EndsMean (P.computes machine.now) }
{}

/// What the law of runs asks of a run can be met together: it is, by the run of one cell.
pub fn premises_met()
    ensures { PremisesMet }
{}

/// Two of three members crash, where one may be lost, while a packet is held: after 200 idle ticks there is no group, and after one less
/// the run goes on. 205 steps, which the check computes.
pub fn too_many_crashes()
    ensures { TooManyCrashes }
{}

/// Fates that pass whatever packet they come to: the test of them holds of just those that pass at every length of a packet.
pub fn fates_pass()
    ensures { IsTestOfPassing }
{}
