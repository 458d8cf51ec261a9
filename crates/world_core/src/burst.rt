//! Processes that compute outside.

ghost use Rattle.std.specs.Prelude.{◌≡◌, ◌+◌, ◌==◌, ◌∷◌, [], true, not, length, IfErr, IfOk, OnErr, OnOk};
ghost use Rattle.book_law.specs.Performed.{placed};
ghost use Rattle.node_core.specs.CheckingIn.{MayHandOut};
ghost use Rattle.node_core.specs.Stands.{fitness_of};
ghost use Rattle.world_core.specs.Bursting.{HasRunOn};
ghost use Rattle.world_parts.specs.Recorded.{of_pieces};
ghost use Rattle.world_rules.specs.Standings.{standing};
ghost use Rattle.world_rules.specs.declared.standing.Standing.TheVariants.{Going};
ghost use Rattle.world_core.specs.Recalling.{AreRecalled};
ghost use Rattle.world_core.specs.Stepping.{ChecksIn, HandsOutOf, HasComputed, IsAstray};
ghost use Rattle.world_parts.specs.Choosing.{is_ready};
ghost use Rattle.world_parts.specs.Seen.{tasks_out};
ghost use Rattle.world_parts.specs.Standing.{Is, Stands, seen_of};

use crate::draft::{Draft, reads_of};
use crate::events::budget;
use crate::step::is_going;
use node_core::{CheckedIn, Done, Node, Stray, Task};
use node_parts::OneRun;
use object_manager::View;
use orca_base::{Items, NoMemory, ProcessNo};
use std::alloc::Global;
use world_calls::calls_fit;
use world_parts::Parts;
use world_rules::{Event, Step};

/// A burst that was done on a copy of its member: that member after it, the burst, and the turns that its process took in all.
#[derive(Drop)]
pub(crate) struct Ran<P: OneRun> {
    pub(crate) node: Node<P>,
    pub(crate) burst: CheckedIn,
    pub(crate) turns: u64,
}

/// Does a burst of the process on this view, with this budget, on a copy of its member.
pub(crate) fn run_on<P: OneRun>(
    alloc: Global,
    machine: &P,
    before: &Node<P>,
    process: ProcessNo,
    view: View,
    budget: u32,
) -> Result<Ran<P>, NoMemory>
    requires { MayHandOut P.stood P.left P.run.frame
        (fitness_of (P.fits_state machine.now) (P.fits_args machine.now) (P.fits_text machine.now) (P.fits_reply machine.now))
        process view budget before.now }
    ensures { IfOk result (HasRunOn P.stood P.left P.run.frame process view before.now) }
{
    let mut node = before.copy(alloc)?;
    let (burst, turns) = node.burst_on(alloc, machine, process, &view, budget)?;
    Ok(Ran { node, burst, turns })
}

/// What such a burst leaves.
pub(crate) fn with_burst<P: OneRun>(
    alloc: Global,
    member: u8,
    ran: Ran<P>,
) -> Result<Draft<P>, NoMemory>
    ensures parts { IfOk result (λ draft. draft.parts.items ≡ record { member = member; node = ran.node } ∷ []) }
    ensures outgoing { IfOk result (λ draft. draft.outgoing.items ≡ []) }
    ensures entries { IfOk result (λ draft. draft.entries.items ≡ []) }
    ensures pieces { IfOk result (λ draft. of_pieces draft.pieces.items ≡ placed ran.burst.place ran.burst.reads.items) }
    ensures stirred { IfOk result (λ draft. draft.has_stirred ≡ not (length ran.burst.reads.items == 0)) }
{
    let mut draft = Draft::nothing(alloc);
    draft.add_burst(member, ran.node, ran.burst)?;
    Ok(draft)
}

/// Hands out a process that is ready, in a run that is going, with its member's view. It is no event. It makes the room that the
/// check-in takes.
///
/// Where there is no memory, the world is as it was.
pub(crate) fn check_out<P: OneRun>(
    parts: &mut Parts<P>,
    alloc: Global,
    machine: &P,
    process: ProcessNo,
) -> Result<Task<P>, NoMemory>
    requires stands { Stands P.stood P.left P.run.frame parts.old }
    requires going { Is P.stood P.left P.run.frame parts.old (λ w. standing P.run.frame w ≡ Going) }
    requires ready { Is P.stood P.left P.run.frame parts.old (λ w. is_ready P.run.frame (seen_of parts.old) w process.0 ≡ true) }
    ensures stands { Stands P.stood P.left P.run.frame parts.new }
    ensures steps { parts.new.ledger.steps ≡ parts.old.ledger.steps }
    ensures out { IfOk result (λ task. HandsOutOf P.run.frame process task (seen_of parts.old) (seen_of parts.new)) }
    ensures more { OnOk result (tasks_out (seen_of parts.new) ≡ tasks_out (seen_of parts.old) + 1) }
    ensures err { OnErr result (seen_of parts.new ≡ seen_of parts.old) }
{
    calls_fit(machine);
    let home = parts.home_of(process) as usize;
    let turns = parts.turns_of(process);
    let tasks = parts.tasks_out() as usize + 1;
    parts.ledger.make_room(tasks, 0, tasks)?;
    let budget = budget(parts, turns);
    let task = parts.nodes[home].check_out(alloc, machine, process, budget)?;
    Ok(task)
}

/// Does the Burst event of what was computed from a task, which becomes the last step. It takes no memory.
///
/// Stray comes exactly where the run isn't going, no task of that process is out, or its state or its view isn't what was handed out.
/// The world is then as it was.
pub(crate) fn check_in<P: OneRun>(parts: &mut Parts<P>, done: Done<P>) -> Result<(), Stray<P>>
    requires { Stands P.stood P.left P.run.frame parts.old }
    ensures stands { Stands P.stood P.left P.run.frame parts.new }
    ensures done { OnOk result (ChecksIn P.run.frame done (seen_of parts.old) (seen_of parts.new)) }
    ensures fewer { OnOk result (tasks_out (seen_of parts.new) + 1 ≡ tasks_out (seen_of parts.old)) }
    ensures astray { IfErr result (λ stray. IsAstray P.run.frame done stray.done (seen_of parts.old)) }
    ensures err { OnErr result (seen_of parts.new ≡ seen_of parts.old) }
{
    if !is_going(parts.standing()) {
        return Err(Stray { done });
    }
    let process = done.process();
    let home = parts.home_of(process) as usize;
    let before = parts.turns_of(process);
    let after = done.turns();
    let burst = parts.nodes[home].check_in(done)?;
    let event = Event::Burst {
        process,
        place: burst.place,
        turns: (after - before) as u32,
    };
    parts.ledger.push_piece(reads_of(burst));
    parts.idle = 0;
    let fates = Items::new(parts.ledger.no_fates());
    parts.ledger.push_step(Step { event, fates });
    Ok(())
}

/// Lets a process that is ready, in a run that is going, compute on its member's copies as they are, and does the Burst event of that, which
/// becomes the last step. Tasks that are out stay so.
///
/// All room is made first, and the member changes once the burst is computed: where there is no memory, the world is as it was.
pub(crate) fn compute<P: OneRun>(
    parts: &mut Parts<P>,
    alloc: Global,
    machine: &P,
    process: ProcessNo,
) -> Result<(), NoMemory>
    requires stands { Stands P.stood P.left P.run.frame parts.old }
    requires going { Is P.stood P.left P.run.frame parts.old (λ w. standing P.run.frame w ≡ Going) }
    requires ready { Is P.stood P.left P.run.frame parts.old (λ w. is_ready P.run.frame (seen_of parts.old) w process.0 ≡ true) }
    ensures stands { Stands P.stood P.left P.run.frame parts.new }
    ensures done { OnOk result (HasComputed P.run.frame process (seen_of parts.old) (seen_of parts.new)) }
    ensures out { (seen_of parts.new).out ≡ (seen_of parts.old).out }
    ensures tasks { tasks_out (seen_of parts.new) ≡ tasks_out (seen_of parts.old) }
    ensures err { OnErr result (seen_of parts.new ≡ seen_of parts.old) }
{
    calls_fit(machine);
    let home = parts.home_of(process) as usize;
    let start = parts.turns_of(process);
    let tasks = parts.tasks_out() as usize + 1;
    parts.ledger.make_room(tasks, 0, tasks)?;
    let budget = budget(parts, start);
    let (burst, turns) = parts.nodes[home].burst(alloc, machine, process, budget)?;
    let event = Event::Burst {
        process,
        place: burst.place,
        turns: (turns - start) as u32,
    };
    parts.ledger.push_piece(reads_of(burst));
    parts.idle = 0;
    let fates = Items::new(parts.ledger.no_fates());
    parts.ledger.push_step(Step { event, fates });
    Ok(())
}

/// Ends every task that is out. Those processes are ready again, and nothing else changes. It takes no memory.
pub(crate) fn recall<P: OneRun>(parts: &mut Parts<P>)
    requires { Stands P.stood P.left P.run.frame parts.old }
    ensures stands { Stands P.stood P.left P.run.frame parts.new }
    ensures steps { parts.new.ledger.steps ≡ parts.old.ledger.steps }
    ensures out { tasks_out (seen_of parts.new) ≡ 0 }
{
    recall_all(&mut parts.nodes);
}

// No task is out any more at any member.
fn recall_all<P: OneRun>(nodes: &mut Vec<Node<P>>)
    ensures { AreRecalled P.stood P.left nodes.old.items nodes.new.items }
{
    'members: for at in 0..nodes.len() {
        nodes[at].recall();
    }
}
