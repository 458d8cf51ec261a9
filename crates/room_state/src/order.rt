//! Which process computes next.

ghost use Rattle.std.specs.Prelude.{◌≡◌, ◌<◌, ℕ, [], IfNone, IfSome, None, OnOk, Some, if◌then◌else◌, length};
ghost use Rattle.orca_base.specs.declared.ids.ProcessNo.{ProcessNo};
ghost use Rattle.world_parts.specs.Seen.{Of};
ghost use Rattle.world_rules.specs.Standings.{process_count};
ghost use Rattle.room_state.specs.Stated.{HasCounted, IsChosen, NoneReady, goes_before, tasks_of};

use node_parts::OneRun;
use orca_base::{NoMemory, ProcessNo};
use std::alloc::Global;
use world_core::World;

/// How many tasks of each process were handed out, by its number: of those behind the end none was. Each is counted up to the greatest
/// number of its type.
#[derive(Drop)]
pub(crate) struct TaskCounts {
    counts: Vec<u32>,
}

impl TaskCounts {
    /// Before the first: none of any process.
    pub(crate) fn none(alloc: Global) -> TaskCounts
        ensures { result.counts.items ≡ [] }
    {
        TaskCounts {
            counts: Vec::new(alloc),
        }
    }

    /// Makes room for this process. No count changes.
    #[tactic(auto, using(crate::proofs::Counting::none_more))]
    pub(crate) fn make_room(&mut self, process: ProcessNo) -> Result<(), NoMemory>
        ensures same { (i : ℕ) → tasks_of self.new.counts.items i ≡ tasks_of self.old.counts.items i }
        ensures room { OnOk result (process.0 < length self.new.counts.items) }
    {
        'counts: for _count in self.counts.len()..process.0 as usize + 1 {
            self.counts.push(0)?;
        }
        Ok(())
    }

    /// One more of this process, for which there is room.
    pub(crate) fn count(&mut self, process: ProcessNo)
        requires { process.0 < length self.old.counts.items }
        ensures { HasCounted process self.old.counts.items self.new.counts.items }
    {
        let count = self.counts[process.0 as usize];
        self.counts[process.0 as usize] = count.saturating_add(1);
    }

    // How many of this process.
    fn of(&self, process: ProcessNo) -> u32
        ensures { result ≡ tasks_of self.now.counts.items process.0 }
    {
        match self.counts.get(process.0 as usize) {
            Some(count) => *count,
            None => 0,
        }
    }
}

/// Of the processes that are ready the one of which the fewest tasks were handed out; of several one on this member; of these the lowest.
pub(crate) fn chosen<P: OneRun>(world: &World<P>, tasks: &TaskCounts, home: u8) -> Option<ProcessNo>
    ensures chosen { IfSome result (λ i. Of P.run.frame world.now
        (λ w. IsChosen P.run.frame world.now w tasks.now.counts.items home (process_count P.run.frame w) i.0)) }
    ensures none { IfNone result (Of P.run.frame world.now (NoneReady P.run.frame world.now)) }
{
    let mut found = None;
    'processes: for number in 0..world.process_count() {
        let process = ProcessNo(number);
        if world.is_ready(process) {
            found = Some(first_of(world, tasks, home, found, process));
        }
    }
    found
}

// The process found so far, or this one of a higher number, where that goes before it.
fn first_of<P: OneRun>(
    world: &World<P>,
    tasks: &TaskCounts,
    home: u8,
    found: Option<ProcessNo>,
    process: ProcessNo,
) -> ProcessNo
    ensures none { found ≡ None → result ≡ process }
    ensures some { (i : ProcessNo) → found ≡ Some i → Of P.run.frame world.now
        (λ w. result ≡ (if goes_before P.run.frame w tasks.now.counts.items home process.0 i.0 then process else i)) }
{
    match found {
        Some(first) => {
            if goes_before(world, tasks, home, process, first) {
                process
            } else {
                first
            }
        }
        None => process,
    }
}

// Whether a process goes before one of a lower number.
fn goes_before<P: OneRun>(
    world: &World<P>,
    tasks: &TaskCounts,
    home: u8,
    process: ProcessNo,
    lower: ProcessNo,
) -> bool
    ensures { Of P.run.frame world.now (λ w. result ≡ goes_before P.run.frame w tasks.now.counts.items home process.0 lower.0) }
{
    let (count, least) = (tasks.of(process), tasks.of(lower));
    let (own, other) = (world.home_of(process), world.home_of(lower));
    count < least || (count == least && (own == home && other != home))
}
