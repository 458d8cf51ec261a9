//! Which process computes next.

ghost use Rattle.std.specs.Prelude.{◌≡◌, ◌⊎◌, ◌<◌, ℕ, false, true, IfNone, IfSome};
ghost use Rattle.world_parts.specs.Choosing.{is_ready};
ghost use Rattle.world_parts.specs.Seen.{Of};
ghost use Rattle.world_rules.specs.Standings.{process_count};

use node_parts::OneRun;
use orca_base::{NoMemory, PROCESSES, ProcessNo};
use std::alloc::Global;
use world_core::World;

/// How many bursts each process has computed, by its number.
#[derive(Drop)]
pub(crate) struct Bursts {
    counts: Vec<u32>,
}

impl Bursts {
    /// Before the first: none of any process.
    pub(crate) fn none(alloc: Global) -> Result<Bursts, NoMemory> {
        let mut counts = Vec::new(alloc);
        'processes: for _process in 0..PROCESSES {
            counts.push(0)?;
        }
        Ok(Bursts { counts })
    }

    /// One more of this process.
    pub(crate) fn count(&mut self, process: ProcessNo) {
        if let Some(count) = self.counts.get_mut(process.0 as usize) {
            *count = count.saturating_add(1);
        }
    }

    // How many this process has computed.
    fn of(&self, process: ProcessNo) -> u32 {
        match self.counts.get(process.0 as usize) {
            Some(count) => *count,
            None => 0,
        }
    }
}

/// Of the processes that are ready the one that has computed the fewest bursts; of several one on member 0; of these the lowest.
pub(crate) fn chosen<P: OneRun>(world: &World<P>, bursts: &Bursts) -> Option<ProcessNo>
    ensures ready { IfSome result (λ i. Of P.run.frame world.now (λ w. is_ready P.run.frame world.now w i.0 ≡ true)) }
    ensures none { IfNone result
        (Of P.run.frame world.now (λ w. (i : ℕ) → i < process_count P.run.frame w → is_ready P.run.frame world.now w i ≡ false)) }
{
    let mut found = None;
    'processes: for number in 0..world.process_count() {
        let process = ProcessNo(number);
        if world.is_ready(process) {
            found = Some(first_of(world, bursts, found, process));
        }
    }
    found
}

// The process found so far, or this one of a higher number, where that comes before it.
fn first_of<P: OneRun>(
    world: &World<P>,
    bursts: &Bursts,
    found: Option<ProcessNo>,
    process: ProcessNo,
) -> ProcessNo
    ensures { (found ≡ Some result) ⊎ (result ≡ process) }
{
    match found {
        Some(found) if !comes_before(world, bursts, process, found) => found,
        _ => process,
    }
}

// Whether a process comes before one of a lower number.
fn comes_before<P: OneRun>(
    world: &World<P>,
    bursts: &Bursts,
    process: ProcessNo,
    lower: ProcessNo,
) -> bool {
    let (count, least) = (bursts.of(process), bursts.of(lower));
    count < least || (count == least && world.home_of(process) == 0 && world.home_of(lower) != 0)
}
