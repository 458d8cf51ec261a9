//! How many events are enough for a run that is over (docs/EVENTS.md, The bound).

use crate::ends::{Process, Standing};
use crate::outcome::Left;
use orca_base::BURST_TURNS;

// How many processes are at an action, and the turns of all.
#[derive(Clone, Copy)]
struct Work {
    waiting: u64,
    turns: u64,
}

/// The bound of a run: 6 N (L + 1) + 4 C + T / 10,000 + P. L is taken as the most entries that a member applied, which it is where the run
/// is over and each member lives.
pub fn bound(left: &Left) -> u64 {
    let members = left.members.len() as u64;
    let processes = left.processes.len() as u64;
    let mut entries = 0u64;
    for member in &left.members {
        entries = entries.max(member.applied);
    }
    let Work { waiting, turns } = work_of(&left.processes);
    let calls = waiting.saturating_add(left.tally.book as u64);
    let deliveries = members
        .saturating_mul(6)
        .saturating_mul(entries.saturating_add(1));
    deliveries
        .saturating_add(calls.saturating_mul(4))
        .saturating_add(turns / u64::from(BURST_TURNS))
        .saturating_add(processes)
}

/// Whether a run had no more events than its bound.
pub fn is_enough(left: &Left) -> bool {
    left.tally.events.all as u64 <= bound(left)
}

// What the processes are at, and took.
fn work_of(processes: &[Process]) -> Work {
    let mut work = Work {
        waiting: 0,
        turns: 0,
    };
    for process in processes {
        work.turns = work.turns.saturating_add(process.turns);
        if matches!(process.standing, Standing::Waits) {
            work.waiting = work.waiting.saturating_add(1);
        }
    }
    work
}
