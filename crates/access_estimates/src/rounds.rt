//! Rounds: what each function and process does with each of its locals, by what those do that it calls and forks.

ghost use Rattle.std.specs.Prelude.{◌≡◌, IsTrue, List, IfOk, map};
ghost use Rattle.link_rules.specs.Units.{Source};
ghost use Rattle.estimate_rules.specs.Estimates as estimates;
ghost use Rattle.access_estimates.specs.Summaries.{AreRoutines, IsNext, by_table};

use crate::routines::Routine;
use crate::summaries::summary_of;
use orca_base::NoMemory;
use site_estimates::Counts;
use std::alloc::Global;

// The next summary of what a name of the top level is.
fn next_summary(
    alloc: Global,
    routine: &Option<Routine<'_>>,
    table: &[Vec<Counts>],
) -> Result<Vec<Counts>, NoMemory>
    ensures { IfOk result (λ v. IsNext (by_table (map (λ l. l.items) table.now)) v.items routine.now) }
{
    match routine {
        None => Ok(Vec::new(alloc)),
        Some(routine) => Ok(summary_of(alloc, routine, table)?),
    }
}

// One round.
fn round(
    alloc: Global,
    routines: &[Option<Routine<'_>>],
    table: &[Vec<Counts>],
) -> Result<Vec<Vec<Counts>>, NoMemory>
    ensures { (us : List Source) → AreRoutines us routines.now → IfOk result (λ v.
        by_table (map (λ l. l.items) v.items) ≡ estimates.round us (by_table (map (λ l. l.items) table.now))) }
{
    let mut all = Vec::new(alloc);
    'routines: for routine in routines {
        let summary = next_summary(alloc, routine, table)?;
        all.push(summary)?;
    }
    Ok(all)
}

// Whether two tables have the same counts.
fn same_tables(one: &[Vec<Counts>], other: &[Vec<Counts>]) -> bool
    ensures { IsTrue result → map (λ l. l.items) one.now ≡ map (λ l. l.items) other.now }
{
    one == other
}

/// The summaries after so many rounds, which start at zero. The first round that changes nothing is the last, since all behind it would
/// change nothing either; no clause says so.
pub fn rounds(
    alloc: Global,
    routines: &[Option<Routine<'_>>],
    count: usize,
) -> Result<Vec<Vec<Counts>>, NoMemory>
    ensures { (us : List Source) → AreRoutines us routines.now →
        IfOk result (λ v. by_table (map (λ l. l.items) v.items) ≡ estimates.rounds us count) }
{
    let mut table = Vec::new(alloc);
    'rounds: for done in 0..count {
        let next = round(alloc, routines, &table)?;
        if same_tables(&next, &table) {
            return Ok(next);
        }
        table = next;
    }
    Ok(table)
}
