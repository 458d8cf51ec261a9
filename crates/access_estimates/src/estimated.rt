//! The estimates of a process's sites.

ghost use Rattle.std.specs.Prelude.{◌≡◌, ◌++◌, ◌∷◌, ◌&&◌, [], List, OnOk, is_some, map, nat_le};
ghost use Rattle.link_rules.specs.Units.{Source};
ghost use Rattle.estimate_rules.specs.Estimates as rules;
ghost use Rattle.estimate_rules.specs.Routines.{Routine as Rule};
ghost use Rattle.access_estimates.specs.Resolved.{IsRoutine};
ghost use Rattle.access_estimates.specs.Locals.{locals_seen, local_seen};
ghost use Rattle.access_estimates.specs.Summaries.{by_table, site_at, sites_seen};

use crate::locals::Local;
use crate::routines::Routine;
use crate::summaries::{counts_in, summary_of};
use orca_base::{NoMemory, Text};
use site_estimates::{Counts, Estimate};
use std::alloc::Global;

// Puts the estimate of a site behind others.
fn add_site(
    alloc: Global,
    all: &mut Vec<Estimate>,
    process: &str,
    variable: &str,
    counts: Counts,
) -> Result<(), NoMemory>
    ensures { OnOk result (all.new.items ≡ all.old.items
        ++ record { process = process.now; variable = variable.now; reads = counts.reads; writes = counts.writes } ∷ []) }
{
    let process = Text::from_str(alloc, process)?;
    let variable = Text::from_str(alloc, variable)?;
    all.push(Estimate {
        process,
        variable,
        reads: counts.reads,
        writes: counts.writes,
    })?;
    Ok(())
}

// Whether the local at a position is an object variable, where so many parameters stand in front.
fn is_site(parameters: usize, position: usize, local: &Local<'_>) -> bool
    ensures { result ≡ (nat_le parameters position && is_some local.now.object) }
{
    parameters <= position && local.object.is_some()
}

// Puts the estimate of a local behind others, where it is an object variable.
fn add_local(
    alloc: Global,
    all: &mut Vec<Estimate>,
    process: &str,
    parameters: usize,
    summary: &[Counts],
    position: usize,
    local: &Local<'_>,
) -> Result<(), NoMemory>
    ensures { OnOk result (all.new.items ≡ all.old.items ++ site_at process.now parameters summary.now position (local_seen local.now)) }
{
    if is_site(parameters, position, local) {
        add_site(
            alloc,
            all,
            process,
            local.name,
            counts_in(summary, position),
        )?;
    }
    Ok(())
}

// Puts the estimates of a process's sites behind others.
fn add_sites(
    alloc: Global,
    all: &mut Vec<Estimate>,
    process: &str,
    parameters: usize,
    summary: &[Counts],
    names: &[Local<'_>],
) -> Result<(), NoMemory>
    ensures { OnOk result (all.new.items ≡ all.old.items ++ sites_seen process.now parameters summary.now 0 (locals_seen names.now)) }
{
    'names: for (position, local) in names.iter().enumerate() {
        add_local(alloc, all, process, parameters, summary, position, local)?;
    }
    Ok(())
}

/// Puts the estimates of the sites of a process with this name behind others, by a table of summaries.
pub fn add_estimates(
    alloc: Global,
    all: &mut Vec<Estimate>,
    process: &str,
    routine: &Routine<'_>,
    table: &[Vec<Counts>],
) -> Result<(), NoMemory>
    ensures { (us : List Source) (w : Rule) → IsRoutine us routine.now w → OnOk result (all.new.items ≡ all.old.items
        ++ rules.sites_in (by_table (map (λ l. l.items) table.now)) process.now w) }
{
    let summary = summary_of(alloc, routine, table)?;
    add_sites(
        alloc,
        all,
        process,
        routine.parameters,
        &summary,
        &routine.names,
    )
}
