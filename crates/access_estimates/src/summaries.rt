//! The summary of one function or process: what it does with each of its locals.

ghost use Rattle.std.specs.Prelude.{◌≡◌, ◌<◌, ◌==◌, ℕ, IfOk, if◌then◌else◌, length, map, replicate};
ghost use Rattle.site_estimates.specs.Numbers.{plus};
ghost use Rattle.site_estimates.specs.Numbers as counting;
ghost use Rattle.access_estimates.specs.Resolved.{resolved_counts, tally};
ghost use Rattle.access_estimates.specs.Summaries as rules;

use crate::resolved::{Effect, ResolvedUse};
use crate::routines::Routine;
use orca_base::NoMemory;
use site_estimates::Counts;
use std::alloc::Global;

/// The counts of the local at a position; zero beyond the last.
pub fn counts_in(summary: &[Counts], position: usize) -> Counts
    ensures { result ≡ rules.counts_in summary.now position }
{
    match summary.get(position) {
        None => Counts::zero(),
        Some(counts) => *counts,
    }
}

// The summary of the function or process with this number; an empty one where there is none.
fn summary_at(table: &[Vec<Counts>], number: usize) -> &[Counts]
    ensures { result.now ≡ rules.summary_at (map (λ l. l.items) table.now) number }
{
    match table.get(number) {
        None => &[],
        Some(summary) => summary.as_slice(),
    }
}

// What a use with this effect counts once.
fn effect_counts(table: &[Vec<Counts>], effect: Effect) -> Counts
    ensures { result ≡ rules.effect_by (map (λ l. l.items) table.now) effect }
{
    match effect {
        Effect::Reads => Counts::one_read(),
        Effect::Writes => Counts::one_write(),
        Effect::Passed { number, position } => counts_in(summary_at(table, number), position),
        Effect::Nothing => Counts::zero(),
    }
}

// What a use counts in all.
fn counts_of(table: &[Vec<Counts>], resolved: ResolvedUse) -> Counts
    ensures { result ≡ resolved_counts (rules.by_table (map (λ l. l.items) table.now)) resolved }
{
    effect_counts(table, resolved.effect).times(resolved.times)
}

// Adds to the counts of the local at a position, where there is one.
fn add(summary: &mut Vec<Counts>, position: usize, counts: Counts)
    ensures long { length summary.new.items ≡ length summary.old.items }
    ensures counts { (k : ℕ) → k < length summary.old.items → rules.counts_in summary.new.items k ≡
        (if position == k then plus (rules.counts_in summary.old.items k) counts else rules.counts_in summary.old.items k) }
{
    if position < summary.len() {
        let sum = counts_in(summary, position).plus(counts);
        summary[position] = sum;
    }
}

// Adds what a use counts.
fn add_resolved(summary: &mut Vec<Counts>, table: &[Vec<Counts>], resolved: &ResolvedUse)
    ensures long { length summary.new.items ≡ length summary.old.items }
    ensures counts { (k : ℕ) → k < length summary.old.items → rules.counts_in summary.new.items k ≡
        (if resolved.now.position == k
        then plus (rules.counts_in summary.old.items k) (resolved_counts (rules.by_table (map (λ l. l.items) table.now)) resolved.now)
        else rules.counts_in summary.old.items k) }
{
    let counts = counts_of(table, *resolved);
    add(summary, resolved.position, counts);
}

// Adds what all these uses count.
fn add_all(summary: &mut Vec<Counts>, table: &[Vec<Counts>], resolved: &[ResolvedUse])
    ensures long { length summary.new.items ≡ length summary.old.items }
    ensures counts { (k : ℕ) → k < length summary.old.items → rules.counts_in summary.new.items k ≡
        tally (rules.by_table (map (λ l. l.items) table.now)) k (rules.counts_in summary.old.items k) resolved.now }
{
    'resolved: for one in resolved {
        add_resolved(summary, table, one);
    }
}

// A summary of so many locals with which nothing is done.
fn empty_summary(alloc: Global, length: usize) -> Result<Vec<Counts>, NoMemory>
    ensures { IfOk result (λ v. v.items ≡ replicate length counting.zero) }
{
    let summary = vec![in alloc; Counts::zero(); length]?;
    Ok(summary)
}

/// The summary of a function or a process, where its calls and forks count by this table.
pub fn summary_of(
    alloc: Global,
    routine: &Routine<'_>,
    table: &[Vec<Counts>],
) -> Result<Vec<Counts>, NoMemory>
    ensures { IfOk result (λ v. rules.IsSummary (rules.by_table (map (λ l. l.items) table.now)) routine.now v.items) }
{
    let mut summary = empty_summary(alloc, routine.names.len())?;
    add_all(&mut summary, table, &routine.resolved);
    Ok(summary)
}
