//! The options that `clap` found.

ghost use Rattle.std.specs.Prelude.{◌≡◌, ◌≤◌, map, option_map, option_and_then, IfOk, IfSome, codes};
ghost use Rattle.clap.specs.Words.{first_of, found_of, rows_of};
ghost use Rattle.command_line.specs.Numbers.{number_of};
ghost use Rattle.command_line.specs.Asked as asked;

use crate::numbers::{number, within};
use crate::request::{GroupSize, JoinOptions, MakeOptions, RunOptions};
use clap::ArgMatches;
use orca_base::{EVENTS, NODES, NoMemory, RESILIENCE, TURNS, WORKERS};
use std::alloc::Global;

/// The packets of each kind that `make` can have lost: its script has a line for each.
pub const PACKETS_LOST: u8 = 100;

/// The text of this argument.
pub fn text<'a>(matches: &ArgMatches<'a>, id: &str) -> Option<&'a str>
    ensures { option_map (λ s. s.now) result ≡ first_of id.now (rows_of (found_of matches.now)) }
{
    matches.get_str(id)
}

// The number of this argument, where it is one in the range.
fn number_at(matches: &ArgMatches, id: &str, least: u64, most: u64) -> Option<u64>
    ensures is { result ≡ asked.number_at id.now least most (rows_of (found_of matches.now)) }
    ensures range { IfSome result (λ n. (least ≤ n) × (n ≤ most)) }
{
    match text(matches, id) {
        Some(text) => within(text, least, most),
        None => None,
    }
}

// The same, where the range is one of small numbers.
fn small_at(matches: &ArgMatches, id: &str, least: u8, most: u8) -> Option<u8>
    ensures is { result ≡ asked.number_at id.now least most (rows_of (found_of matches.now)) }
    ensures range { IfSome result (λ n. (least ≤ n) × (n ≤ most)) }
{
    match number_at(matches, id, u64::from(least), u64::from(most)) {
        Some(number) => Some(number as u8),
        None => None,
    }
}

// Whether this flag is among the words.
fn is_set(matches: &ArgMatches, id: &str) -> bool
    ensures { result ≡ asked.is_set id.now (rows_of (found_of matches.now)) }
{
    match text(matches, id) {
        Some(text) => text == "true",
        None => false,
    }
}

/// The files, in the order of the words.
pub fn files<'a>(alloc: Global, matches: &ArgMatches<'a>) -> Result<Vec<&'a str>, NoMemory>
    ensures { IfOk result (λ v. map (λ s. s.now) v.items ≡ asked.files_of (rows_of (found_of matches.now))) }
{
    match matches.get_strs("file") {
        Some(files) => Ok(Vec::from_slice(alloc, files)?),
        None => Ok(Vec::new(alloc)),
    }
}

/// The number of members.
pub fn nodes(matches: &ArgMatches) -> Option<u8>
    ensures is { result ≡ asked.nodes_of (rows_of (found_of matches.now)) }
    ensures range { IfSome result (asked.IsUpTo NODES) }
{
    small_at(matches, "nodes", 1, NODES)
}

// The group, where twice as many members as may crash are fewer than the members.
fn group(matches: &ArgMatches) -> Option<GroupSize>
    ensures is { result ≡ asked.group_of (rows_of (found_of matches.now)) }
    ensures range { IfSome result (asked.IsGroup) }
{
    let nodes = nodes(matches)?;
    let resilience = small_at(matches, "resilience", 0, RESILIENCE)?;
    if u64::from(resilience) * 2 < u64::from(nodes) {
        Some(GroupSize { nodes, resilience })
    } else {
        None
    }
}

// The number of worker threads.
fn workers(matches: &ArgMatches) -> Option<u8>
    ensures is { result ≡ asked.workers_of (rows_of (found_of matches.now)) }
    ensures range { IfSome result (asked.IsUpTo WORKERS) }
{
    small_at(matches, "workers", 1, WORKERS)
}

/// Whether the source is asked for, too.
pub fn asks_source(matches: &ArgMatches) -> bool
    ensures { result ≡ asked.is_set (codes "source") (rows_of (found_of matches.now)) }
{
    is_set(matches, "source")
}

/// The options of `run`.
pub fn run_options(matches: &ArgMatches) -> Option<RunOptions>
    ensures is { result ≡ asked.run_options_of (rows_of (found_of matches.now)) }
    ensures range { IfSome result (asked.IsRunWithin) }
{
    Some(RunOptions {
        group: group(matches)?,
        workers: workers(matches)?,
        turns: number_at(matches, "turns", 1, TURNS)?,
        events: number_at(matches, "events", 1, EVENTS)?,
        history: is_set(matches, "history"),
        explain: is_set(matches, "explain"),
    })
}

/// The options of `make`.
pub fn make_options(matches: &ArgMatches) -> Option<MakeOptions>
    ensures is { result ≡ asked.make_options_of (rows_of (found_of matches.now)) }
    ensures range { IfSome result (asked.IsMakeWithin) }
{
    Some(MakeOptions {
        group: group(matches)?,
        workers: workers(matches)?,
        lose: small_at(matches, "lose", 0, PACKETS_LOST)?,
        source: is_set(matches, "source"),
    })
}

/// The number from which a program is made.
pub fn seed(matches: &ArgMatches) -> Option<u64>
    ensures { result ≡ option_and_then number_of (first_of (codes "number") (rows_of (found_of matches.now))) }
{
    match text(matches, "number") {
        Some(text) => number(text),
        None => None,
    }
}

/// The options of `join`.
pub fn join_options(matches: &ArgMatches) -> Option<JoinOptions>
    ensures is { result ≡ asked.join_options_of (rows_of (found_of matches.now)) }
    ensures range { IfSome result (asked.IsJoinWithin) }
{
    Some(JoinOptions {
        group: group(matches)?,
        at: number_at(matches, "at", 0, EVENTS)?,
    })
}
