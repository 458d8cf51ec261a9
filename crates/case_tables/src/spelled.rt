//! What came of a call, spelled for one topic.

use crate::bound::{bound, is_enough};
use crate::ends::{Member, Process, Standing};
use crate::events::Counts;
use crate::lines::Sorts;
use crate::outcome::{Left, Outcome};
use crate::topics::Topic;
use std::alloc::{AllocError, Global};

/// What came of a call, for this topic. Where no run was kept it is `no run`, and of whether one was, `no`.
pub fn spelled(alloc: Global, topic: Topic, outcome: &Outcome) -> Result<String, AllocError> {
    match (&outcome.left, topic) {
        (Some(_), Topic::Kept) => String::from_str(alloc, "yes"),
        (None, Topic::Kept) => String::from_str(alloc, "no"),
        (Some(left), topic) => spelled_left(alloc, topic, left),
        (None, _) => String::from_str(alloc, "no run"),
    }
}

// What a run left, for this topic.
fn spelled_left(alloc: Global, topic: Topic, left: &Left) -> Result<String, AllocError> {
    let tally = &left.tally;
    match topic {
        Topic::Kept => String::from_str(alloc, "yes"),
        Topic::Events => format!(in alloc; "{}", tally.events.all),
        Topic::Counts => counts_text(alloc, &tally.events.counts),
        Topic::Ticks => format!(in alloc; "{}", tally.events.counts.ticks),
        Topic::Packets | Topic::MorePackets => format!(in alloc; "{}", tally.events.counts.packets),
        Topic::Bound => format!(in alloc; "{}", bound(left)),
        Topic::Enough => String::from_str(alloc, yes_or_no(is_enough(left))),
        Topic::Swapped => format!(in alloc;
            "{} {}",
            tally.events.about_swap.0, tally.events.about_swap.1
        ),
        Topic::Book => format!(in alloc; "{}", tally.book),
        Topic::Sorts => sorts_text(alloc, &tally.sorts),
        Topic::History => left.history.clone(),
        Topic::Replied => left.replied.clone(),
        Topic::Written => left.written.clone(),
        Topic::Gave => gave_text(alloc, &left.gave),
        Topic::Fields => fields_text(alloc, &left.fields),
        Topic::Members => members_text(alloc, &left.members),
        Topic::Applied => applied_text(alloc, &left.members),
        Topic::Homes | Topic::Standings | Topic::Replies | Topic::Turns => {
            processes_text(alloc, topic, &left.processes)
        }
    }
}

// A truth in a word.
fn yes_or_no(truth: bool) -> &'static str {
    if truth { "yes" } else { "no" }
}

// Puts a word behind others.
fn add_word(text: &mut String, word: &str) -> Result<(), AllocError> {
    if !text.is_empty() {
        text.push_str(" ")?;
    }
    text.push_str(word)
}

fn counts_text(alloc: Global, counts: &Counts) -> Result<String, AllocError> {
    let (bursts, acts, deliveries) = (counts.bursts, counts.acts, counts.deliveries);
    let (ticks, crashes, suspects) = (counts.ticks, counts.crashes, counts.suspects);
    let (swaps, packets) = (counts.swaps, counts.packets);
    let mut text = format!(in alloc; "{bursts} bursts {acts} acts {deliveries} deliveries")?;
    let befell = format!(in alloc; "{ticks} ticks {crashes} crashes {suspects} suspects")?;
    let wired = format!(in alloc; "{swaps} swaps {packets} packets")?;
    add_word(&mut text, befell.as_str())?;
    add_word(&mut text, wired.as_str())?;
    Ok(text)
}

fn sorts_text(alloc: Global, sorts: &Sorts) -> Result<String, AllocError> {
    let (makes, forks, calls, others) = (sorts.makes, sorts.forks, sorts.calls, sorts.others);
    format!(in alloc; "{makes} makes {forks} forks {calls} calls {others} others")
}

fn gave_text(alloc: Global, gave: &[i64]) -> Result<String, AllocError> {
    let mut text = String::new(alloc);
    for number in gave {
        let word = format!(in alloc; "{number}")?;
        add_word(&mut text, word.as_str())?;
    }
    Ok(text)
}

fn fields_text(alloc: Global, fields: &[(usize, i64)]) -> Result<String, AllocError> {
    let mut text = String::new(alloc);
    for (member, number) in fields {
        let word = format!(in alloc; "{member}:{number}")?;
        add_word(&mut text, word.as_str())?;
    }
    Ok(text)
}

// Of each member how many entries it applied, its incarnation, and whether it crashed or is outside.
fn members_text(alloc: Global, members: &[Member]) -> Result<String, AllocError> {
    let mut text = String::new(alloc);
    for member in members {
        let crashed = if member.crashed { ":crashed" } else { "" };
        let outside = if member.outside { ":outside" } else { "" };
        let (applied, incarnation) = (member.applied, member.incarnation);
        let word = format!(in alloc; "{applied}:{incarnation}{crashed}{outside}")?;
        add_word(&mut text, word.as_str())?;
    }
    Ok(text)
}

fn applied_text(alloc: Global, members: &[Member]) -> Result<String, AllocError> {
    match members.first() {
        Some(main) => format!(in alloc; "{}", main.applied),
        None => String::from_str(alloc, "no member"),
    }
}

// One word of each process, for this topic.
fn processes_text(
    alloc: Global,
    topic: Topic,
    processes: &[Process],
) -> Result<String, AllocError> {
    let mut text = String::new(alloc);
    for process in processes {
        let word = match topic {
            Topic::Homes => format!(in alloc; "{}", process.node)?,
            Topic::Replies => format!(in alloc; "{}", process.replies)?,
            Topic::Turns => format!(in alloc; "{}", process.turns)?,
            _ => standing_text(alloc, process.standing)?,
        };
        add_word(&mut text, word.as_str())?;
    }
    Ok(text)
}

fn standing_text(alloc: Global, standing: Standing) -> Result<String, AllocError> {
    match standing {
        Standing::Ended => String::from_str(alloc, "ended"),
        Standing::Faulted { fault } => format!(in alloc; "{fault:?}"),
        Standing::Waits => String::from_str(alloc, "waits"),
        Standing::Busy => String::from_str(alloc, "busy"),
        Standing::Crashed => String::from_str(alloc, "crashed"),
    }
}
