//! The events of a run, counted.

use case_tables::{Counts, Events};
use world_rules::{Event, Step};

// Counts one event more.
fn add(counts: &mut Counts, step: &Step) {
    let one = match step.event {
        Event::Burst { .. } => &mut counts.bursts,
        Event::Act { .. } => &mut counts.acts,
        Event::Deliver { .. } => &mut counts.deliveries,
        Event::Tick => &mut counts.ticks,
        Event::Crash { .. } => &mut counts.crashes,
        Event::Suspect { .. } => &mut counts.suspects,
        Event::Swap => &mut counts.swaps,
    };
    *one = one.saturating_add(1);
    counts.packets = counts.packets.saturating_add(step.fates.len() as u64);
}

/// The events of a run, counted.
pub fn events_of(steps: &[Step]) -> Events {
    Events {
        all: steps.len(),
        counts: counted(steps),
        about_swap: packets_about_swap(steps),
    }
}

// The same by sort.
fn counted(steps: &[Step]) -> Counts {
    let mut found = Counts {
        bursts: 0,
        acts: 0,
        deliveries: 0,
        ticks: 0,
        crashes: 0,
        suspects: 0,
        swaps: 0,
        packets: 0,
    };
    for step in steps {
        add(&mut found, step);
    }
    found
}

// How many packets were sent before the first exchange of wires, and behind it.
fn packets_about_swap(steps: &[Step]) -> (u64, u64) {
    let mut before = 0u64;
    let mut behind = 0u64;
    let mut swapped = false;
    for step in steps {
        let packets = if swapped { &mut behind } else { &mut before };
        *packets = packets.saturating_add(step.fates.len() as u64);
        swapped = swapped || step.event == Event::Swap;
    }
    (before, behind)
}
