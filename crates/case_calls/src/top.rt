//! The one place where the product is called.

use case_runs::left_of;
use case_tables::{By, Given, Outcome, Policies, Wires};
use orca_base::{Choice, NoMemory};
use orca_cli::{Ended, orca_main};
use orca_door::serve;
use orca_io::{Shelf, Sink};
use replica_choice::{AlwaysReplicated, CostPolicy, Fixed, Policy};
use std::alloc::Global;
use wires::{PlainWire, ScriptWire, Wire};

/// What comes of a call with these words over this shelf and sink, but for what it prints.
pub fn called<F: Shelf, K: Sink>(
    alloc: Global,
    words: &[String],
    shelf: &mut F,
    out: &mut K,
    by: By,
    given: &Given,
) -> Result<Box<Outcome>, NoMemory> {
    let mut policy: Box<dyn Policy + Send> = match given.policy {
        Policies::Costs => Box::new(alloc, CostPolicy::new(alloc))?,
        Policies::Replicated => Box::new(alloc, AlwaysReplicated::new(alloc))?,
        Policies::ListedReplicated => Box::new(alloc, listed(alloc, Choice::Replicated)?)?,
        Policies::ListedSingle => Box::new(alloc, listed(alloc, Choice::Single)?)?,
    };
    match by {
        By::Door => answered(alloc, serve(alloc, words, shelf, out, &mut policy)),
        By::Top => {
            let ended = ended(alloc, words, shelf, out, given.wires, &mut policy)?;
            told(alloc, &ended)
        }
    }
}

// The policy that gives one answer 64 times.
fn listed(alloc: Global, choice: Choice) -> Result<Fixed, NoMemory> {
    let choices = vec![in alloc; choice; 64]?;
    Ok(Fixed::new(alloc, choices))
}

// How the top ends.
fn ended<F: Shelf, K: Sink>(
    alloc: Global,
    words: &[String],
    shelf: &mut F,
    out: &mut K,
    wires: Wires,
    policy: &mut Box<dyn Policy + Send>,
) -> Result<Box<Ended>, NoMemory> {
    let mut boxed: Vec<Box<dyn Wire + Send>> = Vec::new(alloc);
    if wires != Wires::Plain {
        boxed.push(Box::new(alloc, ScriptWire::new(alloc)?)?)?;
    }
    if wires != Wires::Script {
        boxed.push(Box::new(alloc, PlainWire::new(alloc))?)?;
    }
    let count = boxed.len();
    if count < 1 || 2 < count {
        return Err(NoMemory);
    }
    Ok(Box::new(
        alloc,
        orca_main(alloc, words, shelf, out, &mut boxed, policy),
    )?)
}

// What came of a call that ended with this status.
fn answered(alloc: Global, status: u8) -> Result<Box<Outcome>, NoMemory> {
    Ok(Box::new(alloc, Outcome::new(alloc, status, &[])?)?)
}

// What came of a call that ended so.
fn told(alloc: Global, ended: &Ended) -> Result<Box<Outcome>, NoMemory> {
    let mut outcome = answered(alloc, ended.status)?;
    if let Some(kept) = &ended.kept {
        let left = left_of(
            alloc,
            &kept.book,
            &kept.events,
            &kept.nodes,
            &kept.processes,
        )?;
        outcome.left = Some(left);
    }
    Ok(outcome)
}
