//! One call, over what its case says.

use crate::top::called;
use case_tables::{By, CallParts, Calls, CaseSink, Given, Outcome, Outside};
use orca_base::NoMemory;
use orca_io::{FileShelf, MemoryShelf, Shelf, SureShelf, SureSink};
use std::alloc::Global;

/// Calls of the product.
#[derive(Clone, Copy)]
pub struct Product;

impl Calls for Product {
    fn outcome(&self, rt: &HostRuntime, call: CallParts<'_>) -> Result<Box<Outcome>, NoMemory> {
        let alloc = rt.alloc();
        let CallParts {
            words,
            files,
            given,
            by,
        } = call;
        match given.outside {
            Outside::Memory => {
                let reads = Vec::from_slice(alloc, &given.reads)?;
                over(alloc, words, &mut MemoryShelf::new(files, reads), given, by)
            }
            Outside::Sure => over_sure(alloc, words, &mut SureShelf::new(files), given, by),
            Outside::Real => over(alloc, words, &mut FileShelf::new(rt), given, by),
        }
    }
}

// What comes of it over a shelf, with output in memory.
fn over<F: Shelf>(
    alloc: Global,
    words: &[String],
    shelf: &mut F,
    given: &Given,
    by: By,
) -> Result<Box<Outcome>, NoMemory> {
    let mut out = CaseSink::new(alloc, given)?;
    let mut outcome = called(alloc, words, shelf, &mut out, by, given)?;
    outcome.printed = Vec::from_slice(alloc, out.bytes())?;
    Ok(outcome)
}

// What comes of it where neither files nor output fail.
fn over_sure(
    alloc: Global,
    words: &[String],
    shelf: &mut SureShelf,
    given: &Given,
    by: By,
) -> Result<Box<Outcome>, NoMemory> {
    let mut out = SureSink::new(alloc);
    let mut outcome = called(alloc, words, shelf, &mut out, by, given)?;
    outcome.printed = Vec::from_slice(alloc, out.bytes())?;
    Ok(outcome)
}
