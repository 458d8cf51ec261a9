//! Reads 6,000 byte strings, and compares each answer of `read_script` with that of a slow plain reader.
//!
//! The strings are scripts with lines of all forms, made by a generator that is the same on every run; most have one or
//! two changes. An answer is what the lines say, or the fault and its line. The plain reader (`script_plain.rt`) is
//! written from docs/RUNTIME.md, and shares nothing but the names of faults with the crate that it judges.

use crate::{flat_script, script_maker, script_plain};
use fault_scripts::{ScriptError, read_script};
use orca_base::Refusal;
use row_files::flat::Numbers;
use row_files::{Counts, Draws, answer};
use std::alloc::Global;
use std::io;

// How many strings there are.
const SCRIPTS: u32 = 6_000;

// At least so many are read, and as many are refused.
const LEAST: u32 = 1_000;

// With what the generator begins.
const SEED: u64 = 20_000;

// No string has more bytes.
const MOST: usize = 1_000_000;

// What `read_script` finds.
fn found_script(alloc: Global, bytes: &[u8]) -> Result<Numbers, Refusal<ScriptError>> {
    if bytes.len() > MOST {
        return Err(Refusal::NoMemory);
    }
    let script = read_script(alloc, bytes)?;
    let mut numbers = Vec::new(alloc);
    for line in script.lines() {
        flat_script::put_line(&mut numbers, line)?;
    }
    Ok(numbers)
}

// Reads one more script both ways.
fn try_script(rt: &HostRuntime, draws: &mut Draws, counts: &mut Counts) -> io::Result<()> {
    let bytes = script_maker::script(draws, rt.alloc())?;
    let plain = answer(script_plain::script(rt.alloc(), &bytes))?;
    let found = answer(found_script(rt.alloc(), &bytes))?;
    counts.count(rt, &bytes, &plain, &found)
}

/// Reads all of them, and prints how many were told otherwise.
pub fn run(rt: &HostRuntime) -> io::Result<()> {
    let mut draws = Draws::new(rt.alloc(), SEED);
    let mut scripts = Counts::new();
    for _ in 0..SCRIPTS {
        try_script(rt, &mut draws, &mut scripts)?;
    }
    scripts.print(rt, "scripts", LEAST)
}
