//! Reads 14,000 byte strings, and compares each answer of `read_value` and `read_packet` with that of a slow plain
//! reader.
//!
//! The strings are values behind some other bytes and packets of all thirteen kinds, made by a generator that is the
//! same on every run; most have one or two changes. An answer is what was found, with the place where a value ends, or
//! the fault and its place. The plain reader (`byte_plain.rt`) is written from the tables of docs/LANGUAGE.md and
//! docs/RUNTIME.md, and shares nothing but the names of faults with the crates that it judges.

use crate::byte_maker::Maker;
use crate::{byte_plain, flat_packet};
use orca_base::Refusal;
use packet_bytes::{PacketError, read_packet};
use row_files::flat::{self, LEVELS, Numbers};
use row_files::{Counts, answer};
use std::alloc::Global;
use std::io;
use value_bytes::{ValueError, read_value};

// How many strings there are of each sort.
const VALUES: u32 = 7_000;

const PACKETS: u32 = 7_000;

// Of each sort at least so many are read, and as many are refused.
const LEAST: u32 = 1_000;

// With what the generator begins.
const SEED: u64 = 20_000;

// No string has more bytes.
const MOST: usize = 1_000_000;

// What `read_value` finds at a place, and where it ends.
fn found_value(alloc: Global, bytes: &[u8], at: u32) -> Result<Numbers, Refusal<ValueError>> {
    if bytes.len() > MOST {
        return Err(Refusal::NoMemory);
    }
    let (value, end) = read_value(alloc, bytes, at)?;
    let mut numbers = Vec::new(alloc);
    flat::put_value(&mut numbers, LEVELS, &value)?;
    numbers.push(i128::from(end))?;
    Ok(numbers)
}

// What `read_packet` finds.
fn found_packet(alloc: Global, bytes: &[u8]) -> Result<Numbers, Refusal<PacketError>> {
    if bytes.len() > MOST {
        return Err(Refusal::NoMemory);
    }
    let packet = read_packet(alloc, bytes)?;
    let mut numbers = Vec::new(alloc);
    flat_packet::put_packet(&mut numbers, &packet)?;
    Ok(numbers)
}

// Reads one more value both ways.
fn try_value(rt: &HostRuntime, maker: &mut Maker, counts: &mut Counts) -> io::Result<()> {
    let (at, bytes) = maker.value(rt.alloc())?;
    let plain = answer(byte_plain::value(rt.alloc(), &bytes, at))?;
    let found = answer(found_value(rt.alloc(), &bytes, at))?;
    counts.count(rt, &bytes, &plain, &found)
}

// Reads one more packet both ways.
fn try_packet(rt: &HostRuntime, maker: &mut Maker, counts: &mut Counts) -> io::Result<()> {
    let bytes = maker.packet(rt.alloc())?;
    let plain = answer(byte_plain::packet(rt.alloc(), &bytes))?;
    let found = answer(found_packet(rt.alloc(), &bytes))?;
    counts.count(rt, &bytes, &plain, &found)
}

/// Reads all of them, and prints how many were told otherwise.
pub fn run(rt: &HostRuntime) -> io::Result<()> {
    let mut maker = Maker::new(rt.alloc(), SEED);
    let mut values = Counts::new();
    for _ in 0..VALUES {
        try_value(rt, &mut maker, &mut values)?;
    }
    values.print(rt, "values", LEAST)?;
    let mut packets = Counts::new();
    for _ in 0..PACKETS {
        try_packet(rt, &mut maker, &mut packets)?;
    }
    packets.print(rt, "packets", LEAST)
}
