//! What wires answer, question by question.
//!
//! `plain DEEDS`, `script DEEDS`, `seeded SEED PERCENT, DEEDS` and `boxed DEEDS`, in which the wire is behind a
//! pointer: what comes of each deed. `load SCRIPT` gives the wire a script, `act` asks what it does before the next
//! event, and a kind of packets what happens to one of 64 bytes. Of `boxed` one wire follows a script, and where it
//! swaps a plain one takes its place.

use fault_scripts::{Script, read_script};
use group_packets::PacketKind;
use orca_base::Refusal;
use row_files::{Row, RowError, add_part, malformed, number_8, number_64, said};
use std::alloc::Global;
use wires::{PlainWire, ScriptWire, SeededWire, Wire};

// No script has more bytes.
const MOST: usize = 100_000;

/// What a row's call answers.
pub fn answer(alloc: Global, row: &Row<'_>) -> Result<String, RowError> {
    match (row.verb(), row.given()) {
        ("plain", [deeds]) => asked(alloc, &mut PlainWire::new(alloc), deeds),
        ("script", [deeds]) => asked(alloc, &mut ScriptWire::new(alloc)?, deeds),
        ("seeded", [seed, percent, deeds]) => {
            let mut wire = SeededWire::new(alloc, number_64(seed)?, number_8(percent)?);
            asked(alloc, &mut wire, deeds)
        }
        ("boxed", [deeds, behind]) => boxed(alloc, deeds, behind),
        _ => malformed("no call"),
    }
}

fn boxed(alloc: Global, deeds: &str, behind: &str) -> Result<String, RowError> {
    let mut first: Box<dyn Wire + Send> = Box::new(alloc, ScriptWire::new(alloc)?)?;
    let mut second: Box<dyn Wire + Send> = Box::new(alloc, PlainWire::new(alloc))?;
    let mut answer = asked(alloc, &mut first, deeds)?;
    let after = asked(alloc, &mut second, behind)?;
    add_part(&mut answer, after.as_str())?;
    Ok(answer)
}

// The deeds one after the other.
fn asked<W: Wire>(alloc: Global, wire: &mut W, deeds: &str) -> Result<String, RowError> {
    let mut answer = String::new(alloc);
    for deed in deeds.split(", ") {
        let told = done(alloc, wire, deed)?;
        add_part(&mut answer, told.as_str())?;
    }
    Ok(answer)
}

fn done<W: Wire>(alloc: Global, wire: &mut W, deed: &str) -> Result<String, RowError> {
    if let Some(script) = deed.strip_prefix("load ") {
        let script = script_of(alloc, script)?;
        wire.load(alloc, &script)?;
        return said(alloc, "loaded");
    }
    if deed == "act" {
        wire.make_room(1)?;
        let act = wire.next_act(1);
        return Ok(format!(in alloc; "{act:?}")?);
    }
    let kind = kind_of(deed)?;
    wire.make_room(1)?;
    let fate = wire.fate(1, kind, 0, 1, 64);
    Ok(format!(in alloc; "{fate:?}")?)
}

fn script_of(alloc: Global, text: &str) -> Result<Script, RowError> {
    if text.len() > MOST {
        return malformed("too long a script");
    }
    match read_script(alloc, text.as_bytes()) {
        Ok(script) => Ok(script),
        Err(Refusal::Because { .. }) => malformed("no script"),
        Err(Refusal::NoMemory) => Err(RowError::NoMemory),
    }
}

fn kind_of(word: &str) -> Result<PacketKind, RowError> {
    match word {
        "entry" => Ok(PacketKind::Entry),
        "ack" => Ok(PacketKind::Ack),
        "accept" => Ok(PacketKind::Accept),
        "join" => Ok(PacketKind::Join),
        _ => malformed("no kind of packets"),
    }
}
