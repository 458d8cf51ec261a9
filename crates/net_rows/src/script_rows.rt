//! Fault scripts.
//!
//! `text TEXT` and `bytes BYTES`: the lines that a script says, in numbers, or the first that is wrong. A line is the
//! place of its word among drop, twice, hold, cut, crash, suspect, swap and seed, from 0, and what stands behind it in
//! this order: a kind of packets is its number less one, and `any` is 13; `all` is 0. Its copy says the same.

use crate::flat_script;
use fault_scripts::{Script, read_script};
use orca_base::Refusal;
use row_files::{Row, RowError, bytes, flat, malformed, said};
use std::alloc::Global;

// No script has more bytes.
const MOST: usize = 100_000;

/// What a row's call answers.
pub fn answer(alloc: Global, row: &Row<'_>) -> Result<String, RowError> {
    match (row.verb(), row.given()) {
        ("text", [text]) => script(alloc, text.as_bytes()),
        ("bytes", [given]) => script(alloc, &bytes(alloc, given)?),
        ("empty", []) => said_by(alloc, &Script::empty(alloc)),
        _ => malformed("no call"),
    }
}

fn said_by(alloc: Global, script: &Script) -> Result<String, RowError> {
    let mut numbers = Vec::new(alloc);
    for line in script.lines() {
        flat_script::put_line(&mut numbers, line)?;
    }
    flat::text_of(alloc, &numbers)
}

fn script(alloc: Global, text: &[u8]) -> Result<String, RowError> {
    if text.len() > MOST {
        return malformed("too long a text");
    }
    match read_script(alloc, text) {
        Ok(script) => {
            let copy = script.copy(alloc)?;
            if copy.lines() != script.lines() {
                return said(alloc, "copied otherwise");
            }
            said_by(alloc, &copy)
        }
        Err(Refusal::Because { cause }) => Ok(format!(in alloc; "{cause:?}")?),
        Err(Refusal::NoMemory) => Err(RowError::NoMemory),
    }
}
