//! Tables of cases.

use crate::calls::Calls;
use crate::case::Flaw;
use crate::judge::judged;
use crate::read::case_of;
use crate::rows::{Row, row_of};
use orca_base::SOURCE_BYTES;
use orca_io::{FileShelf, Shelf};
use std::{env, io};

// How many cases of a table there are, and how many were answered as wanted.
#[derive(Clone, Copy)]
struct Tally {
    cases: u32,
    as_wanted: u32,
}

/// Answers the tables that the words name, or without words those that `tables.txt` names, a line each, and prints what came of each.
/// Whether all was as wanted.
pub fn answer_tables<C: Calls>(rt: &HostRuntime, calls: &C) -> io::Result<bool> {
    let words: Vec<String> = env::args(rt)?.skip(1).collect(rt.alloc())?;
    if words.is_empty() {
        return answer_all(rt, calls);
    }
    let mut all = true;
    for name in &words {
        all = answer_table(rt, calls, name.as_str())? && all;
    }
    Ok(all)
}

// Answers the tables that `tables.txt` names.
fn answer_all<C: Calls>(rt: &HostRuntime, calls: &C) -> io::Result<bool> {
    let Some(names) = text_of(rt, "tables.txt")? else {
        println!(rt; "no table of tables")?;
        return Ok(false);
    };
    let mut all = true;
    for name in names.as_str().lines() {
        all = answer_table(rt, calls, name)? && all;
    }
    Ok(all)
}

// The text of a file of data/, where it is there and is a text.
fn text_of(rt: &HostRuntime, name: &str) -> io::Result<Option<String>> {
    match FileShelf::new(rt).read_all(rt.alloc(), name, SOURCE_BYTES) {
        Ok(bytes) => Ok(String::from_utf8(bytes).ok()),
        Err(_) => Ok(None),
    }
}

// Answers a table, and prints how many of its cases were answered as wanted. Whether all were.
fn answer_table<C: Calls>(rt: &HostRuntime, calls: &C, name: &str) -> io::Result<bool> {
    let Some(table) = text_of(rt, name)? else {
        println!(rt; "{name}: no such table")?;
        return Ok(false);
    };
    let Some(text) = table.as_str().strip_suffix("\n") else {
        println!(rt; "{name}: its last line isn't ended")?;
        return Ok(false);
    };
    let mut tally = Tally {
        cases: 0,
        as_wanted: 0,
    };
    let mut lines = Vec::new(rt.alloc());
    let mut first = 1u32;
    let mut number = 1u32;
    for line in text.split('\n') {
        if matches!(row_of(line), Row::Call { .. }) {
            answer_lines(rt, calls, name, first, &lines, &mut tally)?;
            lines.clear();
            first = number;
        }
        lines.push(line)?;
        number = number.saturating_add(1);
    }
    answer_lines(rt, calls, name, first, &lines, &mut tally)?;
    let Tally { cases, as_wanted } = tally;
    println!(rt; "{name}: {cases} cases, {as_wanted} as wanted")?;
    Ok(cases == as_wanted)
}

// Answers the case of these lines, and counts it; notes in front of the first case are passed over.
fn answer_lines<C: Calls>(
    rt: &HostRuntime,
    calls: &C,
    name: &str,
    first: u32,
    lines: &[&str],
    tally: &mut Tally,
) -> io::Result<()> {
    if lines.iter().all(|line| matches!(row_of(line), Row::Note)) {
        return Ok(());
    }
    tally.cases = tally.cases.saturating_add(1);
    let mut shelf = FileShelf::new(rt);
    let answer = match case_of(rt.alloc(), &mut shelf, first, lines) {
        Ok(case) => judged(rt, calls, &case),
        Err(flaw) => Err(flaw),
    };
    let told = told_of(first, &answer);
    if is_wanted(told, wanted_end(lines)) {
        tally.as_wanted = tally.as_wanted.saturating_add(1);
        return Ok(());
    }
    match told {
        Some((line, text)) => println!(rt; "{name}:{line}: {text}"),
        None => println!(rt; "{name}:{first}: nothing is told of what is wrong on purpose"),
    }
}

// What is told of a case with this answer, and of which line; nothing where it was answered as wanted.
fn told_of(first: u32, answer: &Result<Option<String>, Flaw>) -> Option<(u32, &str)> {
    match answer {
        Ok(None) => None,
        Ok(Some(other)) => Some((first, other.as_str())),
        Err(Flaw::Malformed { line, why }) => Some((*line, *why)),
        Err(Flaw::NoMemory) => Some((first, "no memory")),
    }
}

// How what is told of a case ends that is wrong on purpose.
fn wanted_end<'a>(lines: &[&'a str]) -> Option<&'a str> {
    for line in lines {
        if let Row::Told { end } = row_of(line) {
            return Some(end);
        }
    }
    None
}

// Whether that is told which is to be: nothing, or a text that ends so.
fn is_wanted(told: Option<(u32, &str)>, end: Option<&str>) -> bool {
    match (told, end) {
        (None, None) => true,
        (Some((_, text)), Some(end)) => text.ends_with(end),
        _ => false,
    }
}
