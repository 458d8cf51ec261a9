//! The parts of a table.
//!
//! A part begins with `=> ` and the words of its call: the cause, its rule, and where there is a place the file, line and column. Behind
//! them comes the note that is wanted, and behind a line `== ` the text.

use crate::calls::{Call, answer};
use std::alloc::{AllocError, Global};
use std::io;

// What the note of a part is.
fn found(alloc: Global, words: &str, text: &str) -> Result<String, AllocError> {
    let mut call = Vec::new(alloc);
    for word in words.split(' ') {
        call.push(word)?;
    }
    let call = Call {
        words: &call,
        text: text.as_bytes(),
    };
    answer(alloc, &call)
}

// Prints what is wanted, and what came in its place.
fn print_other(rt: &HostRuntime, words: &str, wanted: &str, came: &str) -> io::Result<()> {
    println!(rt; "for {words}: wanted {wanted}came {came}")
}

/// Tries each part of a table, and prints each whose note is another, and how many there are.
pub fn try_all(rt: &HostRuntime, name: &str, table: &str) -> io::Result<()> {
    let mut tried = 0u32;
    let mut same = 0u32;
    for part in table.split("=> ").skip(1) {
        let (words, rest) = part.split_once('\n').unwrap_or((part, ""));
        let (wanted, text) = rest.split_once("== \n").unwrap_or((rest, ""));
        let came = found(rt.alloc(), words, text)?;
        if came.as_str() == wanted {
            same = same.saturating_add(1);
        } else {
            print_other(rt, words, wanted, came.as_str())?;
        }
        tried = tried.saturating_add(1);
    }
    println!(rt; "{name}: {same} of {tried} notes are as wanted")
}
