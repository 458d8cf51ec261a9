//! What members of a group do, as rows in files: what happens to a member, what it sends, and how it stands then.
//!
//! The words are names of tables, which lie where it runs. Of each table a line tells how many rows it has and how many are as wanted;
//! of each other row is told what was wanted, and what was found in its place, or the line that has no form or isn't possible there.
//! Adding a row is adding text; no row has a proof, since each call's condition is tested before it.
//!
//! A table's rows begin with `=> ` and a name; what stands in front of the first is said of the table. A line that begins with `-- `
//! says something to its reader. Numbers are written `name=number`, packets as in `packets.rt`. The values are worked out from
//! docs/RUNTIME.md, and none is taken from a run.
//!
//! - `packet length=L PACKET`: the packet's length, and the same packet in a copy. It is the only line of its row.
//! - `member M nodes=N resilience=R`: member M of such a group begins, and the lines behind it are done in turn:
//! - `submit call=C bytes=B`, `submit_all first=C last=D` (of 40 bytes each), `receive M PACKET`, `entries first=C last=D` (from member
//!   0, each telling that those in front of it are accepted), `applies number=K`, `tick`, `listen M incarnation=K`, `coordinate`,
//!   `invited M PACKET`, `joined M PACKET`, `announced M PACKET`: this happens. What `submit_all` and `entries` send isn't told.
//! - `sends M PACKET`: it is the next that was sent, to member M. All that an event sends is to be told behind it.
//! - `forget`: what was sent so far isn't asked for.
//! - `stands ..`, `waits yes`, `outcome ..`: how the member stands, whether a message waits for room at the active sequencer, and what
//!   came of the last answer.
//!
//! Nothing stands on it.
#![tactic(auto)]

mod calls;
mod conditions;
mod events;
mod failed;
mod fields;
mod packets;
mod plain;
mod rows;

use rows::{Other, row};
use std::process::ExitCode;
use std::{env, fs, io};

fn main(rt: HostRuntime) -> ExitCode {
    match run(&rt) {
        Ok(true) => ExitCode::SUCCESS,
        Ok(false) | Err(_) => ExitCode::FAILURE,
    }
}

// Tries the tables that the words name, and says whether there are any and all rows are as wanted.
fn run(rt: &HostRuntime) -> io::Result<bool> {
    let names: Vec<String> = env::args(rt)?.skip(1).collect(rt.alloc())?;
    let mut all = !names.is_empty();
    for name in &names {
        let table = fs::read_to_string(rt, name.as_str())?;
        if !try_all(rt, name.as_str(), table.as_str())? {
            all = false;
        }
    }
    Ok(all)
}

// Tries each row of a table, and says whether all are as wanted.
fn try_all(rt: &HostRuntime, table: &str, text: &str) -> io::Result<bool> {
    let mut tried = 0u32;
    let mut same = 0u32;
    for part in text.split("=> ").skip(1) {
        let (name, lines) = part.split_once('\n').unwrap_or((part, ""));
        tried = tried.saturating_add(1);
        if is_as_wanted(rt, table, name, lines)? {
            same = same.saturating_add(1);
        }
    }
    println!(rt; "{table}: {tried} rows, {same} as wanted")?;
    Ok(tried == same)
}

// Whether a row is as wanted; what isn't is told.
fn is_as_wanted(rt: &HostRuntime, table: &str, name: &str, lines: &str) -> io::Result<bool> {
    match row(rt.alloc(), lines) {
        Ok(others) => {
            for Other { wanted, found } in &others {
                println!(rt; "{table}: {name}: wanted: {wanted}\n  found: {found}")?;
            }
            Ok(others.is_empty())
        },
        Err(failed) => {
            println!(rt; "{table}: {name}: {}", failed.text())?;
            Ok(false)
        },
    }
}
