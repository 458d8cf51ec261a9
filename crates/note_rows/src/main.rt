//! Notes, as they stand for texts and places: a worked text for each rule, and what its note is.
//!
//! Another case is another part of a table in data/, and no proof. The programs of `typing.txt` are those of examples/rules.txt, one for
//! each rule, whose places were worked out there by hand; the wanted notes were laid out by another program (tools/note-rows), from the
//! table of texts.
#![tactic(auto)]

mod calls;
mod parts;

use orca_base::SOURCE_BYTES;
use orca_io::{FileShelf, Shelf};
use parts::try_all;
use std::io;

const TABLES: [&str; 3] = ["typing.txt", "texts.txt", "others.txt"];

fn main(rt: HostRuntime) -> io::Result<()> {
    let mut shelf = FileShelf::new(&rt);
    for name in TABLES {
        match shelf.read_all(rt.alloc(), name, SOURCE_BYTES) {
            Ok(table) => {
                let table = String::from_utf8_lossy(rt.alloc(), &table)?;
                try_all(&rt, name, table.as_str())?;
            }
            Err(_) => println!(rt; "no table {name}")?,
        }
    }
    Ok(())
}
