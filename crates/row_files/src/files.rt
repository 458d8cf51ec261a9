//! Tables in files, and whether the answers of their rows are as wanted.

use crate::rows::{Row, RowError, unmarked};
use std::alloc::{AllocError, Global};
use std::{fs, io};

/// Who makes the calls of rows.
pub trait Calls {
    /// What the call of a row of this table answers.
    fn answer(&self, alloc: Global, table: &str, row: &Row<'_>) -> Result<String, RowError>;
}

// Whether the answer of a row is the one that is wanted; another is printed.
fn is_wanted<C: Calls>(
    rt: &HostRuntime,
    calls: &C,
    table: &str,
    row: &Row<'_>,
) -> io::Result<bool> {
    match calls.answer(rt.alloc(), table, row) {
        Ok(came) => {
            if came.as_str() == row.wanted() {
                return Ok(true);
            }
            println!(rt;
                "{}\n  wanted {:?}\n  came   {:?}",
                row.line(),
                row.wanted(),
                came.as_str()
            )?;
            Ok(false)
        }
        Err(RowError::Malformed { why }) => {
            println!(rt; "{}\n  isn't a row: {why}", row.line())?;
            Ok(false)
        }
        Err(RowError::NoMemory) => Err(AllocError.into()),
    }
}

// The same of a line of a table. An empty one, and one that begins with `#`, is no row.
fn is_line_wanted<C: Calls>(
    rt: &HostRuntime,
    calls: &C,
    table: &str,
    line: &str,
) -> io::Result<Option<bool>> {
    if line.is_empty() || line.starts_with("#") {
        return Ok(None);
    }
    let line = unmarked(rt.alloc(), line)?;
    let row = Row::of(rt.alloc(), line.as_str())?;
    Ok(Some(is_wanted(rt, calls, table, &row)?))
}

/// Makes the calls of a table, which is the file of its name with `.rows` behind it, and prints how many answers are as
/// wanted, and in front of that each row whose answer isn't.
pub fn try_table<C: Calls>(rt: &HostRuntime, calls: &C, table: &str) -> io::Result<()> {
    let file = format!(in rt.alloc(); "{table}.rows")?;
    let text = fs::read_to_string(rt, file.as_str())?;
    let mut wanted = 0u32;
    let mut all = 0u32;
    for line in text.split('\n') {
        if let Some(is_wanted) = is_line_wanted(rt, calls, table, line)? {
            all = all.saturating_add(1);
            if is_wanted {
                wanted = wanted.saturating_add(1);
            }
        }
    }
    println!(rt; "{table}: {wanted} of {all} rows are as wanted")
}
