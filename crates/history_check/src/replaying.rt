//! Lines, one by one.

ghost use Rattle.std.specs.Prelude.{◌<◌, ◌^◌, IfOk, length};
ghost use Rattle.history_check.specs.Verdicts.{IsVerdict};

use crate::replayed::{opening, step};
use crate::verdict::Verdict;
use orca_base::NoMemory;
use std::alloc::Global;
use value_core::{Line, Processor};

/// Whether these lines are a history of the program, and else their first breach. The lines may be any: their numbers needn't be the
/// program's.
///
/// A line costs what its process computes up to it, and the look of its object among the others.
pub fn replay<P: Processor>(alloc: Global, program: &P, lines: &[Line]) -> Result<Verdict, NoMemory>
    requires few { length lines.now < 2 ^ 32 }
    ensures verdict { IfOk result (IsVerdict (P.performs program.now) (P.computes program.now) lines.now) }
{
    let mut replayed = opening(alloc, program)?;
    'lines: for at in 0..lines.len() {
        if let Some(rule) = step(alloc, program, &mut replayed, &lines[at])? {
            return Ok(Verdict::Breach {
                line: at as u32 + 1,
                rule,
            });
        }
    }
    Ok(Verdict::Legal)
}
