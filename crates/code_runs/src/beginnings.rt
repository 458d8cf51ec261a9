//! Where bodies begin.

ghost use Rattle.std.specs.Prelude.{◌≡◌, IfOk, drop, take};
ghost use Rattle.value_core.specs.Datum.{list_of};
ghost use Rattle.code_rules.specs.Performing.{begun};
ghost use Rattle.code_steps.specs.Bodies.{config_of, number_of};

use code_steps::{BodyNo, Config, Operands};
use frame_variables::{Frame, Run};
use orca_base::{NoMemory, ProcessNo};
use std::alloc::Global;
use value_core::{Parts, Value};

/// Who makes no object has no number.
pub const NOBODY: ProcessNo = ProcessNo(0);

/// A body begins at an address, with these values in its slots.
///
/// # Errors
/// Want of memory.
pub fn begin<'a>(
    alloc: Global,
    process: ProcessNo,
    body: BodyNo,
    address: usize,
    slots: Parts,
) -> Result<Config<'a>, NoMemory>
    ensures { IfOk result (λ c. config_of c ≡ begun process (number_of body) address (list_of slots)) }
{
    let frame = Frame::new(alloc, slots)?;
    Ok(Config {
        process,
        body,
        pc: address,
        stack: Operands::new(alloc),
        run: Run {
            frame,
            replies: &[],
            left: 0,
        },
        callers: Vec::new(alloc),
    })
}

/// What stands behind so many of these values.
pub fn values_behind(values: &[Value], count: usize) -> &[Value]
    ensures { result.now ≡ drop count values.now }
{
    if count < values.len() {
        &values[count..]
    } else {
        &[]
    }
}

/// The first of these values, so many of them at most.
pub fn values_in_front(values: &[Value], count: usize) -> &[Value]
    ensures { result.now ≡ take count values.now }
{
    if count < values.len() {
        &values[..count]
    } else {
        values
    }
}
