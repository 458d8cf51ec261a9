//! What slots hold: where a body begins, and what is left of it where it ends.

ghost use Rattle.std.specs.Prelude.{◌≡◌, ◌++◌, IfOk, OnOk, map, pos, replicate, take};
ghost use Rattle.value_core.specs.Datum as datum;
ghost use Rattle.value_core.specs.Datum.{list_of};
ghost use Rattle.value_core.specs.View.{datum_of};

use frame_variables::Frame;
use orca_base::NoMemory;
use std::alloc::Global;
use value_core::{Parts, Value};

/// Puts copies of values behind others, whose lists are shared.
///
/// # Errors
/// Want of memory.
pub fn add_copies(alloc: Global, values: &[Value], all: &mut Parts) -> Result<(), NoMemory>
    ensures { OnOk result (list_of all.new ≡ list_of all.old ++ map datum_of values.now) }
{
    'values: for value in values {
        all.push(value.copy(alloc)?)?;
    }
    Ok(())
}

/// Puts so many zeros behind values, for the slots of loops.
///
/// # Errors
/// Want of memory.
pub fn add_spare(count: usize, all: &mut Parts) -> Result<(), NoMemory>
    ensures { OnOk result (list_of all.new ≡ list_of all.old ++ replicate count (datum.int (pos 0))) }
{
    'spare: for _slot in 0..count {
        all.push(Value::Int(0))?;
    }
    Ok(())
}

/// The first of the values that slots hold, so many of them at most.
///
/// # Errors
/// Want of memory.
pub fn first_values(alloc: Global, frame: Frame<'_>, count: usize) -> Result<Vec<Value>, NoMemory>
    ensures { IfOk result (λ v. map datum_of v.items ≡ take count frame.entry) }
{
    let mut values = frame.into_values(alloc)?.into_vec();
    values.truncate(count);
    Ok(values)
}
