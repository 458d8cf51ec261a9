//! Parts at the ends of paths through arrays and records. A path is `index LOW INDEX`, `field PLACE`, or `index LOW INDEX field PLACE`.
//!
//! - `part VALUE, PATH`: the part, or the fault.
//! - `put VALUE, PATH, PART`: what stood there, and the value with the part in its place, or the fault; and a copy from before, which
//!   shares its lists.
//! - `raise VALUE, PATH`: the integer there, to which 1 was added by two exchanges, or `none`; and the value.
//! - `zeros NUMBER, INDICES`: in an array of so many zeros from 1 on, 7 is put at each index in turn; what stood there, or the fault.

ghost use Rattle.value_core.specs.View.{datum_of};
ghost use Rattle.value_paths.specs.Paths.{CanStep, CanWalk};

use crate::value_rows::value_of;
use orca_base::{FaultKind, NoMemory, Refusal};
use row_files::{
    Row, RowError, add_part, flat, integer, integers, malformed, number_16, number_32, said, words,
};
use std::alloc::Global;
use value_core::{BoxedParts, Parts, Value};
use value_paths::{Step, part, paths_law};
use value_writes::replace_part;

/// What a row's call answers.
pub fn answer(alloc: Global, row: &Row<'_>) -> Result<String, RowError> {
    match (row.verb(), row.given()) {
        ("part", [value, path]) => {
            let value = value_of(alloc, value)?;
            part_text(alloc, &value, &path_of(alloc, path)?)
        }
        ("put", [value, path, part]) => {
            let value = value_of(alloc, value)?;
            let part = value_of(alloc, part)?;
            put(alloc, &value, &path_of(alloc, path)?, part)
        }
        ("raise", [value, path]) => {
            let mut value = value_of(alloc, value)?;
            let raised = raised_at_path(alloc, &mut value, &path_of(alloc, path)?);
            raised_text(alloc, raised, &value)
        }
        ("zeros", [number, indices]) => {
            let zeros = zeros(alloc, number_32(number)?)?;
            sevens(alloc, zeros, &integers(alloc, indices)?)
        }
        _ => malformed("no call"),
    }
}

/// A path through arrays and records.
#[derive(Clone, Copy)]
enum Path {
    Index { low: i64, index: i64 },
    Field { place: u16 },
    FieldOfPart { low: i64, index: i64, place: u16 },
}

fn path_of(alloc: Global, text: &str) -> Result<Path, RowError> {
    let given = words(alloc, text)?;
    match given.as_slice() {
        [first, low, index] if *first == "index" => Ok(Path::Index {
            low: integer(low)?,
            index: integer(index)?,
        }),
        [first, place] if *first == "field" => Ok(Path::Field {
            place: number_16(place)?,
        }),
        [first, low, index, then, place] if *first == "index" && *then == "field" => {
            Ok(Path::FieldOfPart {
                low: integer(low)?,
                index: integer(index)?,
                place: number_16(place)?,
            })
        }
        _ => malformed("no path"),
    }
}

// Puts a part at the end of a path, which can be walked as before.
fn exchanged(
    alloc: Global,
    value: &mut Value,
    path: &[Step],
    part: Value,
) -> Result<Value, Refusal<FaultKind>>
    requires { CanWalk path.now (datum_of value.old) }
    ensures { CanWalk path.now (datum_of value.new) }
{
    paths_law();
    replace_part(alloc, value, path, part)
}

// Adds 1 to the integer at the end of a path by two exchanges: it is taken out, with 0 in its place, and put back.
fn raised(alloc: Global, value: &mut Value, path: &[Step]) -> Option<i64>
    requires { CanWalk path.now (datum_of value.old) }
    ensures { CanWalk path.now (datum_of value.new) }
{
    let more = match &exchanged(alloc, value, path, Value::Int(0)) {
        Ok(Value::Int(number)) => number.wrapping_add(1),
        _ => return None,
    };
    match &exchanged(alloc, value, path, Value::Int(more)) {
        Ok(Value::Int(0)) => Some(more),
        _ => None,
    }
}

/// Adds 1 to the integer at one step, by two exchanges.
pub fn raised_at(alloc: Global, value: &mut Value, step: Step) -> Option<i64>
    requires { CanStep step (datum_of value.old) }
    ensures { CanStep step (datum_of value.new) }
{
    raised(alloc, value, &[step])
}

/// The integer at one step.
pub fn number_at(value: &Value, step: Step) -> Option<i64>
    requires { CanStep step (datum_of value.now) }
{
    match part(value, &[step]) {
        Ok(Value::Int(number)) => Some(*number),
        _ => None,
    }
}

// Puts a part at the end of a path.
fn put_at(
    alloc: Global,
    value: &mut Value,
    path: &Path,
    part: Value,
) -> Result<Value, Refusal<FaultKind>> {
    match *path {
        Path::Index { low, index } => exchanged(alloc, value, &[Step::Index { low, index }], part),
        Path::Field { place } => exchanged(alloc, value, &[Step::Field { place }], part),
        Path::FieldOfPart { low, index, place } => exchanged(
            alloc,
            value,
            &[Step::Index { low, index }, Step::Field { place }],
            part,
        ),
    }
}

// Adds 1 to the integer at the end of a path.
fn raised_at_path(alloc: Global, value: &mut Value, path: &Path) -> Option<i64> {
    match *path {
        Path::Index { low, index } => raised(alloc, value, &[Step::Index { low, index }]),
        Path::Field { place } => raised(alloc, value, &[Step::Field { place }]),
        Path::FieldOfPart { low, index, place } => raised(
            alloc,
            value,
            &[Step::Index { low, index }, Step::Field { place }],
        ),
    }
}

fn found_text(alloc: Global, found: Result<&Value, FaultKind>) -> Result<String, RowError> {
    match found {
        Ok(part) => flat::value_text(alloc, part),
        Err(fault) => Ok(format!(in alloc; "fault {fault:?}")?),
    }
}

fn part_text(alloc: Global, value: &Value, path: &Path) -> Result<String, RowError> {
    match *path {
        Path::Index { low, index } => {
            found_text(alloc, part(value, &[Step::Index { low, index }]))
        }
        Path::Field { place } => found_text(alloc, part(value, &[Step::Field { place }])),
        Path::FieldOfPart { low, index, place } => found_text(
            alloc,
            part(value, &[Step::Index { low, index }, Step::Field { place }]),
        ),
    }
}

// What stood where a part was put.
fn old_text(alloc: Global, old: &Result<Value, Refusal<FaultKind>>) -> Result<String, RowError> {
    match old {
        Ok(part) => flat::value_text(alloc, part),
        Err(Refusal::Because { cause }) => Ok(format!(in alloc; "fault {cause:?}")?),
        Err(Refusal::NoMemory) => Err(RowError::NoMemory),
    }
}

fn put(alloc: Global, value: &Value, path: &Path, part: Value) -> Result<String, RowError> {
    let mut changed = value.copy(alloc)?;
    let old = put_at(alloc, &mut changed, path, part);
    let old = old_text(alloc, &old)?;
    let changed = flat::value_text(alloc, &changed)?;
    let value = flat::value_text(alloc, value)?;
    Ok(format!(in alloc; "{old} of {changed} beside {value}")?)
}

fn raised_text(alloc: Global, raised: Option<i64>, value: &Value) -> Result<String, RowError> {
    let value = flat::value_text(alloc, value)?;
    match raised {
        Some(number) => Ok(format!(in alloc; "{number} of {value}")?),
        None => Ok(format!(in alloc; "none of {value}")?),
    }
}

// An array of so many zeros.
fn zeros(alloc: Global, number: u32) -> Result<Value, NoMemory> {
    let mut parts = Parts::new(alloc);
    for _ in 0..number {
        parts.push(Value::Int(0))?;
    }
    Ok(Value::Array(BoxedParts::new(alloc, parts)?))
}

fn sevens(alloc: Global, zeros: Value, indices: &[i64]) -> Result<String, RowError> {
    let mut array = zeros;
    let mut answer = String::new(alloc);
    for index in indices {
        let path = Path::Index {
            low: 1,
            index: *index,
        };
        let old = put_at(alloc, &mut array, &path, Value::Int(7));
        let old = old_text(alloc, &old)?;
        add_part(&mut answer, old.as_str())?;
    }
    if answer.is_empty() {
        return said(alloc, "no index");
    }
    Ok(answer)
}
