//! Sets and bags, filled with integers one after the other.
//!
//! - `set NUMBERS`, `bag NUMBERS`: what is in it then. With a second field, a row of deeds is done, and each tells
//!   something: `delete NUMBER` what is left, `take` the least and what is left, or the fault, `count` how many there
//!   are, `in NUMBER` whether it is there.

ghost use Rattle.std.specs.Prelude.{IfOk};
ghost use Rattle.value_core.specs.View.{datum_of};
ghost use Rattle.value_ops.specs.Elements.{IsInOrder};

use orca_base::{NoMemory, Refusal};
use row_files::{Row, RowError, add_part, flat, integer, integers, malformed, said};
use std::alloc::Global;
use value_core::{BoxedParts, Parts, Value};
use value_ops::{contains, count, delete, insert, is_in, take_least};

/// What a row's call answers.
pub fn answer(alloc: Global, row: &Row<'_>) -> Result<String, RowError> {
    let is_bag = match row.verb() {
        "set" => false,
        "bag" => true,
        _ => return malformed("no call"),
    };
    match row.given() {
        [numbers] => {
            let all = filled(alloc, is_bag, &integers(alloc, numbers)?)?;
            flat::value_text(alloc, &all)
        }
        [numbers, deeds] => {
            let all = filled(alloc, is_bag, &integers(alloc, numbers)?)?;
            done_all(alloc, all, deeds)
        }
        _ => malformed("no call"),
    }
}

// An empty set or bag.
fn nothing(alloc: Global, is_bag: bool) -> Result<Value, NoMemory>
    ensures { IfOk result (λ v. IsInOrder (datum_of v)) }
{
    let parts = BoxedParts::new(alloc, Parts::new(alloc))?;
    if is_bag {
        Ok(Value::Bag(parts))
    } else {
        Ok(Value::Set(parts))
    }
}

// Puts these integers into a set or bag, one after the other.
fn filled(alloc: Global, is_bag: bool, numbers: &[i64]) -> Result<Value, NoMemory>
    ensures { IfOk result (λ v. IsInOrder (datum_of v)) }
{
    let mut all = nothing(alloc, is_bag)?;
    for number in numbers {
        insert(alloc, &mut all, Value::Int(*number))?;
    }
    Ok(all)
}

// The deeds one after the other.
fn done_all(alloc: Global, filled: Value, deeds: &str) -> Result<String, RowError>
    requires { IsInOrder (datum_of filled) }
{
    let mut all = filled;
    let mut answer = String::new(alloc);
    for deed in deeds.split(", ") {
        let told = done(alloc, &mut all, deed)?;
        add_part(&mut answer, told.as_str())?;
    }
    Ok(answer)
}

// One deed.
fn done(alloc: Global, all: &mut Value, deed: &str) -> Result<String, RowError>
    requires { IsInOrder (datum_of all.old) }
    ensures { IsInOrder (datum_of all.new) }
{
    match deed {
        "take" => taken(alloc, all),
        "count" => counted(alloc, all),
        _ => match deed.split_once(' ') {
            Some(("delete", number)) => deleted(alloc, all, integer(number)?),
            Some(("in", number)) => said(alloc, has_text(all, integer(number)?)),
            _ => malformed("no deed"),
        },
    }
}

fn taken(alloc: Global, all: &mut Value) -> Result<String, RowError>
    requires { IsInOrder (datum_of all.old) }
    ensures { IsInOrder (datum_of all.new) }
{
    let least = match take_least(alloc, all) {
        Ok(least) => flat::value_text(alloc, &least)?,
        Err(Refusal::Because { cause }) => format!(in alloc; "fault {cause:?}")?,
        Err(Refusal::NoMemory) => return Err(RowError::NoMemory),
    };
    let left = flat::value_text(alloc, all)?;
    Ok(format!(in alloc; "{least} of {left}")?)
}

fn deleted(alloc: Global, all: &mut Value, number: i64) -> Result<String, RowError>
    requires { IsInOrder (datum_of all.old) }
    ensures { IsInOrder (datum_of all.new) }
{
    delete(alloc, all, &Value::Int(number))?;
    flat::value_text(alloc, all)
}

fn counted(alloc: Global, all: &Value) -> Result<String, RowError> {
    match all {
        Value::Set(parts) | Value::Bag(parts) => {
            if parts.as_parts().len() > 1_000 {
                return malformed("too many elements");
            }
            Ok(format!(in alloc; "{}", count(all))?)
        }
        _ => malformed("no set"),
    }
}

// Whether a bag has an integer by its parts.
fn holds(all: &Value, number: i64) -> bool
    requires { IsInOrder (datum_of all.now) }
{
    match all {
        Value::Bag(parts) => contains(parts.as_parts(), &Value::Int(number)),
        _ => is_in(&Value::Int(number), all),
    }
}

// Whether an integer is there, in words.
fn has_text(all: &Value, number: i64) -> &'static str
    requires { IsInOrder (datum_of all.now) }
{
    match (is_in(&Value::Int(number), all), holds(all, number)) {
        (true, true) => "true",
        (false, false) => "false",
        _ => "otherwise by its parts",
    }
}
