//! Copies of pools and flags, and the tables and queues that they are made of.
//!
//! - `deeds DEEDS`: what comes of each (`object_deeds.rt`).
//! - `entries FLAGS`: flags, each `NUMBER INTEGER`, put one after the other into a table of objects; its entries in
//!   order.
//! - `shared NUMBER`: so many flags, put with a copy kept from before each, and without: how many there are, how many
//!   in the tenth copy, whether both tables are alike, and whether they still are when another is put.
//! - `queue PROCESSES`: calls of these processes wait; who is first, whether the first and the second still wait when
//!   the first was taken out, and how many wait in a copy from before.

use crate::object_deeds::Stage;
use bag_copies::object;
use bag_performer::Bags;
use guard_queue::{Objects, Queue, Suspended};
use orca_base::{CallNo, NoMemory, ProcessNo};
use row_files::{Row, RowError, add_part, integer, malformed, number_16, number_32, words};
use std::alloc::Global;
use value_core::{Instance, Parts, Value};

/// What a row's call answers.
pub fn answer(alloc: Global, row: &Row<'_>) -> Result<String, RowError> {
    match (row.verb(), row.given()) {
        ("deeds", [deeds]) => done_all(alloc, deeds),
        ("entries", [flags]) => entries(alloc, flags),
        ("shared", [number]) => shared(alloc, number_32(number)?),
        ("queue", [first, second]) => queue(alloc, number_16(first)?, number_16(second)?),
        _ => malformed("no call"),
    }
}

// The deeds one after the other.
fn done_all(alloc: Global, deeds: &str) -> Result<String, RowError> {
    let mut stage = Stage::new(alloc)?;
    let mut answer = String::new(alloc);
    for deed in deeds.split(", ") {
        let told = stage.done(alloc, deed)?;
        add_part(&mut answer, told.as_str())?;
    }
    Ok(answer)
}

// A flag with this integer becomes the object with this number.
fn put_flag(alloc: Global, objects: &mut Objects, number: u32, value: i64) -> Result<(), NoMemory> {
    let mut state = Parts::new(alloc);
    state.push(Value::Int(value))?;
    let flag = Instance {
        kind: Bags::FLAG,
        state,
    };
    objects.put(alloc, object(number), flag)?;
    Ok(())
}

// Flags, each put by its number.
fn flags_of(alloc: Global, flags: &str) -> Result<Objects, RowError> {
    let mut objects = Objects::new(alloc)?;
    for flag in flags.split(", ") {
        let flag = words(alloc, flag)?;
        let [number, value] = flag.as_slice() else {
            return malformed("no flag");
        };
        put_flag(alloc, &mut objects, number_32(number)?, integer(value)?)?;
    }
    Ok(objects)
}

// A flag's integer, or `another`.
fn flag_text(alloc: Global, flag: &Instance) -> Result<String, RowError> {
    match flag.state.as_slice() {
        [Value::Int(number)] => Ok(format!(in alloc; "{number}")?),
        _ => malformed("no flag"),
    }
}

fn entries(alloc: Global, flags: &str) -> Result<String, RowError> {
    let objects = flags_of(alloc, flags)?;
    let mut answer = String::new(alloc);
    for (object, flag) in &objects.entries(alloc)? {
        let flag = flag_text(alloc, flag)?;
        let entry = format!(in alloc; "{} {flag}", object.number)?;
        add_part(&mut answer, entry.as_str())?;
    }
    Ok(answer)
}

// So many flags, each with its number.
fn numbered(alloc: Global, count: u32) -> Result<Objects, NoMemory> {
    let mut objects = Objects::new(alloc)?;
    for number in 0..count {
        put_flag(
            alloc,
            &mut objects,
            number.saturating_add(1),
            i64::from(number),
        )?;
    }
    Ok(objects)
}

// The same, and a copy from before each came.
fn numbered_with_copies(alloc: Global, count: u32) -> Result<(Objects, Vec<Objects>), NoMemory> {
    let mut objects = Objects::new(alloc)?;
    let mut before = Vec::new(alloc);
    for number in 0..count {
        before.push(objects.copy(alloc)?)?;
        put_flag(
            alloc,
            &mut objects,
            number.saturating_add(1),
            i64::from(number),
        )?;
    }
    Ok((objects, before))
}

fn shared(alloc: Global, count: u32) -> Result<String, RowError> {
    let alone = numbered(alloc, count)?;
    let (mut shared, before) = numbered_with_copies(alloc, count)?;
    let before = match before.get(10) {
        Some(objects) => objects.len(),
        None => return malformed("too few flags"),
    };
    let was_alike = shared.is(&alone);
    put_flag(alloc, &mut shared, 7, 0)?;
    let is_alike = shared.is(&alone);
    Ok(format!(in alloc;
        "{} objects, {before} before, {was_alike}, {is_alike}",
        shared.len()
    )?)
}

// A call of this process that waits.
fn waits(alloc: Global, process: u16) -> Result<Suspended, NoMemory> {
    let mut args = Parts::new(alloc);
    args.push(Value::Int(9))?;
    Ok(Suspended {
        process: ProcessNo(process),
        call: CallNo(0),
        kind: Bags::FLAG,
        op: Bags::AWAIT,
        object: object(1),
        args,
    })
}

fn queue(alloc: Global, first: u16, second: u16) -> Result<String, RowError> {
    let mut queue = Queue::new(alloc);
    let was_empty = queue.is_empty();
    queue.push(alloc, waits(alloc, first)?)?;
    queue.push(alloc, waits(alloc, second)?.copy(alloc)?)?;
    let twin = queue.copy(alloc)?;
    if queue.len() != 2 {
        return malformed("not two calls");
    }
    let oldest = queue.get(0).process.0;
    queue.take_out(0);
    let has_first = queue.has(ProcessNo(first));
    let has_second = queue.has(ProcessNo(second));
    let before = twin.len();
    Ok(format!(in alloc; "{was_empty}, {oldest}, {has_first}, {has_second}, {before}")?)
}
