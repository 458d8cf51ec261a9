//! Many entries of one kind.

ghost use Rattle.std.specs.Prelude.{◌≡◌, ◌<◌, ◌+◌, OnOk};

use crate::entries::{BagCopies, BagView, Refused};
use crate::messages::{call, fork, make};
use bag_performer::Bags;
use orca_base::ObjectId;
use std::alloc::Global;

/// The object of process 0 with this number.
pub fn object(number: u32) -> ObjectId
    ensures { result ≡ record { process = 0; number = number } }
{
    ObjectId { process: 0, number }
}

/// Makes so many flags, each by an entry.
pub fn make_flags(alloc: Global, copies: &mut BagCopies, count: u32) -> Result<(), Refused>
    ensures { OnOk result (copies.new.applied ≡ copies.old.applied + count) }
{
    for number in 0..count {
        let id = object(number.wrapping_add(1));
        copies.entry(alloc, &make(0, u64::from(number), Bags::FLAG, id))?;
    }
    Ok(())
}

/// Makes so many single flags, whose states are kept elsewhere. The first one is the object with this number.
pub fn pass_flags(
    alloc: Global,
    copies: &mut BagCopies,
    first: u32,
    count: u32,
) -> Result<(), Refused>
    ensures { OnOk result (copies.new.applied ≡ copies.old.applied + count) }
{
    for number in 0..count {
        let id = object(first.wrapping_add(number));
        let message = make(0, u64::from(number), Bags::FLAG, id);
        copies.pass(alloc, &message, false)?;
    }
    Ok(())
}

/// Forks so many processes, each by an entry.
pub fn fork_many(alloc: Global, copies: &mut BagCopies, count: u16) -> Result<(), Refused>
    ensures { OnOk result (copies.new.applied ≡ copies.old.applied + count) }
{
    for number in 0..count {
        copies.entry(alloc, &fork(alloc, 0, u64::from(number), object(1), 10)?)?;
    }
    Ok(())
}

/// So many processes call, each by an entry, and wait until the first flag is `wanted`.
pub fn wait_many(
    alloc: Global,
    copies: &mut BagCopies,
    count: u16,
    wanted: i64,
) -> Result<(), Refused>
    ensures { OnOk result (copies.new.applied ≡ copies.old.applied + count) }
{
    for process in 0..count {
        let operation = (Bags::FLAG, Bags::AWAIT);
        copies.entry(
            alloc,
            &call(alloc, process, 0, operation, object(1), Some(wanted))?,
        )?;
    }
    Ok(())
}

/// Assigns to so many flags in turn, from the second on, so many times in all. With `views` a snapshot is taken after each
/// entry, and kept until the next one. The answer is how many lines ran.
pub fn set_many(
    alloc: Global,
    copies: &mut BagCopies,
    count: u32,
    flags: u32,
    views: bool,
) -> Result<u64, Refused>
    requires { 0 < flags }
    ensures { OnOk result (copies.new.applied ≡ copies.old.applied + count) }
{
    let mut lines = 0u64;
    let mut kept: Option<BagView> = None;
    for number in 0..count {
        let id = object((number % flags).wrapping_add(2));
        let operation = (Bags::FLAG, Bags::SET);
        let message = call(
            alloc,
            0,
            u64::from(number),
            operation,
            id,
            Some(i64::from(number)),
        )?;
        lines = lines.wrapping_add(copies.entry(alloc, &message)?.len() as u64);
        if views {
            kept = Some(copies.view(alloc)?);
        }
    }
    drop(kept);
    Ok(lines)
}

/// The first flag becomes `wanted`, so that those who wait for it go on. The answer is how many lines ran.
pub fn release(alloc: Global, copies: &mut BagCopies, wanted: i64) -> Result<usize, Refused>
    ensures { OnOk result (copies.new.applied ≡ copies.old.applied + 1) }
{
    let message = call(
        alloc,
        0,
        0,
        (Bags::FLAG, Bags::SET),
        object(1),
        Some(wanted),
    )?;
    Ok(copies.entry(alloc, &message)?.len())
}
