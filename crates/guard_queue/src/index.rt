//! How many suspended calls are on each object.

ghost use Rattle.std.specs.Prelude.{◌≡◌, ◌<◌, ◌+◌, ◌-◌, ◌^◌, IfOk, OnOk, OnErr};
ghost use Rattle.std.specs.BTreeMap.{IsUnchanged};
ghost use Rattle.guard_queue.specs.Waits.{Indexes, indexed};

use orca_base::{NoMemory, ObjectId};
use std::collections::BTreeMap;

// One call more is on this object.
pub(crate) fn add_one(
    index: &mut BTreeMap<ObjectId, usize>,
    object: ObjectId,
) -> Result<(), NoMemory>
    requires { indexed index.old object < 2 ^ 63 }
    ensures ok { OnOk result (Indexes index.old object (indexed index.old object + 1) index.new) }
    ensures err { OnErr result (IsUnchanged index.old index.new) }
{
    let count = count_on(index, object);
    index.insert(object, count + 1)?;
    Ok(())
}

// One call less is on this object, on which one is.
pub(crate) fn take_one(index: &mut BTreeMap<ObjectId, usize>, object: ObjectId)
    requires { 0 < indexed index.old object }
    ensures { Indexes index.old object (indexed index.old object - 1) index.new }
{
    let count = count_on(index, object);
    if count == 1 {
        index.remove(&object);
    } else if let Some(kept) = index.get_mut(&object) {
        *kept = count - 1;
    }
}

// The same index.
pub(crate) fn index_copy(
    index: &BTreeMap<ObjectId, usize>,
) -> Result<BTreeMap<ObjectId, usize>, NoMemory>
    ensures { IfOk result (λ i. IsUnchanged index.now i) }
{
    Ok(index.clone()?)
}

// How many calls are on this object.
fn count_on(index: &BTreeMap<ObjectId, usize>, object: ObjectId) -> usize
    ensures { result ≡ indexed index.now object }
{
    match index.get(&object) {
        Some(count) => *count,
        None => 0,
    }
}
