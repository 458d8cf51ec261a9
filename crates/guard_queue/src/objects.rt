//! Objects by their ids.

ghost use Rattle.std.specs.Prelude.{◌≡◌, ◌<◌, ◌≤◌, ◌+◌, ◌↔◌, [], IfOk, IsTrue, OnOk, OnErr, false, if◌then◌else◌, is_some, length};
ghost use Rattle.std.specs.Option.{option_copied};
ghost use Rattle.std.specs.Arc.{arc_value};
ghost use Rattle.value_core.specs.History.{object_at, with_object};
ghost use Rattle.guard_queue.specs.Shown.{HasAll, Rises, shown, shown_objects, written, written_at, written_objects};

use orca_base::{NoMemory, ObjectId};
use std::alloc::Global;
use std::collections::BTreeMap;
use std::marker::Model;
use std::sync::Arc;
use value_core::Instance;

/// The most writes that stand beside a shared map of few objects: a look goes over them, and a copy counts them.
const WRITES: usize = 32;

/// The most that stand beside one of many, since a copy of that costs more than they do.
const WRITES_OF_MANY: usize = 64;

/// From here on objects are many.
const MANY: usize = 1024;

/// Objects by their ids, which clauses see as their entries in order.
///
/// They are a map that copies and snapshots share, and the writes since, at most 64. A copy costs a count for the map and one
/// for each of these writes; a write is a push. Where nobody else has the map the writes go into it in place, and else, when
/// they get too many, into a copy of it, which shares each object.
#[derive(Drop)]
pub struct Objects {
    shared: Arc<BTreeMap<ObjectId, Arc<Instance>>>,
    recent: Vec<Write>,
    count: usize,
}

/// An object that was put in.
#[derive(Drop)]
struct Write {
    object: ObjectId,
    kept: Arc<Instance>,
}

impl Model for Objects {
    ghost use Rattle.std.specs.Prelude.{List, ◌≡◌, ◌≤◌, length};
    ghost use Rattle.std.specs.Arc.{arc_value};
    ghost use Rattle.guard_queue.specs.Shown.{Rises, shown};
    ghost use Rattle.orca_base.specs.declared.ids.ObjectId.{ObjectId};
    ghost use Rattle.value_core.specs.declared.action.Instance.{Instance};

    ghost Value = { List (ObjectId × Instance) };

    ghost use Rattle.std.specs.Coded.{codes};
    ghost use Rattle.value_core.specs.Code.{data_code};

    ghost coded = { Prim.hlevel (codes, data_code) };

    ghost view = { λ o. shown (arc_value o.shared) o.recent.items };

    // The ids rise, the count is right, and there are no more writes than may stand beside the map.
    ghost invariant = { λ o.
        Rises (shown (arc_value o.shared) o.recent.items) × (o.count ≡ length (shown (arc_value o.shared) o.recent.items))
        × (length o.recent.items ≤ 64) };
}

impl Objects {
    /// No objects.
    pub fn new(alloc: Global) -> Result<Objects, NoMemory>
        ensures { IfOk result (λ o. o ≡ []) }
    {
        Ok(Objects {
            shared: Arc::new(alloc, BTreeMap::new(alloc))?,
            recent: Vec::new(alloc),
            count: 0,
        })
    }

    /// The object with this id, if there is one.
    pub fn get(&self, object: ObjectId) -> Option<&Instance>
        ensures { option_copied result ≡ object_at self.now object }
    {
        match last_write(&self.recent, object) {
            Some(kept) => Some(kept),
            None => find(&self.shared, object),
        }
    }

    /// How many objects there are. Their ids rise.
    pub fn len(&self) -> usize
        ensures count { result ≡ length self.now }
        ensures ids { Rises self.now }
    {
        self.count
    }

    /// Puts an object in, in place of the one with this id where there is one.
    pub fn put(&mut self, alloc: Global, object: ObjectId, kept: Instance) -> Result<(), NoMemory>
        ensures ok { OnOk result (self.new ≡ with_object self.old object kept) }
        ensures err { OnErr result (self.new ≡ self.old) }
    {
        let kept = Arc::new(alloc, kept)?;
        let count = self.count_with(object)?;
        gather(alloc, &mut self.shared, &mut self.recent)?;
        self.recent.push(Write { object, kept })?;
        self.count = count;
        Ok(())
    }

    /// Puts the writes since into the map, where nobody else has it, or where they are too many to stand beside it.
    pub(crate) fn gather(&mut self, alloc: Global) -> Result<(), NoMemory>
        ensures { self.new ≡ self.old }
    {
        gather(alloc, &mut self.shared, &mut self.recent)
    }

    /// Whether both have the same objects: equal writes beside equal maps are looked for first.
    pub fn is(&self, other: &Objects) -> bool
        ensures { IsTrue result ↔ (self.now ≡ other.now) }
    {
        if self.stands_as(other) {
            return true;
        }
        if self.len() != other.len() {
            return false;
        }
        self.has_all(other) && other.has_all(self)
    }

    /// Equal objects, which are shared with these.
    pub fn copy(&self, alloc: Global) -> Result<Objects, NoMemory>
        ensures { IfOk result (λ o. o ≡ self.now) }
    {
        Ok(Objects {
            shared: Arc::try_clone(&self.shared)?,
            recent: writes_copy(alloc, &self.recent)?,
            count: self.count,
        })
    }

    /// The objects with their ids, in order.
    pub fn entries(&self, alloc: Global) -> Result<Vec<(ObjectId, Instance)>, NoMemory>
        ensures { IfOk result (λ all. all.items ≡ self.now) }
    {
        let mut map = entries_copy(&self.shared)?;
        let mut recent = writes_copy(alloc, &self.recent)?;
        write_all(&mut map, &mut recent)?;
        entries_of(alloc, &map)
    }

    // How many objects there are once one with this id was put in.
    fn count_with(&self, object: ObjectId) -> Result<usize, NoMemory>
        ensures { IfOk result (λ n. n ≡ (if is_some (object_at self.now object) then length self.now else length self.now + 1)) }
    {
        match self.get(object) {
            Some(_) => Ok(self.count),
            None => self.count.checked_add(1).ok_or(NoMemory),
        }
    }

    // Whether both have equal writes beside equal maps, and so the same objects.
    fn stands_as(&self, other: &Objects) -> bool
        ensures { IsTrue result → self.now ≡ other.now }
    {
        same_writes(&self.recent, &other.recent) && same_entries(&self.shared, &other.shared)
    }

    // Whether each object of the other's is the same here.
    fn has_all(&self, other: &Objects) -> bool
        ensures yes { IsTrue result → HasAll self.now other.now }
        ensures no { result ≡ false → self.now ≡ other.now → ⊥ }
    {
        for (object, _) in other.shared.iter() {
            if !self.is_at(other, *object) {
                return false;
            }
        }
        for write in &other.recent {
            if !self.is_at(other, write.object) {
                return false;
            }
        }
        true
    }

    // Whether both have the same at this id.
    fn is_at(&self, other: &Objects, object: ObjectId) -> bool
        ensures { IsTrue result ↔ (object_at self.now object ≡ object_at other.now object) }
    {
        match (self.get(object), other.get(object)) {
            (Some(one), Some(two)) => one == two,
            (None, None) => true,
            _ => false,
        }
    }
}

// The object that the last write to this id put in, if there is one.
fn last_write(recent: &[Write], object: ObjectId) -> Option<&Instance>
    ensures { option_copied result ≡ written_at (written_objects recent.now) object }
{
    let mut left = recent.len();
    'writes: while left > 0 {
        left -= 1;
        if recent[left].object == object {
            return Some(&recent[left].kept);
        }
    }
    None
}

// The object with this id in the map, if there is one.
fn find(map: &BTreeMap<ObjectId, Arc<Instance>>, object: ObjectId) -> Option<&Instance>
    ensures { option_copied result ≡ object_at (shown_objects map.now.entries) object }
{
    match map.get(&object) {
        Some(kept) => Some(kept),
        None => None,
    }
}

// The most writes that stand beside a map of so many objects.
fn most_beside(objects: usize) -> usize
    ensures { result ≤ 64 }
{
    if objects < MANY {
        WRITES
    } else {
        WRITES_OF_MANY
    }
}

// Puts the writes into the map, where nobody else has it, or where they are too many to stand beside it.
fn gather(
    alloc: Global,
    shared: &mut Arc<BTreeMap<ObjectId, Arc<Instance>>>,
    recent: &mut Vec<Write>,
) -> Result<(), NoMemory>
    ensures same { shown (arc_value shared.new) recent.new.items ≡ shown (arc_value shared.old) recent.old.items }
    ensures room { OnOk result (length recent.new.items < 64) }
    ensures fewer { length recent.new.items ≤ length recent.old.items }
{
    let are_many = recent.len() >= most_beside(shared.len());
    if are_many && Arc::strong_count(shared) > 1 {
        *shared = Arc::new(alloc, entries_copy(shared)?)?;
    }
    match Arc::get_mut(shared) {
        Some(map) => write_all(map, recent),
        None if are_many => Err(NoMemory),
        None => Ok(()),
    }
}

// Puts the writes into the map, the first one first. Where memory lacks, those that are left stay beside it.
fn write_all(
    map: &mut BTreeMap<ObjectId, Arc<Instance>>,
    recent: &mut Vec<Write>,
) -> Result<(), NoMemory>
    ensures same { shown map.new recent.new.items ≡ shown map.old recent.old.items }
    ensures all { OnOk result (recent.new.items ≡ []) }
    ensures fewer { length recent.new.items ≤ length recent.old.items }
{
    'writes: while let Some(write) = recent.first() {
        map.insert(write.object, Arc::try_clone(&write.kept)?)?;
        recent.remove(0);
    }
    Ok(())
}

// A map of its own with the same objects, which are shared.
fn entries_copy(
    map: &BTreeMap<ObjectId, Arc<Instance>>,
) -> Result<BTreeMap<ObjectId, Arc<Instance>>, NoMemory>
    ensures { IfOk result (λ m. shown_objects m.entries ≡ shown_objects map.now.entries) }
{
    Ok(map.clone()?)
}

// The objects of a map with their ids, in order.
fn entries_of(
    alloc: Global,
    map: &BTreeMap<ObjectId, Arc<Instance>>,
) -> Result<Vec<(ObjectId, Instance)>, NoMemory>
    ensures { IfOk result (λ all. all.items ≡ shown_objects map.now.entries) }
{
    let mut all = Vec::new(alloc);
    for (object, kept) in map.iter() {
        all.push((*object, kept.copy(alloc)?))?;
    }
    Ok(all)
}

// Equal writes, whose objects are shared.
fn writes_copy(alloc: Global, recent: &[Write]) -> Result<Vec<Write>, NoMemory>
    ensures writes { IfOk result (λ all. written_objects all.items ≡ written_objects recent.now) }
    ensures count { IfOk result (λ all. length all.items ≡ length recent.now) }
{
    let mut all = Vec::new(alloc);
    for write in recent {
        let kept = Arc::try_clone(&write.kept)?;
        all.push(Write {
            object: write.object,
            kept,
        })?;
    }
    Ok(all)
}

// Whether both maps have the same objects.
fn same_entries(
    one: &BTreeMap<ObjectId, Arc<Instance>>,
    other: &BTreeMap<ObjectId, Arc<Instance>>,
) -> bool
    ensures { IsTrue result ↔ (shown_objects one.now.entries ≡ shown_objects other.now.entries) }
{
    one == other
}

// Whether both have the same writes.
fn same_writes(one: &[Write], other: &[Write]) -> bool
    ensures { IsTrue result → written_objects one.now ≡ written_objects other.now }
{
    if one.len() != other.len() {
        return false;
    }
    for i in 0..one.len() {
        if !one[i].is(&other[i]) {
            return false;
        }
    }
    true
}

impl Write {
    // Whether both put the same object in.
    fn is(&self, other: &Write) -> bool
        ensures { IsTrue result ↔ (written self.now ≡ written other.now) }
    {
        self.object == other.object && self.kept == other.kept
    }
}
