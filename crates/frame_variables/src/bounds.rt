//! Upper bounds of the sizes of values, by the places of these.

ghost use Rattle.std.specs.Prelude.{◌≡◌, ◌<◌, ◌≤◌, ◌+◌, List, OnOk, Some, length, slice_get, slice_set};
ghost use Rattle.orca_base.specs.declared.limits.TheConstants.{VALUE_SIZE};
ghost use Rattle.value_core.specs.Datum.{Datum};
ghost use Rattle.frame_variables.specs.Bounded.{AreWithin, IsWithin};

use orca_base::{NoMemory, VALUE_SIZE};
use std::alloc::Global;
use std::marker::Model;

/// What stands for a bound that isn't known, as each does that is above the limit of variables.
pub const UNKNOWN: u32 = VALUE_SIZE + 1;

// What has no more parts than this is counted as fast as its bound is found, so none is kept.
const FEW: u32 = 16;

/// Bounds of the first of a row of values; of the others none is known. Clauses see it as the list of these.
///
/// A row whose values have few parts each takes no memory, and where there is none for a bound, it isn't known.
#[derive(Drop)]
pub struct Bounds {
    known: Vec<u32>,
}

impl Model for Bounds {
    ghost use Rattle.std.specs.Prelude.{List, ℕ};

    ghost Value = { List ℕ };

    ghost view = { λ b. b.known.items };
}

// There is a bound for the value at this place.
fn reach(known: &mut Vec<u32>, slot: usize) -> Result<(), NoMemory>
    ensures place { OnOk result (slot < length known.new.items) }
    ensures same { (values : List Datum) → AreWithin known.old.items values → AreWithin known.new.items values }
{
    'places: while known.len() <= slot {
        known.push(UNKNOWN)?;
    }
    Ok(())
}

impl Bounds {
    /// No bounds. It takes no memory.
    pub fn new(alloc: Global) -> Bounds
        ensures { (values : List Datum) → AreWithin result values }
    {
        Bounds {
            known: Vec::new(alloc),
        }
    }

    /// The bound of the value at this place from 0, or `UNKNOWN`.
    pub fn get(&self, slot: usize) -> u32
        ensures { (values : List Datum) (v : Datum) → AreWithin self.now values → slice_get values slot ≡ Some v → IsWithin result v }
    {
        match self.known.get(slot) {
            Some(bound) => *bound,
            None => UNKNOWN,
        }
    }

    /// The value at this place from 0 has this bound. It is kept where it tells something that isn't counted as fast.
    pub fn note(&mut self, slot: usize, bound: u32)
        ensures { (values : List Datum) → AreWithin self.old values → ((v : Datum) → slice_get values slot ≡ Some v → IsWithin bound v) →
            AreWithin self.new values }
    {
        if bound <= FEW || bound > VALUE_SIZE {
            return;
        }
        if reach(&mut self.known, slot).is_ok() {
            self.known[slot] = bound;
        }
    }

    /// Another value comes to this place from 0.
    pub fn forget(&mut self, slot: usize)
        ensures { (values : List Datum) (v : Datum) → AreWithin self.old values → AreWithin self.new (slice_set values slot v) }
    {
        if slot < self.known.len() {
            self.known[slot] = UNKNOWN;
        }
    }

    /// Other values come to all places.
    pub fn clear(&mut self)
        ensures { (values : List Datum) → AreWithin self.new values }
    {
        self.known.clear();
    }
}

/// The bound of what had this bound, when so much came and so much went.
pub fn grown(bound: u32, more: u32, less: u32) -> u32
    ensures { result ≤ VALUE_SIZE → (bound ≤ VALUE_SIZE) × (more ≤ VALUE_SIZE) × (bound + more ≤ result + less) }
{
    if bound > VALUE_SIZE || more > VALUE_SIZE {
        return UNKNOWN;
    }
    (bound + more).saturating_sub(less)
}
