//! Performed operations, by place.

ghost use Rattle.std.specs.Prelude.{◌≡◌, OnErr, OnOk};
ghost use Rattle.std.specs.List.Sorted.{IsPermutation};
ghost use Rattle.book_law.specs.Performed.{IsBook};

use orca_base::NoMemory;
use value_core::Line;

/// A performed operation: its place, and its line.
#[derive(Debug, Drop)]
pub struct Placed {
    pub place: u64,
    pub line: Line,
}

/// Sorts what was performed, in order of events, into the book: whatever list, and whatever stands beside it, it is place by place
/// (`Performed`), the sorted lines are that book. Operations of one place keep their order.
///
/// Where there was no memory they stay as they were.
pub fn sort_by_place(performed: &mut Vec<Placed>) -> Result<(), NoMemory>
    ensures book { OnOk result (IsBook performed.old.items performed.new.items) }
    ensures same { IsPermutation performed.old.items performed.new.items }
    ensures err { OnErr result (performed.new.items ≡ performed.old.items) }
{
    performed.sort_by_key(|placed| placed.place)?;
    Ok(())
}
