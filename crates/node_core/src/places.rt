//! Lists with a place for each process, by its number; and what takes another's place.

ghost use Rattle.std.specs.Prelude.{◌≡◌, ◌<◌, ℕ, None, OnOk, Some, length, slice_index_or};
ghost use Rattle.group_rules.specs.Sets.{with_at};

use orca_base::NoMemory;

/// This value stands at this place, and the others as they were.
pub(crate) fn put_at<T: Drop>(
    list: &mut Vec<Option<T>>,
    place: usize,
    value: T,
) -> Result<(), NoMemory>
    ensures { OnOk result ((i : ℕ) → slice_index_or list.new.items i None
        ≡ with_at (λ j. slice_index_or list.old.items j None) place (Some value) i) }
{
    reach(list, place)?;
    set_at(list, place, value);
    Ok(())
}

/// The same of a place that is there: there are as many places afterwards.
pub(crate) fn set_at<T: Drop>(list: &mut Vec<Option<T>>, place: usize, value: T)
    requires { place < length list.old.items }
    ensures put { (i : ℕ) → slice_index_or list.new.items i None
        ≡ with_at (λ j. slice_index_or list.old.items j None) place (Some value) i }
    ensures places { length list.new.items ≡ length list.old.items }
{
    list[place] = Some(value);
}

// There is a place of this number.
fn reach<T: Drop>(list: &mut Vec<Option<T>>, place: usize) -> Result<(), NoMemory>
    ensures place { OnOk result (place < length list.new.items) }
    ensures same { (i : ℕ) → slice_index_or list.new.items i None ≡ slice_index_or list.old.items i None }
{
    'places: while list.len() <= place {
        list.push(None)?;
    }
    Ok(())
}
