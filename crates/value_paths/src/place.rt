//! Places of parts in arrays.

ghost use Rattle.std.specs.Prelude.{◌≡◌};
ghost use Rattle.value_ops.specs.Sizes.{place_of};

use orca_base::FaultKind;

// The place from 0 of the part at an index, in an array with so many parts from a low bound on.
pub(crate) fn place_of(count: usize, low: i64, index: i64) -> Result<usize, FaultKind>
    ensures { result ≡ place_of count low index }
{
    if index < low {
        return Err(FaultKind::IndexOutside);
    }
    let place = index.abs_diff(low);
    if place < count as u64 {
        Ok(place as usize)
    } else {
        Err(FaultKind::IndexOutside)
    }
}
