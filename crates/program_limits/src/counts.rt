//! Sums of counts.

ghost use Rattle.std.specs.Prelude.{◌≡◌, ◌+◌, IfOk};

use orca_base::NoMemory;

// Both counts together. More than 64 bits count is more than memory holds.
pub(crate) fn both(one: u64, other: u64) -> Result<u64, NoMemory>
    ensures { IfOk result (λ n. n ≡ one + other) }
{
    one.checked_add(other).ok_or(NoMemory)
}
