//! Where a follower ended, as it is kept, and its line.

ghost use Rattle.std.specs.Prelude.{◌≡◌, IfOk};
ghost use Rattle.join_command.specs.Asked.{follower_line};
ghost use Rattle.join_command.specs.Joined.{IsKeptEnd};

use follower_run::FollowerLeft;
use guard_queue::Objects;
use orca_base::NoMemory;
use std::alloc::Global;

/// Where a follower ended, as it is kept.
#[derive(Drop)]
pub struct FollowerEnd {
    /// How many entries it applied.
    pub applied: u64,
    /// How many states it took.
    pub states: u32,
    /// The objects of its copies.
    pub copies: Objects,
}

/// What is kept of a follower.
pub(crate) fn kept_end(alloc: Global, left: &FollowerLeft) -> Result<FollowerEnd, NoMemory>
    ensures { IfOk result (IsKeptEnd left.now) }
{
    Ok(FollowerEnd {
        applied: left.follower.applied(),
        states: left.states,
        copies: left.follower.copies().objects().copy(alloc)?,
    })
}

/// The line that says how far a follower came.
pub(crate) fn line_of(alloc: Global, left: &FollowerLeft) -> Result<Vec<u8>, NoMemory>
    ensures { IfOk result (λ line. line.items ≡ follower_line left.now.follower.applied left.now.last) }
{
    follower_line(alloc, left.follower.applied(), left.last)
}

// A follower applied so many entries of so many.
fn follower_line(alloc: Global, applied: u64, last: u64) -> Result<Vec<u8>, NoMemory>
    ensures { IfOk result (λ line. line.items ≡ follower_line applied last) }
{
    let line = format!(in alloc; "follower applied {applied} of {last}\n")?;
    Ok(line.into_bytes())
}
