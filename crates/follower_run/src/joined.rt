//! What a run leaves beside which a follower went.

use group_join::Follower;
use run_loop::Ran;

/// What a run leaves beside which a follower went.
#[derive(Drop)]
pub struct Joined {
    /// What the run itself leaves.
    pub ran: Ran,
    /// Where the follower ended; none where there was no memory to begin.
    pub follower: Option<FollowerLeft>,
}

/// Where a follower ended.
#[derive(Drop)]
pub struct FollowerLeft {
    /// The follower, with its copies.
    pub follower: Follower,
    /// How many states it took.
    pub states: u32,
    /// How many entries the member had applied that was ahead; where none lived that wasn't outside, the most that any had.
    pub last: u64,
    /// Whether all rounds were done: not where memory lacked.
    pub whole: bool,
}
