//! What comes of an answer.

/// What came of an answer.
#[derive(Clone, Copy, Debug, PartialEq, Eq)]
pub enum Joined {
    /// The member gathers no answers for that incarnation.
    Stale,
    /// So many members answered, itself included, and so many have to.
    Waiting { have: u8, need: u8 },
    /// The log that it would install lacks so many first entries, and it has applied fewer: it takes no part any more.
    GaveUp { base: u64, applied: u64 },
    /// It installed the incarnation.
    Installed,
}
