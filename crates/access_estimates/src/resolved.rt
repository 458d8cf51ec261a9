//! Uses of objects with names looked up.

/// What a use of an object does: it is read or written, passed to the function or process with a number at the top, as the parameter at a
/// position, or nothing that counts.
#[derive(Clone, Copy)]
pub enum Effect {
    Reads,
    Writes,
    Passed { number: usize, position: usize },
    Nothing,
}

/// What is done with the local at a position of a function or a process, and how often.
#[derive(Clone, Copy)]
pub struct ResolvedUse {
    pub position: usize,
    pub times: u64,
    pub effect: Effect,
}
