//! Members and processes as a run leaves them.

use orca_base::FaultKind;

/// A member.
#[derive(Clone, Copy)]
pub struct Member {
    /// How many entries it applied.
    pub applied: u64,
    /// The incarnation that it installed last.
    pub incarnation: u64,
    pub crashed: bool,
    /// Whether it is outside the group.
    pub outside: bool,
}

/// A process.
#[derive(Clone, Copy)]
pub struct Process {
    /// Its member.
    pub node: u8,
    /// How many replies it received.
    pub replies: usize,
    /// How many turns it took.
    pub turns: u64,
    pub standing: Standing,
}

/// Where a process stands.
#[derive(Clone, Copy)]
pub enum Standing {
    /// It ran all its statements.
    Ended,
    /// It ended by this fault.
    Faulted { fault: FaultKind },
    /// It is at an action, and has received no reply to it.
    Waits,
    /// It computes, or its member hasn't begun it.
    Busy,
    /// Its member crashed before it ended.
    Crashed,
}
