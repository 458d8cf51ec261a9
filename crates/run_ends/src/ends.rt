//! Where members and processes stand when a run ends.

use guard_queue::Objects;
use orca_base::{FaultKind, Items};
use value_core::{Action, Line, Reply};
use world_rules::{PlaceNote, Step};

/// A member when a run ends.
#[derive(Drop)]
pub struct NodeEnd {
    /// How many entries it applied.
    pub applied: u64,
    /// The incarnation that it installed last.
    pub incarnation: u64,
    /// Whether it crashed.
    pub crashed: bool,
    /// Whether it is outside the group.
    pub outside: bool,
    /// Its copies: the replicated objects, and the single ones that it owns.
    pub copies: Objects,
}

/// Where a process stands when a run ends.
#[derive(Debug, Drop)]
pub enum ProcessStanding {
    /// It ran all its statements.
    Ended,
    /// It ended by this fault.
    Faulted { fault: FaultKind },
    /// It is at this action, and has received no reply to it.
    Waits { action: Action },
    /// It computes, or its member hasn't begun it.
    Busy,
    /// Its member crashed before it ended.
    Crashed,
}

/// A process when a run ends: its member, the replies that it received, the turns that it took, and where it stands.
#[derive(Debug, Drop)]
pub struct ProcessEnd {
    pub node: u8,
    pub replies: Items<Reply>,
    pub turns: u64,
    pub standing: ProcessStanding,
}

/// All that is kept of a run.
#[derive(Drop)]
pub struct RunEnd {
    /// Its history: the performed operations by place.
    pub book: Vec<Line>,
    /// Where each line of its history was performed.
    pub places: Vec<PlaceNote>,
    /// Its events, with the fates of the packets that they sent.
    pub steps: Vec<Step>,
    /// The length of the longest log of a member.
    pub longest: u64,
    /// Its members, by their numbers.
    pub nodes: Vec<NodeEnd>,
    /// Its processes, by their numbers.
    pub processes: Vec<ProcessEnd>,
}
