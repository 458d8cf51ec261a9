//! The events of a run, counted.

/// How many events of each sort a run had, and how many packets they sent.
#[derive(Clone, Copy)]
pub struct Counts {
    pub bursts: u64,
    pub acts: u64,
    pub deliveries: u64,
    pub ticks: u64,
    pub crashes: u64,
    pub suspects: u64,
    pub swaps: u64,
    pub packets: u64,
}

/// How many events a run had.
#[derive(Clone, Copy)]
pub struct Events {
    /// All of them.
    pub all: usize,
    /// The same by sort, and how many packets they sent.
    pub counts: Counts,
    /// How many packets were sent before the first exchange of wires, and behind it.
    pub about_swap: (u64, u64),
}
