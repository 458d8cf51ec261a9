//! What travels.

/// A copy of a packet on its way.
#[derive(Debug, Drop)]
pub struct Flight<T> {
    /// The packet's number, from 1 over the whole run.
    pub number: u64,
    /// Which of its copies it is, from 0.
    pub copy: u8,
    /// The member that sent it.
    pub from: u8,
    /// The member that it is sent to.
    pub to: u8,
    /// How many ticks it is held back yet. With 0 it is ready.
    pub ticks: u32,
    /// What travels.
    pub packet: T,
}
