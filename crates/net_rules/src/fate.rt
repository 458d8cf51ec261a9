//! What a wire answers.

/// What happens to a packet.
#[derive(Clone, Copy, Debug, PartialEq, Eq)]
pub enum Fate {
    /// It arrives once.
    Pass,
    /// It never arrives.
    Drop,
    /// It arrives twice: there are two copies of it.
    Twice,
    /// It is held back.
    Hold {
        /// For so many ticks. With 0 it passes.
        ticks: u32,
    },
    /// It is cut short.
    Cut {
        /// To so many bytes. One that has no more stays whole.
        length: u32,
    },
}

/// What a wire does to members, or to itself, between events.
#[derive(Clone, Copy, Debug, PartialEq, Eq)]
pub enum WireAct {
    /// A member crashes, and stays down.
    Crash {
        /// The member.
        node: u8,
    },
    /// A member suspects its sequencer: it coordinates a reset.
    Suspect {
        /// The member.
        node: u8,
    },
    /// The next wire takes this one's place.
    Swap,
}
