//! The forms of a script's lines, by docs/RUNTIME.md, Fault scripts.

/// What a word of a line is.
#[derive(Clone, Copy, PartialEq, Eq)]
pub enum Sort {
    /// A kind of packets, or `any`.
    Kinds,
    /// The number of a packet, or `all`.
    Which,
    /// The number of a packet.
    Count,
    /// A member.
    Member,
    /// A number of ticks or bytes.
    Size,
    /// A seed.
    Seed,
    /// A percentage.
    Percent,
}

/// The first word of a line, and what stands behind it.
pub const FORMS: [(&str, &[Sort]); 8] = [
    ("drop", &[Sort::Kinds, Sort::Which]),
    ("twice", &[Sort::Kinds, Sort::Which]),
    ("hold", &[Sort::Kinds, Sort::Which, Sort::Size]),
    ("cut", &[Sort::Kinds, Sort::Which, Sort::Size]),
    ("crash", &[Sort::Member, Sort::Kinds, Sort::Count]),
    ("suspect", &[Sort::Member, Sort::Kinds, Sort::Count]),
    ("swap", &[Sort::Kinds, Sort::Count]),
    ("seed", &[Sort::Seed, Sort::Percent]),
];

/// The place of `seed` among them.
pub const SEED: i128 = 7;

/// The kinds of packets.
pub const KIND_WORDS: [&str; 14] = [
    "request", "body", "order", "entry", "ack", "accept", "nack", "status", "invite", "join",
    "result", "ask", "answer", "any",
];
