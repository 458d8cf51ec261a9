//! What is kept of a script's lines.

ghost use Rattle.std.specs.Prelude.{◌≡◌, vec_len};

use net_rules::Fate;
use std::collections::BTreeMap;

/// A line that says a fate, by its place among the lines, from 0.
#[derive(Clone, Copy)]
pub struct Found {
    pub line: usize,
    pub fate: Fate,
}

/// The first line that says a fate of all packets of one kind, or of any, and the first for each number.
#[derive(Drop)]
pub struct KindLines {
    pub all: Option<Found>,
    pub numbered: BTreeMap<u64, Found>,
}

/// The lines by what they count: packets of any kind, and of each kind, by its number.
#[derive(Drop)]
pub struct Index {
    pub any: KindLines,
    pub kinds: Vec<KindLines>,
    ghost each: { vec_len kinds ≡ 13 },
}
