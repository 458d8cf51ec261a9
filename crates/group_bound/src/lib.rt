//! Enough events, the group's half: on a network that loses nothing and keeps the order of sending, the group needs no tick, and the
//! letters are counted (docs/EVENTS.md).
//!
//! A run is a list of moves: a message is submitted at a member, the letter that was sent first is delivered, a member notes what it
//! applied. The floor above uses `enough_events`, which speaks of the rules of `group_rules` alone. It has no code.
#![tactic(auto)]

mod runs;

ghost use Rattle.group_bound.specs.Enough.{AskedLaw, CountLaw, EnoughLaw, QuietLaw, SmoothLaw};

pub use runs::{bodies_come_first, nothing_ticks, turns_are_kept, worked_flows};

/// The law, for every number of members, every resilience below half of them, messages of any length, and every list of moves.
///
/// - `smooth`: no member asks for anything again, nobody is suspected, all stand in incarnation 0, and no log is longer than the
///   sequencer's.
/// - `quiet`: where nothing is on its way, and each member applied what it knows to be accepted, every member has applied every message
///   that was submitted, nothing is pending and nothing waits.
/// - `count`: with N members, S messages submitted and L entries, at most N S + 4 N L letters were delivered.
/// - `asked`: where messages are of so many processes, at most so many more were submitted than there are entries.
/// - `enough`: so, with at most one process and one more for each entry, at most 6 N (L + 1) letters were delivered.
pub fn enough_events<M>()
    ensures smooth { SmoothLaw M }
    ensures quiet { QuietLaw M }
    ensures count { CountLaw M }
    ensures asked { AskedLaw M }
    ensures enough { EnoughLaw M }
{}
