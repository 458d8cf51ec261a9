//! Idle stretches, the group's half: on a network that loses nothing more, only so many ticks pass in a row without a change in the group
//! (docs/EVENTS.md).
//!
//! It is about a group by the rules of `group_rules`, the letters on their way, which come in any order, and ticks, at which the timers of
//! all living members run. A tick comes only where nothing is on its way and something is left to do. Which messages are submitted, and
//! when, is left open. It has no code: its function is a law, whose body is empty. What becomes of a run of a program is the world's half.
#![tactic(auto)]

ghost use Rattle.group_idle.specs.Idle.{IdleLaw};
ghost use Rattle.group_idle.specs.Worst.{Attains, three};

/// In every group of N members, of which fewer than half may be lost and no more have crashed, where each living member applied what it
/// knows to be accepted. A call of this function does nothing.
///
/// - `idle`: a stretch in which no promised, installed, accepted or applied number of a member changes has at most N + 5 ticks.
/// - `attained`: in a group of three, of which one may be lost, there is one of eight.
pub fn idle_stretches_are_short<M>()
    ensures idle { IdleLaw M }
    ensures attained { Attains three 8 }
{}
