//! Laws of a member's part of an event, by the rules alone.

ghost use Rattle.node_rules.specs.Laws.{CatchingUpEnds, PartsAreWalks};

/// What is so of every part of an event, by the rules alone. A call of this does nothing.
///
/// - `walks`: it is a walk from its first piece, so that what is so at each moment is so at its end.
/// - `ends`: a member that has applied and noted what it may, as often as the rules say, does nothing more by doing so again.
pub fn walking_law()
    ensures walks { PartsAreWalks }
    ensures ends { CatchingUpEnds }
{}
