//! Runs that are computed: what the law says of them, and what breaks it where a run isn't faultless.

ghost use Rattle.group_bound.specs.Worked.{LongMessage, ShortMessage};
ghost use Rattle.group_bound.specs.Wrong.{BodiesComeFirst, NothingTicks, TurnsAreKept};

/// A short message takes six letters among three members, and a long one seven.
pub fn worked_flows()
    ensures short { ShortMessage }
    ensures long { LongMessage }
{}

/// Letters that overtake each other: a run stands still where all is sent, and no member ticks.
pub fn turns_are_kept()
    ensures { TurnsAreKept }
{}

/// An Order that overtakes its Body: its receiver asks for the entry.
pub fn bodies_come_first()
    ensures { BodiesComeFirst }
{}

/// Ticks while letters are on their way: this run has more letters than its messages and entries allow.
pub fn nothing_ticks()
    ensures { NothingTicks }
{}
