//! What the other members of an incarnation do.

ghost use Rattle.group_rows.specs.Receiving.{
  AcceptPurges,
  AcknowledgesAgain,
  LaterIsAnswered,
  NewerBody,
  OrderWithoutBody,
  ReportedOnce,
};

/// A Status, whether of a note or of a tick, counts as a report.
pub fn reported_once()
    ensures { ReportedOnce }
{}

/// Of two bodies of a process the one of the greater call is kept.
pub fn newer_body()
    ensures { NewerBody }
{}

/// An acknowledger tells its whole length at a repeated entry.
pub fn acknowledges_again()
    ensures { AcknowledgesAgain }
{}

/// An Accept purges to its stable number.
pub fn accept_purges()
    ensures { AcceptPurges }
{}

/// An Order without its body accepts nothing.
pub fn order_without_body()
    ensures { OrderWithoutBody }
{}

/// An Order and an Accept of a later incarnation are answered by a Nack for the whole log, and promise nothing.
pub fn later_is_answered()
    ensures { LaterIsAnswered }
{}
