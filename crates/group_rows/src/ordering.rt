//! What a sequencer orders, and what waits.

ghost use Rattle.group_rows.specs.Ordering.{NoteOrders, OwnWaits, PendingInOrder, TwoWait};

/// A note lets a sequencer purge, and order what waits.
pub fn note_orders()
    ensures { NoteOrders }
{}

/// Two messages that wait are ordered in one step, in order of arrival, each as it came.
pub fn two_wait()
    ensures { TwoWait }
{}

/// The sequencer's own message waits where the window is full.
pub fn own_waits()
    ensures { OwnWaits }
{}

/// Pending messages stand in order of process.
pub fn pending_in_order()
    ensures { PendingInOrder }
{}
