//! Laws of settling.

ghost use Rattle.guard_queue.specs.Apart.{CallsApart, SettlesApart};
ghost use Rattle.guard_queue.specs.Ends.{SettlesOnce};
ghost use Rattle.guard_queue.specs.Laws.{SettlesBlocked, SettlesFitting, SettlesRising, SettlesTyped};

use value_core::Performer;

/// What is so of settling by its definition, whatever performs the operations: after it each suspended call is blocked, what
/// fits goes on fitting, each object stays by its type, and ids that rise go on rising; rounds have one end, which is that of
/// settling. What an object comes to be, and the lines, are the object's own: where each call on another one is blocked, it settles
/// as with its own calls alone, and so after a call on it where all are blocked. A call of this function does nothing.
pub fn settling_law<P: Performer>(performer: &P)
    ensures blocked { SettlesBlocked (P.performs performer.now) }
    ensures fits { SettlesFitting (P.fits_state performer.now) (P.fits_args performer.now) (P.performs performer.now) }
    ensures types { SettlesTyped (P.performs performer.now) }
    ensures ids { SettlesRising (P.performs performer.now) }
    ensures once { SettlesOnce (P.performs performer.now) }
    ensures apart { SettlesApart (P.performs performer.now) }
    ensures calls { CallsApart (P.performs performer.now) }
{}
