//! Laws of copies.

ghost use Rattle.object_manager.specs.After.{opening_copies};
ghost use Rattle.object_manager.specs.Apart.{AfterApart};
ghost use Rattle.object_manager.specs.Applies.{CopiesBlocked, CopiesFit};
ghost use Rattle.object_manager.specs.Laws.{AfterBlocked, AfterFitting, AfterRising, AfterTyped, EntryGoesOn};
ghost use Rattle.object_manager.specs.Laws.{NoneKept, PassedGoesOn, SingleGoesOn, StatesTell, WithoutSingles};

use value_core::Performer;

/// What is so of copies by their definitions, whatever performs the operations: the opening copies fit, with no suspended call;
/// after a message each suspended call on a replicated object is blocked, what fits goes on fitting, each object stays by its type,
/// and ids that rise go on rising; a call is its object's own, whatever other objects there are; so all goes on after an entry, after
/// a make of a single object and after a call on one; and with no single object the types and the number of objects made are those
/// of the replicated objects, an entry counts none, none is kept here, and the copies are what their state says. A call of this
/// function does nothing.
pub fn copies_law<P: Performer>(performer: &P)
    ensures opening { CopiesFit (P.fits_state performer.now) (P.fits_args performer.now) opening_copies }
    ensures quiet { CopiesBlocked (P.performs performer.now) opening_copies }
    ensures blocked { AfterBlocked (P.performs performer.now) }
    ensures fits { AfterFitting (P.fits_state performer.now) (P.fits_args performer.now) (P.performs performer.now) }
    ensures types { AfterTyped (P.fits_args performer.now) (P.performs performer.now) }
    ensures ids { AfterRising (P.performs performer.now) }
    ensures apart { AfterApart (P.performs performer.now) }
    ensures entry { EntryGoesOn (P.fits_state performer.now) (P.fits_args performer.now) (P.performs performer.now) }
    ensures passed { PassedGoesOn (P.fits_state performer.now) (P.fits_args performer.now) (P.performs performer.now) }
    ensures single { SingleGoesOn (P.fits_state performer.now) (P.fits_args performer.now) (P.performs performer.now) }
    ensures plain { WithoutSingles (P.performs performer.now) }
    ensures none { NoneKept (P.fits_state performer.now) (P.fits_args performer.now) }
    ensures states { StatesTell }
{}
