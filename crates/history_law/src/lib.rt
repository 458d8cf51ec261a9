//! The law of histories: each is the book of a run, and what fits after one.
//!
//! Whoever is given lines, and no run that they come from, uses it: after a legal history all fits that machines and performers ask. It
//! stands on `book_law`, and has no code: its functions are laws, whose bodies are empty.
#![tactic(auto)]

ghost use Rattle.history_law.specs.Alike.{HistoriesCarry};
ghost use Rattle.history_law.specs.Fitness.{HistoriesFit};
ghost use Rattle.history_law.specs.Runs.{HistoriesRun};

use value_core::Processor;

/// Every history is the book of a run: each line is submitted by its process, ordered, and applied at member 0 before the next. That the
/// book of each run is a history is `legal` of `book_law`.
pub fn history_law()
    ensures { HistoriesRun }
{}

/// After every history of a lawful program what a machine and a performer ask is met: of a process that goes on, of a call that is its next
/// action, and of a reply to it. It rests on the laws of the two traits alone. A call of this function does nothing.
pub fn histories_fit<P: Processor>(program: &P)
    ensures { HistoriesFit (P.performs program.now) (P.computes program.now) (P.fits_state program.now) (P.fits_args program.now)
        (P.fits_text program.now) (P.fits_reply program.now) }
{}

/// Each history of a lawful program is one of every other meaning that is the same on what fits, as that of compiled code is, and leaves the
/// same there. A call of this function does nothing.
pub fn histories_carry<P: Processor>(program: &P)
    ensures { HistoriesCarry (P.performs program.now) (P.computes program.now) (P.fits_state program.now) (P.fits_args program.now)
        (P.fits_text program.now) (P.fits_reply program.now) }
{}
