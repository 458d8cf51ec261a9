//! The places of the book's lines (docs/RUNTIME.md, The book of a run).
//!
//! Each line of a run's book was performed at a place: at an entry of the list, as a read on copies that had applied so many entries, or
//! on a single copy whose owner had applied so many. `places` of `world_rules` gives them; here stands what is so of them in every run,
//! how what is kept of a run tells them, and the text that `--explain` is to print. It has no code: its functions are laws, whose bodies
//! are empty or call the laws below.
#![tactic(auto)]

ghost use Rattle.world_places.specs.Explained.{PlacesAreOne, PlacesNeverFall, RunsHavePlaces, StepsPerform};
ghost use Rattle.world_places.specs.Told.{RunsTellPlaces};
ghost use Rattle.world_places.specs.Worked.{WorkedPlaces};

use book_law::every_call_fits;
use group_law::agreement_law;
use value_core::{Message, Processor};
use world_book::legal_book;
use world_course::worlds_are_courses;
use world_facts::{book_by_places, premises_met, processes_stand};
use world_law::{group_steps, runs_hold};

/// In every run of a lawful program, with single objects and without, each line of the book has one place, the lines stand in the order of
/// their places, and each was performed at its place. A call of this function does nothing.
///
/// - `lines`: so it is of the book of each world of a run.
/// - `steps`: and in each step what is new beside the list is a read at its place, or a call on a single object, at a place between what
///   its owner had applied before the step and what it has after it.
/// - `told`: what was performed, once it is sorted into the book, tells these places: a call on an object that some member keeps as a
///   single one was performed on that; any other line was at its entry where the list has a message of its process and number, and else
///   it is a read.
pub fn lines_have_places<P: Processor>(machine: &P)
    ensures lines { RunsHavePlaces (P.performs machine.now) (P.computes machine.now) }
    ensures steps { StepsPerform (P.performs machine.now) (P.computes machine.now) }
    ensures told { RunsTellPlaces (P.performs machine.now) (P.computes machine.now) }
{
    agreement_law::<Message>();
    runs_hold();
    group_steps();
    worlds_are_courses(machine);
    every_call_fits(machine);
    book_by_places();
    processes_stand();
    legal_book(machine);
}

/// What follows from that law, in whatever world.
///
/// - `one`: there is one list of places at most, of which it is true.
/// - `falls`: a process's place never falls.
pub fn places_law()
    ensures one { PlacesAreOne }
    ensures falls { PlacesNeverFall }
{}

/// Worked runs, with the text of their places, and two wrong definitions of places.
pub fn worked_places()
    ensures { WorkedPlaces }
{
    premises_met();
}
