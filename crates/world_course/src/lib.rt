//! The course of a world: each step of a run is a chain of events of the book's law (docs/proofs/world.md).
//!
//! A world corresponds to a course (`Corresponds`) where each member's copies and each process are the course's, the list is what any
//! member applied, and what was performed beside it is the same; and it follows it (`Follows`) where its Asks and Answers stand, too. Of
//! the group it takes small facts at each moment of an event (specs/Group.antt, specs/Gives.antt), of agreement and of what was
//! submitted; of the program its laws. Nothing is said of how packets travel, nor that anything happens in the end.
#![tactic(auto)]

ghost use Rattle.world_course.specs.Law.{IsOneCell, RunsAreCourses};

use value_core::Processor;

/// Worlds and courses, whatever computes the program. A call of this function does nothing.
///
/// - `courses`: the opening world is the opening course; each step lifts to a chain of events of the course, for each test that agrees
///   with the choices of the processes that exist after it, and each Ask and Answer goes on standing for it, however late it comes. And
///   piece by piece: a call that an owner takes, of its own process too, and an Answer that is taken lift.
/// - `one_cell`: the premises can be met: they are, of the computed run of one cell at its opening.
pub fn worlds_are_courses<P: Processor>(machine: &P)
    ensures courses { RunsAreCourses (P.performs machine.now) (P.computes machine.now) }
    ensures one_cell { IsOneCell }
{}
