//! What the copies are that are kept of a run's members (docs/RUNTIME.md, The book of a run).
//!
//! The floor above keeps of a run its history, its processes and its members. Here stands what each member's copies are by these, with
//! single objects and without: `HasCopies` of specs/Copies.antt. A replicated object is what a front of the history left of it; a single
//! one is what the whole history left of it, at its owner alone. It has no code: its functions are laws, whose bodies are empty. What a
//! world's copies are by its book is `IsKept` of `world_book`, and how ends tell of a world stands in `run_ends`.
#![tactic(auto)]

ghost use Rattle.kept_copies.specs.Copies.{CopiesStand};
ghost use Rattle.kept_copies.specs.Worked.{WorkedCopies};

/// What is kept of each member's copies is what the kept history left of its objects. A call of this function does nothing.
pub fn copies_stand()
    ensures { CopiesStand }
{}

/// The copies of a cell, computed: of one that is single, and of one that is replicated.
pub fn worked_copies()
    ensures { WorkedCopies }
{}
