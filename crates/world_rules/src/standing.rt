//! How a run stands after an event.

use orca_base::What;

/// How a run stands: the first of these that holds. No event is possible in a run that isn't going.
#[derive(Clone, Copy, Debug, PartialEq, Eq)]
pub enum Standing {
    /// The next application would pass the limit of objects or of processes, or the history has as many lines as a history may.
    Limit {
        /// What is limited: objects, processes or history lines.
        what: What,
        /// How many of these there may be.
        number: u64,
    },
    /// A process has used its turns and isn't at an action.
    OutOfTurns,
    /// The stated number of events has happened.
    OutOfEvents,
    /// Too many members are crashed or outside, and nothing goes on.
    NoGroup,
    /// The run is over, and a process has ended by a fault.
    Faulted,
    /// The run is over, and a living process hasn't ended.
    Blocked,
    /// The run is over.
    Finished,
    /// None of these.
    Going,
}

/// Where a line of the book was performed.
#[derive(Clone, Copy, Debug, PartialEq, Eq)]
pub enum PlaceNote {
    /// At this entry of the list.
    Entry { number: u64 },
    /// As a read, on copies or a view of copies that had applied so many entries.
    Read { number: u64 },
    /// On a single copy, whose owner had applied so many entries.
    Single { number: u64 },
}
