//! What a limit is of, and where an object is kept.

/// A quantity that has a limit.
#[derive(Clone, Copy, Debug, PartialEq, Eq)]
pub enum What {
    SourceBytes,
    ScriptBytes,
    HistoryBytes,
    Modules,
    Nesting,
    CodeLength,
    Objects,
    Processes,
    HistoryLines,
}

/// Where an object is kept: at every member, or at one alone.
#[derive(Clone, Copy, Debug, PartialEq, Eq)]
pub enum Choice {
    Replicated,
    Single,
}
