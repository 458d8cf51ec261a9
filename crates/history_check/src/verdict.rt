//! What is said of lines.

ghost use Rattle.history_check.specs.Verdicts.{OneVerdict, StepsAgree};

/// The parts of a line, in the order in which they are judged.
#[derive(Clone, Copy, Debug, PartialEq, Eq)]
pub enum BreachRule {
    /// There is no such process.
    Process,
    /// It isn't the next line of its process.
    Call,
    /// It isn't the next action of its process, or it is the end of one.
    Action,
    /// The action isn't performed by this guard, or not at all, since each of its guards is false.
    Guard,
    /// It gets another reply.
    Reply,
}

/// Whether lines are a history of a program, and else which line, from 1, is the first that may not come next, and the first part of it
/// that differs.
#[derive(Clone, Copy, Debug, PartialEq, Eq)]
pub enum Verdict {
    Legal,
    Breach { line: u32, rule: BreachRule },
}

/// The law of verdicts, whatever a program means.
///
/// - `once`: of any lines one verdict is true at most. So where lines are a history, no breach of theirs is true.
/// - `steps`: a line agrees in all parts exactly where it may come next.
pub fn verdict_law()
    ensures once { OneVerdict }
    ensures steps { StepsAgree }
{}
