//! What a note is about.

use orca_base::{FaultKind, What};
use orca_lexer::LexRule;

/// Why the program ended so, or what of a run surprises (docs/FORMATS.md, Statuses).
#[derive(Clone, Copy, Debug, PartialEq, Eq)]
pub enum Cause {
    /// A text has no tokens, by this rule.
    Lexical { rule: LexRule },
    /// A token stands where the grammar has none; a hint for it.
    Unexpected { hint: Hint },
    /// A text ends where the grammar wants more.
    UnexpectedEnd,
    /// Units don't link, by the rule of this number, from 1 to 5.
    Linking { rule: u8 },
    /// Two texts are the module `Main`, of which the later one has no `module` line.
    TwoMains,
    /// A program breaks the rule of typing with this number, from 1 to 41.
    Typing { rule: u8 },
    /// There is more of this than the limit.
    Limit { what: What },
    /// A function, process or operation has too many parameters.
    Parameters,
    /// A line of a script is none.
    Script { rule: ScriptRule },
    /// A line of a script names a member that the run hasn't.
    NoSuchMember,
    /// A line of a history isn't of the form, or is no step of the program: what of it differs.
    History { part: HistoryPart },
    /// There is no such file.
    Absent,
    /// A file is there, and can't be read.
    Unreadable,
    /// A process ended by this fault.
    Faulted { fault: FaultKind },
    /// A process waits, and nothing can happen any more.
    Blocked,
    /// Too many members are lost.
    NoGroup,
    /// The run had all of its events.
    OutOfEvents,
    /// A process had all of its turns.
    OutOfTurns,
    /// The member of process 0 crashed, or was left out, before that process ended.
    MainLost,
    /// The words are no command, or ask for what isn't built.
    Usage { rule: UsageRule },
}

/// What the token says that is unexpected.
#[derive(Clone, Copy, Debug, PartialEq, Eq)]
pub enum Hint {
    /// `=`.
    Equals,
    /// `;`.
    Semicolon,
    /// A word that ends a part: `do`, `else`, `elsif`, `end`, `fi`, `od`, `then` or `until`.
    Closing,
    /// `module` or `import`.
    Header,
    /// Another word of the language.
    Keyword,
    /// Anything else.
    Other,
}

/// What is wrong with a line of a script.
#[derive(Clone, Copy, Debug, PartialEq, Eq)]
pub enum ScriptRule {
    UnknownWord,
    BadNumber,
    /// The line ends in a carriage return.
    CarriageReturn,
}

/// What is wrong with a line of a history.
#[derive(Clone, Copy, Debug, PartialEq, Eq)]
pub enum HistoryPart {
    Form,
    Process,
    Call,
    Action,
    Guard,
    Reply,
}

/// What is wrong with the words of a command line.
#[derive(Clone, Copy, Debug, PartialEq, Eq)]
pub enum UsageRule {
    /// There is no word.
    NoCommand,
    /// The first word is no command.
    UnknownCommand,
    /// What the word asks for isn't built yet.
    NotBuilt,
    /// The word begins with `-`, and is no option of the command.
    UnknownOption,
    /// The option needs a value.
    MissingValue,
    /// The option takes no value.
    NeedlessValue,
    /// The word is no value of its option.
    BadValue,
    /// An option stands there a second time.
    Repeated,
    /// Twice the resilience isn't below the number of members.
    TooFewMembers,
    /// A file is missing, or a history, or a number.
    MissingFile,
    /// There is a word too many.
    NeedlessWord,
    /// A word isn't UTF-8.
    NotUtf8,
    /// It is none of these.
    Unclear,
}
