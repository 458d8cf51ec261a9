//! The statuses with which the program ends.

/// The run finished, the program is accepted, the history is one of the program, or what was asked for is said.
pub const FINISHED: u8 = 0;

/// A text has no tokens, or is no unit; or the units do not link, or break a rule of typing.
pub const REFUSED: u8 = 1;

/// The words are no command, or ask for what is not built yet.
pub const USAGE: u8 = 2;

/// The run is over, and a process ended by a fault.
pub const FAULTED: u8 = 3;

/// The run is over, and a process of a member that lives hasn't ended.
pub const BLOCKED: u8 = 4;

/// Too many members are crashed or outside, and nothing goes on.
pub const NO_GROUP: u8 = 5;

/// The run had as many events as it may have.
pub const OUT_OF_EVENTS: u8 = 6;

/// A process took as many turns as it may take.
pub const OUT_OF_TURNS: u8 = 7;

/// A file is there, and can't be read.
pub const READ_FAULT: u8 = 8;

/// There is no such file.
pub const ABSENT: u8 = 9;

/// A write failed.
pub const WRITE_FAULT: u8 = 10;

/// A text, a script or a history is longer, or a text nests deeper, than one may; there are more files than a program may have modules; or a run
/// would have more objects, processes or lines than one may.
pub const LIMIT: u8 = 11;

/// There was no memory.
pub const NO_MEMORY: u8 = 12;

/// A line of the history isn't of the form, or is no step of the program.
pub const BREACH: u8 = 13;

/// The script of the run is none.
pub const BAD_SCRIPT: u8 = 14;
