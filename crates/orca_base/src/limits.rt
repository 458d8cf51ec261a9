//! The limits of texts, programs and runs, each with its reason.

/// Bytes of one source text, so that places and spans fit 32 bits with room to spare.
pub const SOURCE_BYTES: u32 = 1_000_000;

/// Bytes of one script.
pub const SCRIPT_BYTES: u32 = 1_000_000;

/// Bytes of a history that is replayed: the most lines of a run, at 32 bytes each.
pub const HISTORY_BYTES: u32 = 64_000_000;

/// Files, and so modules, of one program.
pub const MODULES: u32 = 64;

/// Levels of nesting of a text, so that recursion over a tree is shallow.
pub const NESTING: u32 = 64;

/// Length of a program's code, at 20 for each token and declared name.
pub const CODE_LENGTH: u32 = 2_000_000;

/// Objects of one run, the output object not counted.
pub const OBJECTS: u32 = 4_096;

/// Processes of one run, `OrcaMain` counted.
pub const PROCESSES: u32 = 256;

/// Lines of one history.
pub const HISTORY_LINES: u32 = 2_000_000;

/// Size of a value: 1, or for a list 1 and the sizes of its parts.
pub const VALUE_SIZE: u32 = 10_000;

/// Characters of a string, whose size is then at most `VALUE_SIZE`.
pub const TEXT_LENGTH: u32 = 9_999;

/// Levels of nesting of a value.
pub const VALUE_NESTING: u32 = 16;

/// Turns of one guard, operation body or making, so that applying an entry ends.
pub const OPERATION_TURNS: u32 = 10_000;

/// Turns of one burst, so that other processes' bursts come between.
pub const BURST_TURNS: u32 = 10_000;

/// Parameters of one function, process or operation, whose number is one byte in a packet.
pub const PARAMETERS: u32 = 255;

/// Members of a group.
pub const NODES: u8 = 16;

/// The greatest resilience degree: less than half of the members may be acknowledgers.
pub const RESILIENCE: u8 = 7;

/// Worker threads of one run.
pub const WORKERS: u8 = 16;

/// Entries that a member's history keeps.
pub const WINDOW: u32 = 256;

/// Entries that are kept before a purge: a member that missed some can still be sent them.
pub const ENTRIES_BEFORE_PURGE: u32 = 192;

/// Bytes of a message that is sent through the sequencer (the PB method). A longer one is sent to all (the BB method).
pub const MESSAGE_BY_REQUEST: u32 = 256;

/// Applied entries between two reports of a member.
pub const ENTRIES_BETWEEN_REPORTS: u64 = 64;

/// Entries that are sent again at once.
pub const ENTRIES_SENT_AGAIN: u32 = 16;

/// Silent ticks after which a timer coordinates a reset.
pub const PATIENCE: u32 = 6;

/// Idle ticks after which a group that lost too many members is given up.
pub const IDLE_TICKS: u32 = 200;

/// The greatest number of turns that a run may be allowed.
pub const TURNS: u64 = 10_000_000;

/// The greatest number of events that a run may be allowed.
pub const EVENTS: u64 = 4_000_000;
