//! What words may ask for.

/// The commands, by their first words.
#[derive(Clone, Copy, Debug, PartialEq, Eq)]
pub enum CommandName {
    Check,
    Run,
    Code,
    Choice,
    Replay,
    Make,
    Join,
}

/// The members of a group, 1 to 16, and how many of them may crash: twice as many are fewer than the members.
#[derive(Clone, Copy, Debug, PartialEq, Eq)]
pub struct GroupSize {
    pub nodes: u8,
    pub resilience: u8,
}

/// The options of `run`: the group, 1 to 16 worker threads, the turns of each process (1 to 10,000,000) and the events of the
/// run (1 to 4,000,000) that are allowed, and whether the history and the places of its lines are printed.
#[derive(Clone, Copy, Debug, PartialEq, Eq)]
pub struct RunOptions {
    pub group: GroupSize,
    pub workers: u8,
    pub turns: u64,
    pub events: u64,
    pub history: bool,
    pub explain: bool,
}

/// The options of `make`: the group, 1 to 16 worker threads, how many packets are lost (at most 100), and whether the program's text is
/// printed in place of being run.
#[derive(Clone, Copy, Debug, PartialEq, Eq)]
pub struct MakeOptions {
    pub group: GroupSize,
    pub workers: u8,
    pub lose: u8,
    pub source: bool,
}

/// The options of `join`: the group, and the event at which the follower begins (at most 4,000,000).
#[derive(Clone, Copy, Debug, PartialEq, Eq)]
pub struct JoinOptions {
    pub group: GroupSize,
    pub at: u64,
}

/// What the words ask for. The names of files are those of the words, in their order.
#[derive(Debug, Drop)]
pub enum Request<'a> {
    /// The help, of one command or of all.
    Help {
        of: Option<CommandName>,
    },
    /// The name and the version.
    Version,
    /// Whether the files are a program.
    Check {
        files: Vec<&'a str>,
    },
    /// A run of the program in the files, whose wire follows the script.
    Run {
        options: RunOptions,
        script: Option<&'a str>,
        files: Vec<&'a str>,
    },
    /// The code of the program in the files, with the source's lines before their code where that is asked for.
    Code {
        source: bool,
        files: Vec<&'a str>,
    },
    /// Which objects of the program are replicated, on so many members.
    Choice {
        nodes: u8,
        files: Vec<&'a str>,
    },
    /// Whether a history is one of the program in the files.
    Replay {
        history: &'a str,
        files: Vec<&'a str>,
    },
    /// The program that is made from a number.
    Make {
        options: MakeOptions,
        number: u64,
    },
    /// A run with a follower that joins late, over a wire that follows the script.
    Join {
        options: JoinOptions,
        script: Option<&'a str>,
        files: Vec<&'a str>,
    },
}
