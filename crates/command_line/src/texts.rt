//! The help and the version.

ghost use Rattle.std.specs.Prelude.{◌≡◌, Option};
ghost use Rattle.command_line.specs.Help.{help_of, version_line};

use crate::request::CommandName;

/// The name and the version, on one line.
pub const VERSION: &str = "orca 0.1.0\n";

/// What the program does, and its commands.
pub const HELP: &str = "Runs programs in the language Orca.

usage: orca COMMAND

  check FILE...               says ok, or the first mistake in the program
  run [OPTIONS] FILE...       runs the program
  code [--source] FILE...     prints the code that the program is compiled to
  choice [--nodes N] FILE...  prints which objects cost less as one copy
  replay HISTORY FILE...      says whether a history is one of the program
  make [OPTIONS] NUMBER       makes a program from a number, and runs it
  join [OPTIONS] FILE...      runs the program with a member that joins late

  -h, --help                  prints this; behind a command's name, more about it
  -V, --version               prints the version

So far `check`, `run`, `code`, `choice`, `replay` and `make` are built.
";

/// The command `check`.
pub const CHECK_HELP: &str = "Says ok where the files are a program, and else its first mistake.

usage: orca check FILE...
";

/// The command `run`.
pub const RUN_HELP: &str = "Runs the program that the files are, and prints what it writes.

usage: orca run [OPTIONS] FILE...

  --nodes N       members of the group, 1 to 16 (3)
  --resilience R  members that may crash, 0 to 7, 2 R below N (0)
  --workers W     threads, 1 to 16 (4)
  --turns T       turns that each process may take, 1 to 10000000 (1000000)
  --events E      events that the run may have, 1 to 4000000 (1000000)
  --script FILE   which packets are lost, held or repeated, and which members crash (none)
  --history       prints the history of the run, too
  --explain       prints where each line of the history took place, too

So far `--workers` isn't built.
";

/// The command `code`.
pub const CODE_HELP: &str = "Prints the code that the program in the files is compiled to.

usage: orca code [OPTIONS] FILE...

  --source  prints the head of each body and the source's lines before their code, too
";

/// The command `choice`.
pub const CHOICE_HELP: &str =
    "Prints which objects of the program in the files cost less where they are replicated, and which as one copy.

usage: orca choice [OPTIONS] FILE...

  --nodes N  members of the group, 1 to 16 (3)

A run on as many members keeps them so, unless its --resilience is above 0.
";

/// The command `replay`.
pub const REPLAY_HELP: &str =
    "Says whether a history is one of the program in the files, or where it first breaks.

usage: orca replay HISTORY FILE...
";

/// The command `make`.
pub const MAKE_HELP: &str =
    "Makes a program from a number of 1 to 19 digits, runs it, and prints a summary.

usage: orca make [OPTIONS] NUMBER

  --nodes N       members of the group, 1 to 16 (3)
  --resilience R  members that may crash, 0 to 7, 2 R below N (0)
  --workers W     threads, 1 to 16 (4)
  --lose L        packets that are lost, 0 to 100 (0)
  --source        prints the program in place of running it

So far `--workers` isn't built.
";

/// The command `join`.
pub const JOIN_HELP: &str =
    "Runs the program that the files are, with a member that joins late and follows the group.

usage: orca join [OPTIONS] FILE...

  --nodes N       members of the group, 1 to 16 (3)
  --resilience R  members that may crash, 0 to 7, 2 R below N (0)
  --at E          event at which the follower begins, 0 to 4000000 (0)
  --script FILE   which packets to the follower are lost, held or repeated (none)

Not built yet.
";

/// The help on a command, or on all.
#[tactic(auto, unfolding(crate::specs::Help::help_of))]
pub fn help(of: Option<CommandName>) -> &'static str
    ensures { result.now ≡ help_of of }
{
    match of {
        None => HELP,
        Some(CommandName::Check) => CHECK_HELP,
        Some(CommandName::Run) => RUN_HELP,
        Some(CommandName::Code) => CODE_HELP,
        Some(CommandName::Choice) => CHOICE_HELP,
        Some(CommandName::Replay) => REPLAY_HELP,
        Some(CommandName::Make) => MAKE_HELP,
        Some(CommandName::Join) => JOIN_HELP,
    }
}

/// The name and the version.
#[tactic(auto, unfolding(crate::specs::Help::version_line))]
pub fn version() -> &'static str
    ensures { result.now ≡ version_line }
{
    VERSION
}
