//! What the program does for its words, as far as it is built.

ghost use Rattle.std.specs.Prelude.{◌≡◌, map, option_map, string_bytes, IfOk, IfSome};
ghost use Rattle.command_line.specs.Asked.{IsMakeWithin, IsRunWithin, IsWithin, asked_of};
ghost use Rattle.orca_answers.specs.Job.{IsDeedWithin, built, deed_in, deed_of, is_make_built, is_run_built, make_built, run_built};

use crate::listing::Listed;
use command_line::{MakeOptions, Request, RunOptions, help, read_words, version};
use orca_base::{NoMemory, Refusal};
use std::alloc::Global;

/// What the program does for its words. The names of files are those of the words, in their order.
#[derive(Debug, Drop)]
pub enum Job<'a> {
    /// It says this, and no more.
    Says {
        text: &'static str,
    },
    /// It checks the program in these files.
    Checks {
        files: Vec<&'a str>,
    },
    /// It lists this of the program in these files.
    Lists {
        what: Listed,
        files: Vec<&'a str>,
    },
    /// It says what is chosen for the sites of the program in these files, among so many members.
    Chooses {
        nodes: u8,
        files: Vec<&'a str>,
    },
    /// It runs the program in these files, with these options, over the wire that this script tells.
    Runs {
        options: RunOptions,
        script: Option<&'a str>,
        files: Vec<&'a str>,
    },
    /// It says whether the history in this file is one of the program in these.
    Replays {
        history: &'a str,
        files: Vec<&'a str>,
    },
    /// It says the text of the program that is made of this number, and no more.
    Shows {
        number: u64,
    },
    /// It runs the program that is made of this number, with these options.
    Makes {
        options: MakeOptions,
        number: u64,
    },
}

/// What the program does for the words, or none where they are no command or ask for what is not built yet.
pub fn job_of<'a>(alloc: Global, words: &'a [String]) -> Result<Option<Job<'a>>, NoMemory>
    ensures is { IfOk result (λ j. option_map deed_of j ≡ deed_in (map string_bytes words.entry.now)) }
    ensures within { IfOk result (λ j. IfSome j (λ job. IsDeedWithin (deed_of job))) }
{
    match read_words(alloc, words) {
        Ok(request) => Ok(job_built(request)),
        Err(Refusal::Because { .. }) => Ok(None),
        Err(Refusal::NoMemory) => Err(NoMemory),
    }
}

// What is done for a request, where that is built.
fn job_built<'a>(request: Request<'a>) -> Option<Job<'a>>
    requires { IsWithin (asked_of request) }
    ensures is { option_map deed_of result ≡ built (asked_of request.entry) }
    ensures within { IfSome result (λ job. IsDeedWithin (deed_of job)) }
{
    match request {
        Request::Help { of } => Some(Job::Says { text: help(of) }),
        Request::Version => Some(Job::Says { text: version() }),
        Request::Check { files } => Some(Job::Checks { files }),
        Request::Code { source, files } => Some(Job::Lists {
            what: Listed::Code {
                with_source: source,
            },
            files,
        }),
        Request::Choice { nodes, files } => Some(Job::Chooses { nodes, files }),
        Request::Run {
            options,
            script,
            files,
        } => run_built(options, script, files),
        Request::Replay { history, files } => Some(Job::Replays { history, files }),
        Request::Make { options, number } => make_built(options, number),
        other => {
            drop(other);
            None
        }
    }
}

// How many threads a run has that asks for no other number.
const USUAL_WORKERS: u8 = 4;

// Whether runs with these options are built: by one thread, whatever number of them isn't asked for.
fn is_run_built(options: RunOptions) -> bool
    ensures { result ≡ is_run_built options }
{
    options.workers == USUAL_WORKERS
}

// The run of the files, where that is built.
fn run_built<'a>(
    options: RunOptions,
    script: Option<&'a str>,
    files: Vec<&'a str>,
) -> Option<Job<'a>>
    requires { IsRunWithin options }
    ensures is { option_map deed_of result ≡ run_built options (option_map (λ s. s.now) script.entry) (map (λ s. s.now) files.entry.items) }
    ensures within { IfSome result (λ job. IsDeedWithin (deed_of job)) }
{
    if is_run_built(options) {
        Some(Job::Runs {
            options,
            script,
            files,
        })
    } else {
        None
    }
}

// Whether runs of programs that are made of numbers are built with these options, as those of files are.
fn is_make_built(options: MakeOptions) -> bool
    ensures { result ≡ is_make_built options }
{
    options.workers == USUAL_WORKERS
}

// The program that is made of a number where that is asked for, and else its run, where that is built.
fn make_built<'a>(options: MakeOptions, number: u64) -> Option<Job<'a>>
    requires { IsMakeWithin options }
    ensures is { option_map deed_of result ≡ make_built options number }
    ensures within { IfSome result (λ job. IsDeedWithin (deed_of job)) }
{
    if options.source {
        Some(Job::Shows { number })
    } else if is_make_built(options) {
        Some(Job::Makes { options, number })
    } else {
        None
    }
}
