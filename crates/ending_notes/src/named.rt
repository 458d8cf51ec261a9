//! Which files a command line names.

ghost use Rattle.std.specs.Prelude.{◌≡◌, IfOk, Some, map, option_map, string_bytes};
ghost use Rattle.command_line.specs.Asked.{asked_of};
ghost use Rattle.ending_notes.specs.Endings.{count_of, program_files};

use command_line::{Request, read_words};
use orca_base::{NoMemory, Refusal};
use std::alloc::Global;

/// How many files a program has that words name, and whether they name a script beside it, or a history.
#[derive(Clone, Copy)]
pub struct NamedFiles {
    pub files: usize,
    pub script: bool,
    pub history: bool,
}

// So many files of a program alone.
fn alone(files: usize) -> Option<NamedFiles>
    ensures { option_map (λ n. n.files) result ≡ Some files }
{
    Some(NamedFiles {
        files,
        script: false,
        history: false,
    })
}

// What a request names; none where it is of no command that reads a program.
fn named(request: &Request<'_>) -> Option<NamedFiles>
    ensures { option_map (λ n. n.files) result ≡ count_of (asked_of request.now) }
{
    match request {
        Request::Check { files } | Request::Code { files, .. } | Request::Choice { files, .. } => {
            alone(files.len())
        }
        Request::Run { files, script, .. } => Some(NamedFiles {
            files: files.len(),
            script: script.is_some(),
            history: false,
        }),
        Request::Replay { files, .. } => Some(NamedFiles {
            files: files.len(),
            script: false,
            history: true,
        }),
        _ => None,
    }
}

/// What the words name; none where they are no command that reads a program.
pub fn files_named(alloc: Global, words: &[String]) -> Result<Option<NamedFiles>, NoMemory>
    ensures { IfOk result (λ o. option_map (λ n. n.files) o ≡ program_files (map string_bytes words.now)) }
{
    match read_words(alloc, words) {
        Ok(request) => Ok(named(&request)),
        Err(Refusal::Because { .. }) => Ok(None),
        Err(Refusal::NoMemory) => Err(NoMemory),
    }
}
