//! The words, read.

ghost use Rattle.std.specs.Prelude.{◌≡◌, map, option_map, slice_get, string_bytes, Some, None, IfOk, IfSome};
ghost use Rattle.std.specs.List.{list_any};
ghost use Rattle.orca_base.specs.Refusal.{MatchRefusal};
ghost use Rattle.clap.specs.Words.{found_of, rows_of};
ghost use Rattle.command_line.specs.Asked.{IsWithin, asked_by, asked_of};
ghost use Rattle.command_line.specs.Command.{Command, asked_in, found_in, is_help, is_version, name_of};

use crate::commands::command;
use crate::options::{
    asks_source, files, join_options, make_options, nodes, run_options, seed, text,
};
use crate::request::{CommandName, Request};
use clap::ArgMatches;
use clap::error::ErrorKind;
use orca_base::{NoMemory, Refusal, refuse};
use std::alloc::Global;

/// The words are no command.
#[derive(Clone, Copy, Debug, PartialEq, Eq)]
pub struct Usage;

// Whether a word asks for help.
fn is_help_word(word: &str) -> bool
    ensures { result ≡ is_help word.now }
{
    word == "--help" || word == "-h"
}

// Whether a word asks for the version.
fn is_version_word(word: &str) -> bool
    ensures { result ≡ is_version word.now }
{
    word == "--version" || word == "-V"
}

// The first word.
fn first_word(words: &[String]) -> Option<&str>
    ensures { option_map (λ s. s.now) result ≡ slice_get (map string_bytes words.now) 0 }
{
    match words {
        [first, ..] => Some(first.as_str()),
        [] => None,
    }
}

// Whether one of the words asks for help.
fn asks_help(words: &[String]) -> bool
    ensures { result ≡ list_any (λ w. is_help (string_bytes w)) words.now }
{
    words.iter().any(|word| is_help_word(word.as_str()))
}

// The command that a first word names.
fn name_in(word: &str) -> Option<CommandName>
    ensures { result ≡ name_of word.now }
{
    match word {
        "check" => Some(CommandName::Check),
        "run" => Some(CommandName::Run),
        "code" => Some(CommandName::Code),
        "choice" => Some(CommandName::Choice),
        "replay" => Some(CommandName::Replay),
        "make" => Some(CommandName::Make),
        "join" => Some(CommandName::Join),
        _ => None,
    }
}

// What `clap` finds in the words, the command's own among them, where it takes them.
fn matched<'a>(
    alloc: Global,
    name: CommandName,
    words: &'a [String],
) -> Result<Option<ArgMatches<'a>>, NoMemory>
    ensures { IfOk result (λ m. option_map (λ m. rows_of (found_of m)) m ≡ found_in name (map string_bytes words.entry.now)) }
{
    let command = command(alloc, name)?;
    match command.try_get_matches_from(words) {
        Ok(matches) => Ok(Some(matches)),
        Err(error) => match error.kind() {
            ErrorKind::OutOfMemory => Err(NoMemory),
            _ => Ok(None),
        },
    }
}

// What the matches of a command ask for.
fn asked<'a>(
    alloc: Global,
    name: CommandName,
    matches: &ArgMatches<'a>,
) -> Result<Option<Request<'a>>, NoMemory>
    ensures is { IfOk result (λ r. option_map asked_of r ≡ asked_by name (rows_of (found_of matches.now))) }
    ensures within { IfOk result (λ r. IfSome r (λ r. IsWithin (asked_of r))) }
{
    let files = files(alloc, matches)?;
    let request = match name {
        CommandName::Check => Request::Check { files },
        CommandName::Code => {
            let source = asks_source(matches);
            Request::Code { source, files }
        }
        CommandName::Run => {
            let Some(options) = run_options(matches) else {
                return Ok(None);
            };
            let script = text(matches, "script");
            Request::Run {
                options,
                script,
                files,
            }
        }
        CommandName::Choice => {
            let Some(nodes) = nodes(matches) else {
                return Ok(None);
            };
            Request::Choice { nodes, files }
        }
        CommandName::Replay => {
            let Some(history) = text(matches, "history") else {
                return Ok(None);
            };
            Request::Replay { history, files }
        }
        CommandName::Make => {
            let (Some(options), Some(number)) = (make_options(matches), seed(matches)) else {
                return Ok(None);
            };
            Request::Make { options, number }
        }
        CommandName::Join => {
            let Some(options) = join_options(matches) else {
                return Ok(None);
            };
            let script = text(matches, "script");
            Request::Join {
                options,
                script,
                files,
            }
        }
    };
    Ok(Some(request))
}

// What the words of a command ask for, where it doesn't ask for help.
fn read_command<'a>(
    alloc: Global,
    name: CommandName,
    words: &'a [String],
) -> Result<Request<'a>, Refusal<Usage>>
    ensures is { MatchRefusal result (λ r. asked_in name (map string_bytes words.entry.now) ≡ Some (asked_of r))
        (λ _. asked_in name (map string_bytes words.entry.now) ≡ None) }
    ensures within { IfOk result (λ r. IsWithin (asked_of r)) }
{
    let Some(matches) = matched(alloc, name, words)? else {
        return refuse(Usage);
    };
    match asked(alloc, name, &matches)? {
        Some(request) => Ok(request),
        None => refuse(Usage),
    }
}

/// What the words ask for, the program's name left out. They are `Usage` exactly where they are no command.
pub fn read_words<'a>(alloc: Global, words: &'a [String]) -> Result<Request<'a>, Refusal<Usage>>
    ensures is { MatchRefusal result (λ r. Command (map string_bytes words.entry.now) ≡ Some (asked_of r))
        (λ _. Command (map string_bytes words.entry.now) ≡ None) }
    ensures within { IfOk result (λ r. IsWithin (asked_of r)) }
{
    let Some(first) = first_word(words) else {
        return refuse(Usage);
    };
    if is_help_word(first) {
        return Ok(Request::Help { of: None });
    }
    if is_version_word(first) {
        return Ok(Request::Version);
    }
    let Some(name) = name_in(first) else {
        return refuse(Usage);
    };
    if asks_help(words) {
        return Ok(Request::Help { of: Some(name) });
    }
    read_command(alloc, name, words)
}
