//! Which word of a command line is wrong.
//!
//! `read_words` says only that words are no command. This goes over them from the left, by the options of the commands that are built
//! (docs/FORMATS.md, Words), and tells the first word that doesn't fit.

ghost use Rattle.std.specs.Prelude.{◌≡◌, ℕ, [], IfOk, List, None};
ghost use Rattle.refusal_notes.specs.Notes.{note_of};
ghost use Rattle.refusal_notes.specs.declared.cause.Cause.TheVariants.{Usage};
ghost use Rattle.refusal_notes.specs.declared.cause.UsageRule.{UsageRule};

use command_line::{Request, read_words};
use orca_base::{EVENTS, NODES, NoMemory, RESILIENCE, Refusal, TURNS, WORKERS};
use refusal_notes::{Cause, UsageRule, note};
use std::alloc::Global;

// What is wrong, and the word that it is wrong with.
#[derive(Clone, Copy)]
struct WrongWord<'a> {
    rule: UsageRule,
    word: &'a str,
}

// The most packets that `make` loses.
const MOST_LOST: u64 = 100;

// What an option takes.
#[derive(Clone, Copy)]
enum Takes {
    Nothing,
    Text,
    Number { least: u64, most: u64 },
}

// The commands that are built, and the others.
const BUILT: [&str; 6] = ["check", "run", "code", "choice", "replay", "make"];

const NOT_BUILT: [&str; 1] = ["join"];

// The options, the commands that are built and have them, and what they take.
const OPTIONS: [(&str, &[&str], Takes); 10] = [
    (
        "--nodes",
        &["run", "choice", "make"],
        Takes::Number {
            least: 1,
            most: NODES as u64,
        },
    ),
    (
        "--resilience",
        &["run", "make"],
        Takes::Number {
            least: 0,
            most: RESILIENCE as u64,
        },
    ),
    (
        "--workers",
        &["run", "make"],
        Takes::Number {
            least: 1,
            most: WORKERS as u64,
        },
    ),
    (
        "--turns",
        &["run"],
        Takes::Number {
            least: 1,
            most: TURNS,
        },
    ),
    (
        "--events",
        &["run"],
        Takes::Number {
            least: 1,
            most: EVENTS,
        },
    ),
    ("--script", &["run"], Takes::Text),
    ("--history", &["run"], Takes::Nothing),
    ("--explain", &["run"], Takes::Nothing),
    (
        "--lose",
        &["make"],
        Takes::Number {
            least: 0,
            most: MOST_LOST,
        },
    ),
    ("--source", &["code", "make"], Takes::Nothing),
];

// What this option of the command takes, where it has it.
fn taken(command: &str, option: &str) -> Option<Takes> {
    for (name, commands, takes) in &OPTIONS {
        if *name == option && commands.contains(&command) {
            return Some(*takes);
        }
    }
    None
}

// Whether a word is an option, or looks like one: a dash alone is a name.
fn is_option(word: &str) -> bool {
    word.len() > 1 && word.starts_with('-')
}

// The name of an option, and its value where that stands behind `=`.
fn parted(word: &str) -> (&str, Option<&str>) {
    match word.split_once('=') {
        Some((option, value)) => (option, Some(value)),
        None => (word, None),
    }
}

// Whether a word is a number of this range, in decimal digits.
fn is_number(word: &str, least: u64, most: u64) -> bool {
    if word.len() > 19 || !word.bytes().all(|byte| byte.is_ascii_digit()) {
        return false;
    }
    match word.parse::<u64>() {
        Ok(number) => least <= number && number <= most,
        Err(_) => false,
    }
}

// What is wrong with an option and its value, or with its having none.
fn wrong_value<'a>(option: &'a str, takes: Takes, value: Option<&'a str>) -> Option<WrongWord<'a>> {
    let (rule, word) = match (takes, value) {
        (Takes::Nothing, Some(_)) => (UsageRule::NeedlessValue, option),
        (Takes::Text | Takes::Number { .. }, None) => (UsageRule::MissingValue, option),
        (Takes::Number { least, most }, Some(value)) if !is_number(value, least, most) => {
            (UsageRule::BadValue, value)
        }
        _ => return None,
    };
    Some(WrongWord { rule, word })
}

// What is wrong with the word behind an option that waits for its value.
fn wrong_waited<'a>(option: &'a str, takes: Takes, word: &'a str) -> Option<WrongWord<'a>> {
    let value = if is_option(word) { None } else { Some(word) };
    wrong_value(option, takes, value)
}

// Whether one of these words is this option.
fn has_option(words: &[String], option: &str) -> bool {
    words.iter().any(|word| parted(word.as_str()).0 == option)
}

// What is wrong with a word that is an option, behind these words, with its value where that stands behind `=`; and which value it waits for.
fn wrong_option<'a>(
    command: &str,
    before: &[String],
    word: &'a str,
) -> Result<Option<(&'a str, Takes)>, WrongWord<'a>> {
    let (option, value) = parted(word);
    let Some(takes) = taken(command, option) else {
        let rule = UsageRule::UnknownOption;
        return Err(WrongWord { rule, word: option });
    };
    if has_option(before, option) {
        let rule = UsageRule::Repeated;
        return Err(WrongWord { rule, word: option });
    }
    if value.is_none() && !matches!(takes, Takes::Nothing) {
        return Ok(Some((option, takes)));
    }
    match wrong_value(option, takes, value) {
        Some(found) => Err(found),
        None => Ok(None),
    }
}

// How many words that are no options a command needs.
fn needed(command: &str) -> usize {
    if command == "replay" { 2 } else { 1 }
}

// Whether a command takes no more words than it needs that are no options.
fn is_full(command: &str, others: usize) -> bool {
    command == "make" && others >= needed(command)
}

// What is wrong with a word that is no option, behind so many others.
fn wrong_other<'a>(command: &str, others: usize, word: &'a str) -> Option<WrongWord<'a>> {
    if is_full(command, others) {
        let rule = UsageRule::NeedlessWord;
        return Some(WrongWord { rule, word });
    }
    if command == "make" && !is_number(word, 0, u64::MAX) {
        let rule = UsageRule::Unclear;
        return Some(WrongWord { rule, word: "" });
    }
    None
}

// What is wrong with the words of a command as a whole, where so many are no options.
fn wrong_whole<'a>(command: &str, others: usize) -> WrongWord<'a> {
    let rule = if others < needed(command) {
        UsageRule::MissingFile
    } else if command == "run" || command == "make" {
        UsageRule::TooFewMembers
    } else {
        UsageRule::Unclear
    };
    WrongWord { rule, word: "" }
}

// The first word behind the command's that is wrong.
fn wrong_behind<'a>(command: &str, words: &'a [String]) -> WrongWord<'a> {
    let mut waiting = None;
    let mut options_end = false;
    let mut others = 0usize;
    for (place, word) in words.iter().enumerate() {
        let word = word.as_str();
        if let Some((option, takes)) = waiting {
            if let Some(found) = wrong_waited(option, takes, word) {
                return found;
            }
            waiting = None;
        } else if options_end || !is_option(word) {
            if let Some(found) = wrong_other(command, others, word) {
                return found;
            }
            others = others.saturating_add(1);
        } else if word == "--" {
            options_end = true;
        } else {
            match wrong_option(command, &words[..place], word) {
                Ok(option) => waiting = option,
                Err(found) => return found,
            }
        }
    }
    if let Some((option, _)) = waiting {
        let rule = UsageRule::MissingValue;
        return WrongWord { rule, word: option };
    }
    wrong_whole(command, others)
}

// What is wrong with words that are no command, as far as it is one word.
fn wrong_word(words: &[String]) -> WrongWord<'_> {
    let [command, behind @ ..] = words else {
        let rule = UsageRule::NoCommand;
        return WrongWord { rule, word: "" };
    };
    let command = command.as_str();
    if NOT_BUILT.contains(&command) {
        let rule = UsageRule::NotBuilt;
        return WrongWord {
            rule,
            word: command,
        };
    }
    if !BUILT.contains(&command) {
        let rule = UsageRule::UnknownCommand;
        return WrongWord {
            rule,
            word: command,
        };
    }
    wrong_behind(command, behind)
}

// What isn't built of what a request asks for: an option of a run, or the command.
fn not_built<'a>(request: &Request<'_>, words: &'a [String]) -> WrongWord<'a> {
    let rule = UsageRule::NotBuilt;
    if matches!(request, Request::Run { .. } | Request::Make { .. }) {
        return WrongWord {
            rule,
            word: "--workers",
        };
    }
    match words.first() {
        Some(word) => WrongWord {
            rule,
            word: word.as_str(),
        },
        None => WrongWord {
            rule: UsageRule::NoCommand,
            word: "",
        },
    }
}

/// The note on words that are no command, or that ask for what isn't built.
pub fn usage_note(alloc: Global, words: &[String]) -> Result<Vec<u8>, NoMemory>
    ensures { IfOk result (λ v. (rule : UsageRule) × (subject : List ℕ) × (v.items ≡ note_of (Usage rule) subject None)) }
{
    let found = match read_words(alloc, words) {
        Ok(request) => not_built(&request, words),
        Err(Refusal::Because { .. }) => wrong_word(words),
        Err(Refusal::NoMemory) => return Err(NoMemory),
    };
    let cause = Cause::Usage { rule: found.rule };
    note(alloc, cause, found.word.as_bytes(), None)
}

/// The note on words of which one isn't UTF-8.
pub fn not_text_note(alloc: Global) -> Result<Vec<u8>, NoMemory>
    ensures { IfOk result (λ v. v.items ≡ note_of (Usage UsageRule.NotUtf8) [] None) }
{
    let rule = UsageRule::NotUtf8;
    note(alloc, Cause::Usage { rule }, &[], None)
}
