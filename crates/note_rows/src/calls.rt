//! The calls of parts.

use orca_base::{FaultKind, Place, What};
use orca_lexer::LexRule;
use refusal_notes::{Cause, Hint, HistoryPart, ScriptRule, Spot, UsageRule, note, word_at};
use std::alloc::{AllocError, Global};

/// A call: its words, and the text that lies behind it.
#[derive(Clone, Copy, Drop)]
pub struct Call<'a> {
    pub words: &'a [&'a str],
    pub text: &'a [u8],
}

// The word with this number, or an empty one.
fn word<'a>(call: &Call<'a>, number: usize) -> &'a str {
    match call.words.get(number) {
        Some(word) => *word,
        None => "",
    }
}

// The rule in the second word.
fn rule_in(call: &Call<'_>) -> u8 {
    word(call, 1).parse::<u8>().unwrap_or(0)
}

// The place in the third word and behind it.
fn spot_in<'a>(call: &Call<'a>) -> Option<Spot<'a>> {
    let line = word(call, 3).parse::<u32>().ok()?;
    let column = word(call, 4).parse::<u32>().ok()?;
    Some(Spot {
        file: word(call, 2),
        text: call.text,
        at: Place { line, column },
    })
}

// A rule of the lexer.
fn lexical(rule: u8) -> LexRule {
    match rule {
        1 => LexRule::NotUtf8,
        2 => LexRule::StrayCharacter,
        3 => LexRule::OpenString,
        _ => LexRule::NumberTooLarge,
    }
}

fn hint(word: &str) -> Hint {
    match word {
        "equals" => Hint::Equals,
        "semicolon" => Hint::Semicolon,
        "closing" => Hint::Closing,
        "header" => Hint::Header,
        "keyword" => Hint::Keyword,
        _ => Hint::Other,
    }
}

fn limit(word: &str) -> What {
    match word {
        "source-bytes" => What::SourceBytes,
        "script-bytes" => What::ScriptBytes,
        "history-bytes" => What::HistoryBytes,
        "modules" => What::Modules,
        "nesting" => What::Nesting,
        "code-length" => What::CodeLength,
        "objects" => What::Objects,
        "processes" => What::Processes,
        _ => What::HistoryLines,
    }
}

fn part(word: &str) -> HistoryPart {
    match word {
        "form" => HistoryPart::Form,
        "process" => HistoryPart::Process,
        "call" => HistoryPart::Call,
        "action" => HistoryPart::Action,
        "guard" => HistoryPart::Guard,
        _ => HistoryPart::Reply,
    }
}

fn fault(word: &str) -> FaultKind {
    match word {
        "Overflow" => FaultKind::Overflow,
        "DivideByZero" => FaultKind::DivideByZero,
        "IndexOutside" => FaultKind::IndexOutside,
        "FromEmpty" => FaultKind::FromEmpty,
        "TooLarge" => FaultKind::TooLarge,
        "TooLong" => FaultKind::TooLong,
        "TooDeep" => FaultKind::TooDeep,
        _ => FaultKind::NoReturn,
    }
}

fn usage(word: &str) -> UsageRule {
    match word {
        "no-command" => UsageRule::NoCommand,
        "unknown-command" => UsageRule::UnknownCommand,
        "not-built" => UsageRule::NotBuilt,
        "unknown-option" => UsageRule::UnknownOption,
        "missing-value" => UsageRule::MissingValue,
        "needless-value" => UsageRule::NeedlessValue,
        "bad-value" => UsageRule::BadValue,
        "repeated" => UsageRule::Repeated,
        "too-few-members" => UsageRule::TooFewMembers,
        "missing-file" => UsageRule::MissingFile,
        "needless-word" => UsageRule::NeedlessWord,
        "not-utf8" => UsageRule::NotUtf8,
        _ => UsageRule::Unclear,
    }
}

// What a run ends by, or what befell its files.
fn ending(verb: &str) -> Cause {
    match verb {
        "absent" => Cause::Absent,
        "unreadable" => Cause::Unreadable,
        "blocked" => Cause::Blocked,
        "no-group" => Cause::NoGroup,
        "out-of-events" => Cause::OutOfEvents,
        "out-of-turns" => Cause::OutOfTurns,
        _ => Cause::MainLost,
    }
}

// The cause in the first two words.
fn cause_in(call: &Call<'_>) -> Cause {
    let second = word(call, 1);
    match word(call, 0) {
        "lexical" => Cause::Lexical {
            rule: lexical(rule_in(call)),
        },
        "unexpected" => Cause::Unexpected { hint: hint(second) },
        "unexpected-end" => Cause::UnexpectedEnd,
        "linking" => Cause::Linking {
            rule: rule_in(call),
        },
        "two-mains" => Cause::TwoMains,
        "typing" => Cause::Typing {
            rule: rule_in(call),
        },
        "limit" => Cause::Limit {
            what: limit(second),
        },
        "parameters" => Cause::Parameters,
        "script" if second == "unknown-word" => Cause::Script {
            rule: ScriptRule::UnknownWord,
        },
        "script" if second == "bad-number" => Cause::Script {
            rule: ScriptRule::BadNumber,
        },
        "script" => Cause::Script {
            rule: ScriptRule::CarriageReturn,
        },
        "no-such-member" => Cause::NoSuchMember,
        "history" => Cause::History { part: part(second) },
        "faulted" => Cause::Faulted {
            fault: fault(second),
        },
        "usage" => Cause::Usage {
            rule: usage(second),
        },
        verb => ending(verb),
    }
}

/// The note of a part. Where there is a place, its subject is the word there, and else the third word.
pub fn answer(alloc: Global, call: &Call<'_>) -> Result<String, AllocError> {
    let cause = cause_in(call);
    let noted = match spot_in(call) {
        Some(spot) => note(alloc, cause, word_at(&spot), Some(spot)),
        None => note(alloc, cause, word(call, 2).as_bytes(), None),
    };
    match noted {
        Ok(bytes) => String::from_utf8_lossy(alloc, &bytes),
        Err(_) => Err(AllocError),
    }
}
