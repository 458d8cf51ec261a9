//! Whether a case is answered as wanted.

use crate::calls::{By, CallParts, Calls};
use crate::case::{Case, Flaw};
use crate::given::{CaseFile, Given};
use crate::heads::Printing;
use crate::outcome::Outcome;
use crate::spelled::spelled;
use crate::topics::{Ask, Topic};
use std::alloc::{AllocError, Global};

// The status of `replay` where all is well (docs/FORMATS.md).
const FINISHED: u8 = 0;

// How many characters of a text are shown.
const SHOWN: usize = 400;

/// Nothing where the case is answered as wanted, and else what was wanted and what came. The call is the program's own door; where more is
/// asked than that tells, or the wires are others, it is made by the top too.
pub fn judged<C: Calls>(
    rt: &HostRuntime,
    calls: &C,
    case: &Case<'_>,
) -> Result<Option<String>, Flaw> {
    if case.heads.given.is_by_door() {
        let other = answered_otherwise(rt, calls, case, By::Door)?;
        if other.is_some() || case.asks.is_empty() {
            return Ok(other);
        }
    }
    answered_otherwise(rt, calls, case, By::Top)
}

// What was wanted and came of this call, where something is another.
fn answered_otherwise<C: Calls>(
    rt: &HostRuntime,
    calls: &C,
    case: &Case<'_>,
    by: By,
) -> Result<Option<String>, Flaw> {
    let alloc = rt.alloc();
    let call = CallParts {
        words: &case.words,
        files: copies_of(alloc, &case.files)?,
        given: &case.heads.given,
        by,
    };
    match calls.outcome(rt, call) {
        Ok(outcome) => otherwise(rt, calls, case, by, &outcome),
        Err(_) => Err(Flaw::NoMemory),
    }
}

// What was wanted and came, where something is another.
fn otherwise<C: Calls>(
    rt: &HostRuntime,
    calls: &C,
    case: &Case<'_>,
    by: By,
    outcome: &Outcome,
) -> Result<Option<String>, Flaw> {
    let alloc = rt.alloc();
    if let Some(other) = printed_otherwise(alloc, case, by, outcome)? {
        return Ok(Some(other));
    }
    if by == By::Top {
        if let Some(other) = asks_otherwise(alloc, case, outcome)? {
            return Ok(Some(other));
        }
    }
    history_otherwise(rt, calls, case, outcome)
}

// The same files.
fn copies_of(alloc: Global, files: &[CaseFile]) -> Result<Vec<CaseFile>, AllocError> {
    let mut copies = Vec::new(alloc);
    for (name, text) in files {
        copies.push((name.clone()?, text.clone()?))?;
    }
    Ok(copies)
}

// What was wanted and came, where the status or what was printed is another.
fn printed_otherwise(
    alloc: Global,
    case: &Case<'_>,
    by: By,
    outcome: &Outcome,
) -> Result<Option<String>, AllocError> {
    let wanted = case.printed.as_slice();
    let printed = outcome.printed.as_slice();
    let same = match case.heads.printing {
        Printing::Whole => printed == wanted,
        Printing::Front | Printing::History => printed.starts_with(wanted),
        Printing::Part => has_part(printed, wanted),
    };
    if same && outcome.status == case.status {
        return Ok(None);
    }
    let wanted = shown(alloc, wanted)?;
    let printed = shown(alloc, printed)?;
    let why = case.why;
    let (status, other) = (case.status, outcome.status);
    Ok(Some(format!(in alloc;
        "{why}\n  wanted {status} {wanted:?}\n  came by {by:?} {other} {printed:?}"
    )?))
}

// Whether a text stands somewhere in another.
fn has_part(printed: &[u8], wanted: &[u8]) -> bool {
    match (str::from_utf8(printed), str::from_utf8(wanted)) {
        (Ok(printed), Ok(wanted)) => printed.contains(wanted),
        _ => false,
    }
}

// The first characters of a text.
fn shown(alloc: Global, text: &[u8]) -> Result<String, AllocError> {
    let whole = String::from_utf8_lossy(alloc, text)?;
    let mut front = String::new(alloc);
    for char in whole.as_str().chars().take(SHOWN) {
        front.push(char)?;
    }
    Ok(front)
}

// What was wanted and came, where an ask of the case is answered otherwise.
fn asks_otherwise(
    alloc: Global,
    case: &Case<'_>,
    outcome: &Outcome,
) -> Result<Option<String>, AllocError> {
    for ask in &case.asks {
        if let Some(other) = asked_otherwise(alloc, case, *ask, outcome)? {
            return Ok(Some(other));
        }
    }
    Ok(None)
}

// The same of one ask.
fn asked_otherwise(
    alloc: Global,
    case: &Case<'_>,
    ask: Ask<'_>,
    outcome: &Outcome,
) -> Result<Option<String>, AllocError> {
    let came = spelled(alloc, ask.topic, outcome)?;
    let same = match ask.topic {
        Topic::MorePackets => is_more(came.as_str(), ask.wanted),
        _ => came.as_str() == ask.wanted,
    };
    if same {
        return Ok(None);
    }
    let why = case.why;
    let (topic, wanted) = (ask.topic, ask.wanted);
    Ok(Some(format!(in alloc; "{why}\n  {topic:?}: wanted {wanted}\n  came {came}")?))
}

// Whether one number is greater than another. What is no number isn't.
fn is_more(came: &str, wanted: &str) -> bool {
    match (came.parse::<u64>(), wanted.parse::<u64>()) {
        (Ok(came), Ok(wanted)) => came > wanted,
        _ => false,
    }
}

// What came, where a history is asked for behind the output and is none of the case's program.
fn history_otherwise<C: Calls>(
    rt: &HostRuntime,
    calls: &C,
    case: &Case<'_>,
    outcome: &Outcome,
) -> Result<Option<String>, Flaw> {
    if case.heads.printing != Printing::History {
        return Ok(None);
    }
    let printed = outcome.printed.as_slice();
    match printed.strip_prefix(case.printed.as_slice()) {
        Some(history) if !history.is_empty() => replayed_otherwise(rt, calls, case, history),
        _ => Ok(Some(format!(in rt.alloc(); "{}: no history", case.why)?)),
    }
}

// What `replay` says of a history, where it isn't that it is one of the case's program.
fn replayed_otherwise<C: Calls>(
    rt: &HostRuntime,
    calls: &C,
    case: &Case<'_>,
    history: &[u8],
) -> Result<Option<String>, Flaw> {
    let alloc = rt.alloc();
    let mut files = copies_of(alloc, &case.files)?;
    let name = String::from_str(alloc, "printed.history")?;
    files.push((name, Vec::from_slice(alloc, history)?))?;
    let words = replay_words(alloc, &case.words)?;
    let call = CallParts {
        words: &words,
        files,
        given: &Given::new(alloc),
        by: By::Door,
    };
    match calls.outcome(rt, call) {
        Ok(said) => said_otherwise(alloc, case, &said),
        Err(_) => Err(Flaw::NoMemory),
    }
}

// What `replay` says, where it isn't `legal`.
fn said_otherwise(alloc: Global, case: &Case<'_>, said: &Outcome) -> Result<Option<String>, Flaw> {
    if said.status == FINISHED && said.printed.as_slice() == b"legal\n".as_slice() {
        return Ok(None);
    }
    let line = shown(alloc, said.printed.as_slice())?;
    Ok(Some(format!(in alloc; "{}: replay says {line:?}", case.why)?))
}

// The words of `replay` for the history and the program's files, which are the words that end so.
fn replay_words(alloc: Global, words: &[String]) -> Result<Vec<String>, AllocError> {
    let mut line = Vec::new(alloc);
    line.push(String::from_str(alloc, "replay")?)?;
    line.push(String::from_str(alloc, "printed.history")?)?;
    for word in words {
        if word.as_str().ends_with(".orca") {
            line.push(word.clone()?)?;
        }
    }
    Ok(line)
}
