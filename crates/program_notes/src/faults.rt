//! The notes.

ghost use Rattle.std.specs.Prelude.{IfOk};
ghost use Rattle.program_notes.specs.Faults.{IsLinkNote, IsNameCause, IsTextNote, IsTypeNote};

use crate::causes::cause_of;
use link_rules::LinkError;
use orca_base::{NoMemory, Place};
use refusal_notes::{Cause, Spot, note, word_at};
use std::alloc::Global;
use type_rules::TypeError;

// The rules of linking that a name is defined once, and that a program has `OrcaMain`.
const DEFINED_TWICE: u8 = 1;

const NO_MAIN: u8 = 4;

/// The note on a text of this file of which this is said at this place: that it has no tokens, or that they are no unit.
pub fn text_note(
    alloc: Global,
    file: &str,
    text: &[u8],
    at: Place,
    said: &[u8],
) -> Result<Vec<u8>, NoMemory>
    ensures { IfOk result (λ v. IsTextNote file.now text.now at said.now v.items) }
{
    let spot = Spot { file, text, at };
    let word = word_at(&spot);
    let cause = cause_of(alloc, said, word)?;
    note(alloc, cause, word, Some(spot))
}

// The cause of a breach of a rule of linking, of a name where this word stands.
fn link_cause(error: &LinkError, word: &[u8]) -> Cause
    ensures { IsNameCause error.now word.now result }
{
    if error.rule != DEFINED_TWICE {
        return Cause::Linking { rule: error.rule };
    }
    if word == error.name.as_bytes() {
        return Cause::Linking { rule: error.rule };
    }
    Cause::TwoMains
}

/// The note on a breach of linking, in a file with this text. That a program has no `OrcaMain` is of no file.
pub fn link_note(alloc: Global, error: &LinkError, text: &[u8]) -> Result<Vec<u8>, NoMemory>
    ensures { IfOk result (λ v. IsLinkNote error.now text.now v.items) }
{
    if error.rule == NO_MAIN {
        return note(alloc, Cause::Linking { rule: NO_MAIN }, &[], None);
    }
    let spot = Spot {
        file: error.file.as_str(),
        text,
        at: error.at,
    };
    let cause = link_cause(error, word_at(&spot));
    note(alloc, cause, error.name.as_bytes(), Some(spot))
}

/// The note on a breach of typing, in a file with this text.
pub fn type_note(alloc: Global, error: &TypeError, text: &[u8]) -> Result<Vec<u8>, NoMemory>
    ensures { IfOk result (λ v. IsTypeNote error.now text.now v.items) }
{
    let spot = Spot {
        file: error.file.as_str(),
        text,
        at: error.at,
    };
    let word = word_at(&spot);
    note(alloc, Cause::Typing { rule: error.rule }, word, Some(spot))
}
