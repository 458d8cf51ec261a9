//! What is said of a text, as a cause.

ghost use Rattle.std.specs.Prelude.{◌≡◌, ◌≢◌, IfNone, IfOk, IfSome};
ghost use Rattle.orca_lexer.specs.Rules.{message_of};
ghost use Rattle.orca_lexer.specs.declared.error.LexRule.{LexRule};
ghost use Rattle.program_notes.specs.Faults.{IsSaid};

use orca_base::{NoMemory, Refusal};
use orca_lexer::{LexRule, TokenKind, tokens};
use refusal_notes::{Cause, Hint};
use std::alloc::Global;

// The rule of the lexer with this message.
fn rule_said(said: &[u8]) -> Option<LexRule>
    ensures found { IfSome result (λ rule. said.now ≡ message_of rule) }
    ensures none { IfNone result ((rule : LexRule) → said.now ≢ message_of rule) }
{
    if said == LexRule::NotUtf8.message().as_bytes() {
        return Some(LexRule::NotUtf8);
    }
    if said == LexRule::StrayCharacter.message().as_bytes() {
        return Some(LexRule::StrayCharacter);
    }
    if said == LexRule::OpenString.message().as_bytes() {
        return Some(LexRule::OpenString);
    }
    if said == LexRule::NumberTooLarge.message().as_bytes() {
        return Some(LexRule::NumberTooLarge);
    }
    None
}

// The longest word of the language has as many bytes, or fewer.
const LONGEST_WORD: usize = 16;

// Whether the word is one of the language.
fn is_keyword(alloc: Global, word: &[u8]) -> Result<bool, NoMemory> {
    if word.len() > LONGEST_WORD {
        return Ok(false);
    }
    match tokens(alloc, word) {
        Ok(found) => match found.first() {
            Some(token) => Ok(matches!(&token.kind, TokenKind::Key { .. })),
            None => Ok(false),
        },
        Err(Refusal::Because { .. }) => Ok(false),
        Err(Refusal::NoMemory) => Err(NoMemory),
    }
}

// Whether the word ends a part of a statement.
fn is_closing(word: &[u8]) -> bool {
    [
        &b"do"[..],
        b"else",
        b"elsif",
        b"end",
        b"fi",
        b"od",
        b"then",
        b"until",
    ]
    .contains(&word)
}

// The hint for an unexpected token, which begins with this word where it is one.
fn hint(alloc: Global, said: &[u8], word: &[u8]) -> Result<Hint, NoMemory> {
    if said == b"unexpected '='".as_slice() {
        return Ok(Hint::Equals);
    }
    if said == b"unexpected ';'".as_slice() {
        return Ok(Hint::Semicolon);
    }
    if is_closing(word) {
        return Ok(Hint::Closing);
    }
    if word == b"module".as_slice() || word == b"import".as_slice() {
        return Ok(Hint::Header);
    }
    if is_keyword(alloc, word)? {
        return Ok(Hint::Keyword);
    }
    Ok(Hint::Other)
}

/// The cause for which this is said of a text (docs/FORMATS.md, Statuses), where the word at its place is this one.
pub fn cause_of(alloc: Global, said: &[u8], word: &[u8]) -> Result<Cause, NoMemory>
    ensures { IfOk result (IsSaid said.now) }
{
    if let Some(rule) = rule_said(said) {
        return Ok(Cause::Lexical { rule });
    }
    if said == b"unexpected end of text".as_slice() {
        return Ok(Cause::UnexpectedEnd);
    }
    let hint = hint(alloc, said, word)?;
    Ok(Cause::Unexpected { hint })
}
