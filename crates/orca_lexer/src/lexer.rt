//! From bytes to tokens.

ghost use Rattle.std.specs.Prelude.{◌≡◌, ◌-◌, ◌<◌, ◌^◌, ◌≤◌, length, drop, List, IfOk};
ghost use Rattle.std.specs.List.{All, AllByRecursion, AllPairs};
ghost use Rattle.std.specs.Str.{IsUtf8};
ghost use Rattle.orca_base.specs.Refusal.{MatchRefusal, IfBecause};
ghost use Rattle.orca_lexer.specs.declared.error.LexError.{LexError};
ghost use Rattle.orca_lexer.specs.declared.token.Token.{Token};
ghost use Rattle.orca_lexer.specs.Tokens.{Follow, HasRoom, Tokens};
ghost use Rattle.orca_lexer.specs.Order.{StandsBefore};
ghost use Rattle.orca_lexer.specs.Spelling.{IsSound};
ghost use Rattle.orca_lexer.specs.Refusal.{IsRefusal, IsNoToken};
ghost use Rattle.orca_lexer.specs.Cursors.{IsAt, StartsToken, IsFaultAt};

use crate::cursor::{Cursor, opening};
use crate::encoding::bad_byte;
use crate::error::{LexError, LexRule};
use crate::gap::past_gap;
use crate::lexemes::lexeme_at;
use crate::token::Token;
use orca_base::Refusal;
use std::alloc::Global;

// The token that begins here, and where it ends.
fn token_at(
    alloc: Global,
    text: &[u8],
    cursor: Cursor,
) -> Result<(Token, Cursor), Refusal<LexError>>
    requires at { IsAt text.now cursor }
    requires more { cursor.offset < length text.now }
    requires fits { length text.now < 2 ^ 32 - 1 }
    ensures { MatchRefusal result (λ r. StartsToken text.now cursor.offset r.0 r.1) (IsFaultAt text.now cursor.offset) }
{
    match lexeme_at(alloc, &text[cursor.offset..]) {
        Ok(lexeme) => {
            let behind = cursor.past_all(text, lexeme.len);
            let token = Token {
                kind: lexeme.kind,
                start: cursor.offset as u32,
                end: behind.offset as u32,
                at: cursor.at,
            };
            Ok((token, behind))
        }
        Err(Refusal::Because { cause }) => Err(Refusal::Because {
            cause: LexError {
                rule: cause.rule,
                at: cursor.past_all(text, cause.distance).at,
            },
        }),
        Err(Refusal::NoMemory) => Err(Refusal::NoMemory),
    }
}

// The tokens of a text that is UTF-8.
fn lexed(alloc: Global, text: &[u8]) -> Result<Vec<Token>, Refusal<LexError>>
    requires utf8 { IsUtf8 text.now }
    requires fits { length text.now < 2 ^ 32 - 1 }
    ensures { MatchRefusal result (λ found. Tokens text.now found.items) (IsNoToken text.now) }
{
    let mut found = Vec::new(alloc);
    let mut cursor = past_gap(text, opening());
    'tokens: while cursor.offset < text.len() {
        let (token, behind) = token_at(alloc, text, cursor)?;
        found.push(token)?;
        cursor = past_gap(text, behind);
    }
    Ok(found)
}

/// The tokens of a text, by longest match over the shapes of lexemes, or the first reason for which it has none.
pub fn tokens(alloc: Global, text: &[u8]) -> Result<Vec<Token>, Refusal<LexError>>
    requires { length text.now < 2 ^ 32 - 1 }

    // These are the tokens, and no other list is.
    ensures tokens { IfOk result (λ found. Tokens text.now found.items) }
    ensures only { IfOk result (λ found. (others : List Token) → Tokens text.now others → others ≡ found.items) }
    ensures sound { IfOk result (λ found. AllByRecursion (λ token. IsSound token.kind) found.items) }

    // Each has a slice of the text and a place behind it, and they stand in text order, as their places do.
    ensures room { IfOk result (λ found. All HasRoom found.items) }
    ensures within { IfOk result (λ found. All (λ token. token.end ≤ length text.now) found.items) }
    ensures rise { IfOk result (λ found. AllPairs (λ one other. one.end ≤ other.start) found.items) }
    ensures places { IfOk result (λ found. AllPairs (λ one other. StandsBefore one.at other.at) found.items) }

    // No list is; this is the first reason, and no other is.
    ensures none { IfBecause result (λ _. (others : List Token) → Tokens text.now others → ⊥) }
    ensures refused { IfBecause result (IsRefusal text.now) }
    ensures first { IfBecause result (λ error. (other : LexError) → IsRefusal text.now other → other ≡ error) }
{
    match bad_byte(text) {
        None => lexed(alloc, text),
        Some(offset) => Err(Refusal::Because {
            cause: LexError {
                rule: LexRule::NotUtf8,
                at: opening().past_all(text, offset).at,
            },
        }),
    }
}
