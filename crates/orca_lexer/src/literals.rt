//! Chars and strings.

ghost use Rattle.std.specs.Prelude.{◌≡◌, ◌+◌, ◌≤◌, ◌<◌, length, drop, take, true, false, ◌==◌, ◌^◌, MatchOption};
ghost use Rattle.std.specs.Option.{option_map};
ghost use Rattle.orca_base.specs.Refusal.{MatchRefusal};
ghost use Rattle.orca_lexer.specs.Shapes.{is_quote, is_literal, content_len, content_of};
ghost use Rattle.orca_lexer.specs.Contents.{escape_of, is_plain, is_continuation, first_character, Spells, character_count};
ghost use Rattle.orca_lexer.specs.Tokens.{IsStart, Means};
ghost use Rattle.orca_lexer.specs.Fronts.{IsFront, IsStrayInside, IsUnclosed, IsLiteralFront};
ghost use Rattle.orca_lexer.specs.Refusal.{IsFault, IsSenseless};

use crate::error::LexRule;
use crate::parts::{Fault, Lexeme};
use crate::token::TokenKind;
use orca_base::{Refusal, Text};
use std::alloc::Global;

/// Whether a char or a string begins with this byte.
pub fn is_quote(byte: u8) -> bool
    ensures { result ≡ is_quote byte }
{
    byte == b'\'' || byte == b'"'
}

// How many bytes stand before the closing quote, of what follows the opening one.
fn content_len(quote: u8, text: &[u8]) -> Option<usize>
    ensures { result ≡ content_len false quote text.now }
{
    let mut escaped = false;
    'content: for len in 0..text.len() {
        let byte = text[len];
        if byte == b'\n' {
            return None;
        }
        if byte == quote && !escaped {
            return Some(len);
        }
        escaped = byte == b'\\' && !escaped;
    }
    None
}

// The character that a backslash and this byte stand for.
fn escape_of(byte: u8) -> Option<u8>
    ensures { result ≡ escape_of byte }
{
    match byte {
        b'n' => Some(b'\n'),
        b't' => Some(b'\t'),
        b'\\' | b'\'' | b'"' => Some(byte),
        _ => None,
    }
}

// Whether a byte stands for itself between these quotes.
fn is_plain(quote: u8, byte: u8) -> bool
    ensures { result ≡ is_plain quote byte }
{
    matches!(byte, b' '..=b'~') && !(byte == b'\\' || byte == quote)
}

// Whether a byte goes on with a character of several bytes.
fn is_continuation(byte: u8) -> bool
    ensures { result ≡ is_continuation byte }
{
    matches!(byte, 0x80..=0xBF)
}

// The first character of a literal's content, and what is left behind it.
fn first_character(quote: u8, content: &[u8]) -> Option<(u8, &[u8])>
    ensures { option_map (λ r. (r.0, r.1.now)) result ≡ first_character quote content.now }
{
    match content {
        [b'\\', byte, others @ ..] => Some((escape_of(*byte)?, others)),
        [byte, others @ ..] if is_plain(quote, *byte) => Some((*byte, others)),
        _ => None,
    }
}

// How many characters a literal's content has, right ones and wrong ones.
fn character_count(content: &[u8]) -> usize
    ensures { result ≡ character_count false content.now }
{
    let mut count = 0usize;
    let mut escaped = false;
    'bytes: for byte in content {
        count += usize::from(!(escaped || is_continuation(*byte)));
        escaped = *byte == b'\\' && !escaped;
    }
    count
}

// The characters that a literal's content stands for, or the fault of the literal: its first wrong character.
fn characters(alloc: Global, quote: u8, content: &[u8]) -> Result<Vec<u8>, Refusal<Fault>>
    requires { length content.now < 2 ^ 63 }
    ensures { MatchRefusal result (λ codes. Spells quote content.now codes.items) (IsStrayInside quote content.now) }
{
    let mut codes = Vec::new(alloc);
    let mut rest = content;
    'characters: while !rest.is_empty() {
        let Some((code, others)) = first_character(quote, rest) else {
            return Err(Refusal::Because {
                cause: Fault {
                    rule: LexRule::StrayCharacter,
                    distance: content.len() - rest.len() + 1,
                },
            });
        };
        codes.push(code)?;
        rest = others;
    }
    Ok(codes)
}

// What stands between the quotes.
fn content_of(word: &[u8]) -> &[u8]
    requires { 2 ≤ length word.now }
    ensures { result.now ≡ content_of word.now }
{
    &word[1..word.len() - 1]
}

// What a char stands for, of its text with both quotes.
#[tactic(auto, using(crate::proofs::Extents::literal_long))]
fn char_kind(alloc: Global, word: &[u8]) -> Result<TokenKind, Refusal<Fault>>
    requires { is_literal 39 word.now ≡ true }
    ensures { MatchRefusal result (Means word.now) (λ f. IsSenseless word.now f.rule f.distance) }
{
    let content = content_of(word);
    if character_count(content) != 1 {
        return Err(Refusal::Because {
            cause: Fault {
                rule: LexRule::StrayCharacter,
                distance: 0,
            },
        });
    }
    let codes = characters(alloc, b'\'', content)?;
    Ok(TokenKind::Char { code: codes[0] })
}

// What a string stands for, of its text with both quotes.
#[tactic(auto, using(crate::proofs::Extents::literal_long))]
fn string_kind(alloc: Global, word: &[u8]) -> Result<TokenKind, Refusal<Fault>>
    requires { is_literal 34 word.now ≡ true }
    ensures { MatchRefusal result (Means word.now) (λ f. IsSenseless word.now f.rule f.distance) }
{
    let codes = characters(alloc, b'"', content_of(word))?;
    Ok(TokenKind::Text {
        text: Text::from_ascii(alloc, codes.as_slice())?,
    })
}

// What a char or a string stands for.
fn literal_kind(alloc: Global, quote: u8, word: &[u8]) -> Result<TokenKind, Refusal<Fault>>
    requires quote { is_quote quote ≡ true }
    requires literal { is_literal quote word.now ≡ true }
    ensures { MatchRefusal result (Means word.now) (λ f. IsSenseless word.now f.rule f.distance) }
{
    if quote == b'\'' {
        char_kind(alloc, word)
    } else {
        string_kind(alloc, word)
    }
}

// The length of the literal at the front of a text that begins with this quote, both quotes included.
fn literal_len(quote: u8, text: &[u8]) -> Option<usize>
    requires quote { is_quote quote ≡ true }
    requires start { IsStart (λ c. c == quote) text.now }
    ensures { MatchOption result (IsUnclosed text.now) (IsLiteralFront quote text.now) }
{
    let content = content_len(quote, &text[1..])?;
    Some(content + 2)
}

/// The char or string at the front of a text that begins with this quote.
pub fn literal_at(alloc: Global, quote: u8, text: &[u8]) -> Result<Lexeme, Refusal<Fault>>
    requires quote { is_quote quote ≡ true }
    requires start { IsStart (λ c. c == quote) text.now }
    ensures { MatchRefusal result (λ l. IsFront text.now l.kind l.len) (λ f. IsFault text.now f.rule f.distance) }
{
    let Some(len) = literal_len(quote, text) else {
        return Err(Refusal::Because {
            cause: Fault {
                rule: LexRule::OpenString,
                distance: 0,
            },
        });
    };
    let kind = literal_kind(alloc, quote, &text[..len])?;
    Ok(Lexeme { kind, len })
}
