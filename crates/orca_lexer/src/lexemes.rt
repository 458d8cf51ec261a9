//! The lexeme at the front of a text.

ghost use Rattle.std.specs.Prelude.{◌<◌, length};
ghost use Rattle.orca_base.specs.Refusal.{MatchRefusal};
ghost use Rattle.orca_lexer.specs.Fronts.{IsFront};
ghost use Rattle.orca_lexer.specs.Refusal.{IsFault};

use crate::literals::{is_quote, literal_at};
use crate::numerals::numeral_at;
use crate::parts::{Fault, Lexeme};
use crate::symbols::sign_at;
use crate::words::word_at;
use orca_base::Refusal;
use std::alloc::Global;

/// The lexeme at the front of a text that begins with no gap, or why it begins with no token.
pub fn lexeme_at(alloc: Global, text: &[u8]) -> Result<Lexeme, Refusal<Fault>>
    requires { 0 < length text.now }
    ensures { MatchRefusal result (λ l. IsFront text.now l.kind l.len) (λ f. IsFault text.now f.rule f.distance) }
{
    match text {
        [first, ..] if first.is_ascii_alphabetic() => Ok(word_at(alloc, text)?),
        [first, ..] if first.is_ascii_digit() => match numeral_at(text) {
            Ok(lexeme) => Ok(lexeme),
            Err(cause) => Err(Refusal::Because { cause }),
        },
        [first, ..] if is_quote(*first) => literal_at(alloc, *first, text),
        _ => match sign_at(text) {
            Ok(lexeme) => Ok(lexeme),
            Err(cause) => Err(Refusal::Because { cause }),
        },
    }
}
