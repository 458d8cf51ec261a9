//! Readers of numbers.

ghost use Rattle.std.specs.Prelude.{◌≡◌, ◌∷◌, [], false, true};
ghost use Rattle.orca_lexer.specs.declared.token.TokenKind.TheVariants.{Number};
ghost use Rattle.orca_grammar.specs.Forms.{AnyNumber, is};
ghost use Rattle.orca_grammar.specs.Reading.{comes, word_at as word_read};
ghost use Rattle.orca_tree.specs.Marks.{word as spelled, word_at as spelled_at};
ghost use Rattle.parse_exprs.specs.Gives.{Gives};

use orca_base::{Place, Refusal, refuse};
use orca_lexer::{Token, TokenKind};
use parse_exprs::{Parsed, ReadError};

/// A number with its place, and the tokens behind it.
pub fn number_at(tokens: &[Token]) -> Result<(Place, i64, &[Token]), Refusal<ReadError<'_>>>
    ensures { Gives (λ x. (spelled_at x.0 (Number x.1) ∷ [], x.2.now)) result (word_read true AnyNumber tokens.now) }
{
    match tokens {
        [
            Token {
                kind: TokenKind::Number { value },
                at,
                ..
            },
            rest @ ..,
        ] => Ok((*at, *value, rest)),
        _ => refuse(ReadError::Unexpected { rest: tokens }),
    }
}

/// A number, and the tokens behind it.
pub fn number(tokens: &[Token]) -> Parsed<'_, i64>
    ensures { Gives (λ x. (spelled (Number x.0) ∷ [], x.1.now)) result (word_read false AnyNumber tokens.now) }
{
    match tokens {
        [
            Token {
                kind: TokenKind::Number { value },
                ..
            },
            rest @ ..,
        ] => Ok((*value, rest)),
        _ => refuse(ReadError::Unexpected { rest: tokens }),
    }
}

/// Whether a number comes next.
pub fn comes_number(tokens: &[Token]) -> bool
    ensures { result ≡ comes (AnyNumber ∷ []) tokens.now }
{
    matches!(
        tokens,
        [
            Token {
                kind: TokenKind::Number { .. },
                ..
            },
            ..
        ]
    )
}
