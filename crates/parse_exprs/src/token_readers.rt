//! Readers of single tokens, and tests of the token that comes next.

ghost use Rattle.std.specs.Prelude.{◌≡◌, ◌≢◌, ◌∷◌, [], false, true, Ok, Err, MatchOption};
ghost use Rattle.orca_base.specs.declared.refusal.Refusal.TheVariants.{NoMemory as LacksMemory};
ghost use Rattle.orca_lexer.specs.declared.token.TokenKind.TheVariants.{Key, Sign};
ghost use Rattle.orca_grammar.specs.Forms.{KeyOf, SignOf, AnyName, is};
ghost use Rattle.orca_grammar.specs.Reading.{comes, is_any, word_at as word_read};
ghost use Rattle.orca_grammar.specs.Sets.{factor_firsts};
ghost use Rattle.orca_tree.specs.Marks.{word as spelled, word_at as spelled_at, name_mark};
ghost use Rattle.parse_exprs.specs.Gives.{Fails, Gives, none_left};

use crate::read_error::{Parsed, ReadError};
use orca_base::{Place, Refusal, refuse};
use orca_lexer::{Keyword, Symbol, Token, TokenKind};
use orca_tree::Name;
use std::alloc::Global;

/// The first token, and those behind it.
pub fn first_token(tokens: &[Token]) -> Option<(&Token, &[Token])>
    ensures { MatchOption result (tokens.now ≡ []) (λ x. tokens.now ≡ x.0.now ∷ x.1.now) }
{
    match tokens {
        [first, rest @ ..] => Some((first, rest)),
        [] => None,
    }
}

// Whether a token is this keyword.
fn is_key(kind: &TokenKind, word: Keyword) -> bool
    ensures { result ≡ is (KeyOf word) kind.now }
{
    match kind {
        TokenKind::Key { word: found } => *found == word,
        _ => false,
    }
}

// Whether a token is this symbol.
fn is_sign(kind: &TokenKind, symbol: Symbol) -> bool
    ensures { result ≡ is (SignOf symbol) kind.now }
{
    match kind {
        TokenKind::Sign { symbol: found } => *found == symbol,
        _ => false,
    }
}

/// Whether this keyword comes next.
pub fn comes_key(tokens: &[Token], word: Keyword) -> bool
    ensures { result ≡ comes (KeyOf word ∷ []) tokens.now }
{
    match tokens {
        [first, ..] => is_key(&first.kind, word),
        [] => false,
    }
}

/// Whether this symbol comes next.
pub fn comes_sign(tokens: &[Token], symbol: Symbol) -> bool
    ensures { result ≡ comes (SignOf symbol ∷ []) tokens.now }
{
    match tokens {
        [first, ..] => is_sign(&first.kind, symbol),
        [] => false,
    }
}

/// The tokens behind this keyword.
pub fn key(tokens: &[Token], word: Keyword) -> Result<&[Token], Refusal<ReadError<'_>>>
    ensures gives { Gives (λ rest. (spelled (Key word) ∷ [], rest.now)) result (word_read false (KeyOf word) tokens.now) }
    ensures memory { result ≢ Err LacksMemory }
{
    match tokens {
        [first, rest @ ..] if is_key(&first.kind, word) => Ok(rest),
        _ => refuse(ReadError::Unexpected { rest: tokens }),
    }
}

/// The place of this keyword, and the tokens behind it.
pub fn key_at(tokens: &[Token], word: Keyword) -> Parsed<'_, Place>
    ensures gives { Gives (λ x. (spelled_at x.0 (Key word) ∷ [], x.1.now)) result (word_read true (KeyOf word) tokens.now) }
    ensures memory { result ≢ Err LacksMemory }
{
    match tokens {
        [first, rest @ ..] if is_key(&first.kind, word) => Ok((first.at, rest)),
        _ => refuse(ReadError::Unexpected { rest: tokens }),
    }
}

/// The tokens behind this symbol.
pub fn sign(tokens: &[Token], symbol: Symbol) -> Result<&[Token], Refusal<ReadError<'_>>>
    ensures gives { Gives (λ rest. (spelled (Sign symbol) ∷ [], rest.now)) result (word_read false (SignOf symbol) tokens.now) }
    ensures memory { result ≢ Err LacksMemory }
{
    match tokens {
        [first, rest @ ..] if is_sign(&first.kind, symbol) => Ok(rest),
        _ => refuse(ReadError::Unexpected { rest: tokens }),
    }
}

/// The tokens behind this keyword, if it comes next.
pub fn after_key(tokens: &[Token], word: Keyword) -> Option<&[Token]>
    ensures { MatchOption result (comes (KeyOf word ∷ []) tokens.now ≡ false)
        (λ rest. (comes (KeyOf word ∷ []) tokens.now ≡ true) ×
        (word_read false (KeyOf word) tokens.now ≡ Ok (spelled (Key word) ∷ [], rest.now))) }
{
    match tokens {
        [first, rest @ ..] if is_key(&first.kind, word) => Some(rest),
        _ => None,
    }
}

/// The tokens behind this symbol, if it comes next.
pub fn after_sign(tokens: &[Token], symbol: Symbol) -> Option<&[Token]>
    ensures { MatchOption result (comes (SignOf symbol ∷ []) tokens.now ≡ false)
        (λ rest. (comes (SignOf symbol ∷ []) tokens.now ≡ true) ×
        (word_read false (SignOf symbol) tokens.now ≡ Ok (spelled (Sign symbol) ∷ [], rest.now))) }
{
    match tokens {
        [first, rest @ ..] if is_sign(&first.kind, symbol) => Some(rest),
        _ => None,
    }
}

/// The place of this symbol, and the tokens behind it.
pub fn sign_at(tokens: &[Token], symbol: Symbol) -> Parsed<'_, Place>
    ensures gives { Gives (λ x. (spelled_at x.0 (Sign symbol) ∷ [], x.1.now)) result (word_read true (SignOf symbol) tokens.now) }
    ensures memory { result ≢ Err LacksMemory }
{
    match tokens {
        [first, rest @ ..] if is_sign(&first.kind, symbol) => Ok((first.at, rest)),
        _ => refuse(ReadError::Unexpected { rest: tokens }),
    }
}

/// A name, and the tokens behind it.
pub fn name(alloc: Global, tokens: &[Token]) -> Parsed<'_, Name>
    ensures { Gives (λ x. (name_mark x.0 ∷ [], x.1.now)) result (word_read true AnyName tokens.now) }
{
    match tokens {
        [
            Token {
                kind: TokenKind::Name { name },
                at,
                ..
            },
            rest @ ..,
        ] => {
            let text = name.copy(alloc)?;
            Ok((Name { at: *at, text }, rest))
        }
        _ => refuse(ReadError::Unexpected { rest: tokens }),
    }
}

/// Whether a name comes next.
pub fn comes_name(tokens: &[Token]) -> bool
    ensures { result ≡ comes (AnyName ∷ []) tokens.now }
{
    matches!(
        tokens,
        [
            Token {
                kind: TokenKind::Name { .. },
                ..
            },
            ..
        ]
    )
}

// Whether expressions begin with this token.
#[tactic(auto, unfolding(orca_grammar::specs::Sets::factor_firsts))]
fn begins(kind: &TokenKind) -> bool
    ensures { result ≡ is_any factor_firsts kind.now }
{
    match kind {
        TokenKind::Number { .. }
        | TokenKind::Char { .. }
        | TokenKind::Text { .. }
        | TokenKind::Name { .. } => true,
        TokenKind::Key { word } => matches!(
            word,
            Keyword::KeyTrue
                | Keyword::KeyFalse
                | Keyword::KeyNot
                | Keyword::KeyFrom
                | Keyword::KeySize
                | Keyword::KeyOrd
        ),
        TokenKind::Sign { symbol } => matches!(symbol, Symbol::Minus | Symbol::Opens),
    }
}

/// Whether a token comes next with which expressions begin.
pub fn begins_expression(tokens: &[Token]) -> bool
    ensures { result ≡ comes factor_firsts tokens.now }
{
    match tokens {
        [first, ..] => begins(&first.kind),
        [] => false,
    }
}

/// Why no phrase is read where no level of nesting is left, if one would begin here or not.
pub fn too_nested(tokens: &[Token], begins: bool) -> Refusal<ReadError<'_>>
    ensures why { Fails result (none_left begins tokens.now) }
    ensures memory { result ≢ LacksMemory }
{
    let cause = if begins {
        ReadError::TooNested { rest: tokens }
    } else {
        ReadError::Unexpected { rest: tokens }
    };
    Refusal::Because { cause }
}
