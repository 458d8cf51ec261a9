//! Why tokens are no unit that nests at most `NESTING` levels.

ghost use Rattle.std.specs.Prelude.{◌≡◌, ◌∷◌, ◌<◌, [], List, length, IfOk};
ghost use Rattle.std.specs.List.{All};
ghost use Rattle.orca_lexer.specs.declared.token.Token.{Token as TokenSeen};
ghost use Rattle.orca_grammar.specs.Grammar.{IsUnexpected};
ghost use Rattle.orca_lexer.specs.Tokens.{HasRoom};
ghost use Rattle.parse_units.specs.Refused.{IsRefusal, end_of_text};

use orca_base::{NoMemory, Place};
use orca_lexer::{Token, TokenKind};
use std::alloc::Global;

/// The first reason for which tokens are no unit that nests at most `NESTING` levels.
#[derive(Debug, Drop)]
pub enum ParseError {
    /// With this token, or at this end, no unit goes on.
    Syntax { at: Place, found: Found },
    /// This token would stand in more than `NESTING` nested phrases.
    TooNested { at: Place },
}

/// What stands where no unit goes on.
#[derive(Debug, Drop)]
pub enum Found {
    /// This token.
    Token { token: Token },
    /// The end of the text. Its place is just behind the last token.
    End,
}

// An equal kind.
fn copy_kind(alloc: Global, kind: &TokenKind) -> Result<TokenKind, NoMemory>
    ensures { IfOk result (λ k. k ≡ kind.now) }
{
    match kind {
        TokenKind::Name { name } => Ok(TokenKind::Name {
            name: name.copy(alloc)?,
        }),
        TokenKind::Number { value } => Ok(TokenKind::Number { value: *value }),
        TokenKind::Char { code } => Ok(TokenKind::Char { code: *code }),
        TokenKind::Text { text } => Ok(TokenKind::Text {
            text: text.copy(alloc)?,
        }),
        TokenKind::Key { word } => Ok(TokenKind::Key { word: *word }),
        TokenKind::Sign { symbol } => Ok(TokenKind::Sign { symbol: *symbol }),
    }
}

// An equal token.
fn copy_token(alloc: Global, token: &Token) -> Result<Token, NoMemory>
    ensures { IfOk result (λ t. t ≡ token.now) }
{
    let kind = copy_kind(alloc, &token.kind)?;
    Ok(Token {
        kind,
        start: token.start,
        end: token.end,
        at: token.at,
    })
}

// The place just behind the last token. No refusal comes where there is none: no tokens at all are a unit.
fn end_place(tokens: &[Token]) -> Place
    requires { All HasRoom tokens.now }
    ensures { result ≡ end_of_text tokens.now }
{
    let mut at = Place { line: 1, column: 1 };
    'tokens: for token in tokens {
        at = Place {
            line: token.at.line,
            column: token.at.column + (token.end - token.start),
        };
    }
    at
}

/// The refusal at the first of the tokens that are left, or at the end where none is.
pub fn unexpected(alloc: Global, tokens: &[Token], rest: &[Token]) -> Result<ParseError, NoMemory>
    requires { All HasRoom tokens.now }
    ensures { (front : List TokenSeen) → IsUnexpected tokens.now front rest.now → IfOk result (IsRefusal tokens.now) }
{
    match rest {
        [token, ..] => {
            let at = token.at;
            let token = copy_token(alloc, token)?;
            Ok(ParseError::Syntax {
                at,
                found: Found::Token { token },
            })
        }
        [] => Ok(ParseError::Syntax {
            at: end_place(tokens),
            found: Found::End,
        }),
    }
}

/// The place of the first of these tokens.
pub fn first_place(rest: &[Token]) -> Place
    requires { 0 < length rest.now }
    ensures { (t : TokenSeen) (more : List TokenSeen) → rest.now ≡ t ∷ more → result ≡ t.at }
{
    rest[0].at
}
