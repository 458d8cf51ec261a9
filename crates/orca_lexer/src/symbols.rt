//! Symbols.

ghost use Rattle.std.specs.Prelude.{◌≡◌, ◌≤◌, length, take, MatchOption, MatchResult, None, Some};
ghost use Rattle.orca_lexer.specs.Tables.{symbol_of};
ghost use Rattle.orca_lexer.specs.Fronts.{IsFront, IsSignStart};
ghost use Rattle.orca_lexer.specs.Refusal.{IsFault};

use crate::error::LexRule;
use crate::parts::{Fault, Lexeme};
use crate::table::entry;
use crate::token::{SYMBOLS, Symbol, TokenKind};

// The symbol that a text is.
#[tactic(auto, unfolding(crate::specs::Tables::symbol_of))]
fn symbol(word: &[u8]) -> Option<Symbol>
    ensures { result ≡ symbol_of word.now }
{
    entry(&SYMBOLS, word)
}

// The symbol of this length at the front of a text.
fn symbol_at(text: &[u8], len: usize) -> Option<Symbol>
    ensures { MatchOption result (len ≤ length text.now → symbol_of (take len text.now) ≡ None)
        (λ s. (len ≤ length text.now) × (symbol_of (take len text.now) ≡ Some s)) }
{
    if len > text.len() {
        return None;
    }
    symbol(&text[..len])
}

/// The symbol at the front of a text that begins with no letter, digit or quote.
pub fn sign_at(text: &[u8]) -> Result<Lexeme, Fault>
    requires { IsSignStart text.now }
    ensures { MatchResult result (λ l. IsFront text.now l.kind l.len) (λ f. IsFault text.now f.rule f.distance) }
{
    if let Some(symbol) = symbol_at(text, 2) {
        return Ok(Lexeme {
            kind: TokenKind::Sign { symbol },
            len: 2,
        });
    }
    if let Some(symbol) = symbol_at(text, 1) {
        return Ok(Lexeme {
            kind: TokenKind::Sign { symbol },
            len: 1,
        });
    }
    Err(Fault {
        rule: LexRule::StrayCharacter,
        distance: 0,
    })
}
