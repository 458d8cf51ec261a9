//! From a text to its unit.

ghost use Rattle.std.specs.Prelude.{◌≡◌, ◌≤◌, ◌<◌, ◌++◌, ℕ, List, length, codes, slice_range, Err, IfOk, OnErr};
ghost use Rattle.orca_base.specs.declared.refusal.Refusal.TheVariants.{Because, NoMemory as Without};
ghost use Rattle.orca_lexer.specs.Refusal.{IsRefusal as IsLexical};
ghost use Rattle.orca_front.specs.Texts.{FitsText, IsSyntactic};

use orca_base::{NoMemory, Place, Refusal, SOURCE_BYTES};
use orca_lexer::{LexError, Token, tokens};
use orca_tree::Unit;
use parse_units::{Found, ParseError, parse};
use std::alloc::Global;

/// Why a text is no unit.
#[derive(Debug, Drop)]
pub enum TextFault {
    /// It has no tokens, or its tokens are no unit: the place of the first fault, and what is said of it.
    Faulty { at: Place, said: Vec<u8> },
    /// It nests too deep.
    TooNested,
}

// The bytes of these words.
fn whole(alloc: Global, words: &str) -> Result<Vec<u8>, NoMemory>
    ensures { IfOk result (λ v. v.items ≡ words.now) }
{
    Ok(Vec::from_slice(alloc, words.as_bytes())?)
}

// What is said of a token with which nothing goes on.
fn unexpected(alloc: Global, text: &[u8], token: &Token) -> Result<Vec<u8>, NoMemory>
    requires start { token.now.start ≤ token.now.end }
    requires end { token.now.end ≤ length text.now }
    ensures { IfOk result (λ v. v.items ≡ codes "unexpected '" ++ (slice_range text.now token.now.start token.now.end ++ codes "'")) }
{
    let mut words = Vec::from_slice(alloc, b"unexpected '")?;
    words.extend_from_slice(&text[token.start as usize..token.end as usize])?;
    words.push(b'\'')?;
    Ok(words)
}

// What is said of a text at this place, where there was memory for it.
fn faulty(at: Place, words: Result<Vec<u8>, NoMemory>) -> Refusal<TextFault>
    ensures said { IfOk words (λ said. result ≡ Because (TextFault.Faulty at said)) }
    ensures lacking { OnErr words (result ≡ Without) }
{
    match words {
        Ok(said) => Refusal::Because {
            cause: TextFault::Faulty { at, said },
        },
        Err(_) => Refusal::NoMemory,
    }
}

// Why a text has no tokens.
fn lexical(alloc: Global, error: LexError) -> Refusal<TextFault>
    ensures { (text : List ℕ) → IsLexical text error → FitsText text (Err result) }
{
    let words = whole(alloc, error.rule.message());
    faulty(error.at, words)
}

// Why a text's tokens are no unit.
fn syntactic(alloc: Global, text: &[u8], error: ParseError) -> Refusal<TextFault>
    requires { IsSyntactic text.now error }
    ensures { FitsText text.now (Err result) }
{
    match error {
        ParseError::TooNested { .. } => Refusal::Because {
            cause: TextFault::TooNested,
        },
        ParseError::Syntax {
            at,
            found: Found::Token { token },
        } => {
            let words = unexpected(alloc, text, &token);
            faulty(at, words)
        }
        ParseError::Syntax {
            at,
            found: Found::End,
        } => {
            let words = whole(alloc, "unexpected end of text");
            faulty(at, words)
        }
    }
}

/// The unit that a text is, or why it is none.
pub fn unit_of(alloc: Global, text: &[u8]) -> Result<Unit, Refusal<TextFault>>
    requires { length text.now ≤ SOURCE_BYTES }
    ensures { FitsText text.now result }
{
    let found = match tokens(alloc, text) {
        Ok(found) => found,
        Err(Refusal::NoMemory) => return Err(Refusal::NoMemory),
        Err(Refusal::Because { cause }) => return Err(lexical(alloc, cause)),
    };
    match parse(alloc, &found) {
        Ok(unit) => Ok(unit),
        Err(Refusal::NoMemory) => Err(Refusal::NoMemory),
        Err(Refusal::Because { cause }) => Err(syntactic(alloc, text, cause)),
    }
}
