//! Names and keywords.

ghost use Rattle.std.specs.Prelude.{◌≡◌, ◌≤◌, length, map, true, IfOk};
ghost use Rattle.std.specs.List.{prefix_len};
ghost use Rattle.std.specs.Char.{is_ascii_alphabetic};
ghost use Rattle.orca_lexer.specs.Tables.{entry_of, keyword_of};
ghost use Rattle.orca_lexer.specs.Shapes.{is_name_byte, is_word};
ghost use Rattle.orca_lexer.specs.Tokens.{IsStart, Means};
ghost use Rattle.orca_lexer.specs.Fronts.{IsFront};

use crate::parts::Lexeme;
use crate::table::entry;
use crate::token::{KEYWORDS, Keyword, TokenKind};
use orca_base::{NoMemory, Text};
use std::alloc::Global;

// A letter, a digit or `_`.
fn is_name_byte(byte: u8) -> bool
    ensures { result ≡ is_name_byte byte }
{
    byte.is_ascii_alphanumeric() || byte == b'_'
}

// How many bytes at the front belong to a word.
fn word_len(text: &[u8]) -> usize
    ensures len { result ≡ prefix_len is_name_byte text.now }
    ensures within { result ≤ length text.now }
{
    text.iter().take_while(|byte| is_name_byte(**byte)).count()
}

// The keyword that a word is.
#[tactic(auto, unfolding(crate::specs::Tables::keyword_of))]
fn keyword(word: &[u8]) -> Option<Keyword>
    ensures { result ≡ keyword_of word.now }
{
    entry(&KEYWORDS, word)
}

// What a word stands for.
fn word_kind(alloc: Global, word: &[u8]) -> Result<TokenKind, NoMemory>
    requires { is_word word.now ≡ true }
    ensures { IfOk result (Means word.now) }
{
    if let Some(word) = keyword(word) {
        return Ok(TokenKind::Key { word });
    }
    Ok(TokenKind::Name {
        name: Text::from_ascii(alloc, word)?,
    })
}

/// The name or keyword at the front of a text that begins with a letter.
pub fn word_at(alloc: Global, text: &[u8]) -> Result<Lexeme, NoMemory>
    requires { IsStart is_ascii_alphabetic text.now }
    ensures { IfOk result (λ l. IsFront text.now l.kind l.len) }
{
    let len = word_len(text);
    let kind = word_kind(alloc, &text[..len])?;
    Ok(Lexeme { kind, len })
}
