//! How tokens are written.

ghost use Rattle.std.specs.Prelude.{◌≡◌, ◌++◌, ◌∷◌, [], List, OnOk, OnErr};
ghost use Rattle.std.specs.Fmt.{signed_decimal};
ghost use Rattle.std.specs.List.{AllByRecursion, flat_map};
ghost use Rattle.orca_lexer.specs.declared.token.TokenKind.{TokenKind as TokenSeen};
ghost use Rattle.orca_lexer.specs.Fronts.{StillBegins};
ghost use Rattle.orca_lexer.specs.Spelling.{keyword_text, symbol_text, character_text, spelling_of, IsSound, AreReadBack};

use crate::token::{KEYWORDS, Keyword, SYMBOLS, Symbol, TokenKind};
use orca_base::NoMemory;

// The text of a keyword.
fn keyword_text(word: Keyword) -> &'static [u8]
    ensures { result.now ≡ keyword_text word }
{
    KEYWORDS[word as usize].0
}

// The text of a symbol.
fn symbol_text(symbol: Symbol) -> &'static [u8]
    ensures { result.now ≡ symbol_text symbol }
{
    SYMBOLS[symbol as usize].0
}

// Puts bytes behind those that are there.
fn put(out: &mut Vec<u8>, bytes: &[u8]) -> Result<(), NoMemory>
    ensures ok { OnOk result (out.new.items ≡ out.old.items ++ bytes.now) }
    ensures keeps { StillBegins out.old.items out.new.items }
{
    out.extend_from_slice(bytes)?;
    Ok(())
}

// A character between these quotes.
fn put_character(out: &mut Vec<u8>, quote: u8, code: u8) -> Result<(), NoMemory>
    ensures ok { OnOk result (out.new.items ≡ out.old.items ++ character_text quote code) }
    ensures keeps { StillBegins out.old.items out.new.items }
{
    match code {
        b'\n' => put(out, b"\\n"),
        b'\t' => put(out, b"\\t"),
        _ if code == b'\\' || code == quote => put(out, &[b'\\', code]),
        _ => put(out, &[code]),
    }
}

// Puts characters, each as it is written between these quotes.
#[tactic(auto, using(crate::proofs::Kept::kept_twice, crate::proofs::Kept::kept_self))]
fn put_characters(out: &mut Vec<u8>, quote: u8, codes: &[u8]) -> Result<(), NoMemory>
    ensures ok { OnOk result (out.new.items ≡ out.old.items ++ flat_map (character_text quote) codes.now) }
    ensures keeps { StillBegins out.old.items out.new.items }
{
    'characters: for code in codes {
        put_character(out, quote, *code)?;
    }
    Ok(())
}

// Puts a char in its quotes.
fn put_char(out: &mut Vec<u8>, code: u8) -> Result<(), NoMemory>
    ensures ok { OnOk result (out.new.items ≡ out.old.items ++ 39 ∷ (character_text 39 code ++ 39 ∷ [])) }
    ensures keeps { StillBegins out.old.items out.new.items }
{
    put(out, b"'")?;
    put_character(out, b'\'', code)?;
    put(out, b"'")
}

// Puts a string in its quotes.
fn put_string(out: &mut Vec<u8>, codes: &[u8]) -> Result<(), NoMemory>
    ensures ok { OnOk result (out.new.items ≡ out.old.items ++ 34 ∷ (flat_map (character_text 34) codes.now ++ 34 ∷ [])) }
    ensures keeps { StillBegins out.old.items out.new.items }
{
    put(out, b"\"")?;
    put_characters(out, b'"', codes)?;
    put(out, b"\"")
}

// Puts a number in decimal.
fn put_number(out: &mut Vec<u8>, value: i64) -> Result<(), NoMemory>
    ensures ok { OnOk result (out.new.items ≡ out.old.items ++ signed_decimal value) }
    ensures keeps { StillBegins out.old.items out.new.items }
{
    let text = value.to_string(*out.allocator())?;
    put(out, text.as_bytes())
}

// Puts the text of a token. After want of memory a front of it may stand there.
fn put_kind(out: &mut Vec<u8>, kind: &TokenKind) -> Result<(), NoMemory>
    ensures ok { OnOk result (out.new.items ≡ out.old.items ++ spelling_of kind.now) }
    ensures keeps { StillBegins out.old.items out.new.items }
{
    match kind {
        TokenKind::Name { name } => put(out, name.as_bytes()),
        TokenKind::Number { value } => put_number(out, *value),
        TokenKind::Char { code } => put_char(out, *code),
        TokenKind::Text { text } => put_string(out, text.as_bytes()),
        TokenKind::Key { word } => put(out, keyword_text(*word)),
        TokenKind::Sign { symbol } => put(out, symbol_text(*symbol)),
    }
}

/// Puts the text of a token at the end. Where memory lacks, nothing is put.
pub fn write_token(out: &mut Vec<u8>, kind: &TokenKind) -> Result<(), NoMemory>
    ensures ok { OnOk result (out.new.items ≡ out.old.items ++ spelling_of kind.now) }
    ensures err { OnErr result (out.new.items ≡ out.old.items) }
{
    let len = out.len();
    if let Err(lack) = put_kind(out, kind) {
        out.truncate(len);
        return Err(lack);
    }
    Ok(())
}

/// The law of spelling: the text of sound kinds, with one space between two and a line feed at the end, has tokens of
/// exactly these kinds.
pub fn spelling_law()
    ensures back { (kinds : List TokenSeen) → AllByRecursion IsSound kinds → AreReadBack kinds }
{}
