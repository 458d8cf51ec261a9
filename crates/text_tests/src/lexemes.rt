//! Tokens: their slices and places, why a text has none, and how they are written.

use orca_base::{Place, Refusal};
use orca_lexer::{LexRule, TokenKind, tokens, write_token};
use std::alloc::Global;
use std::test::Fail;

// A token's kind in words.
fn told(alloc: Global, kind: &TokenKind) -> Result<String, Fail> {
    match kind {
        TokenKind::Name { name } => {
            let text = name.as_str();
            Ok(format!(in alloc; "name {text}")?)
        }
        TokenKind::Number { value } => Ok(format!(in alloc; "number {value}")?),
        TokenKind::Char { code } => Ok(format!(in alloc; "char {code}")?),
        TokenKind::Text { text } => {
            let text = text.as_str();
            Ok(format!(in alloc; "text {text}")?)
        }
        TokenKind::Key { word } => Ok(format!(in alloc; "{word:?}")?),
        TokenKind::Sign { symbol } => Ok(format!(in alloc; "{symbol:?}")?),
    }
}

#[test]
fn every_kind_has_its_slice_and_place(rt: HostRuntime) -> Result<(), Fail> {
    let text = b"ab_1 := 07 # \xC3\xA9 ;\n\t'\\n' & \"a\\\"b\"\r\nwhile>=.";
    let wanted: [(&str, u32, u32, u32, u32); 9] = [
        ("name ab_1", 0, 4, 1, 1),
        ("Becomes", 5, 7, 1, 6),
        ("number 7", 8, 10, 1, 9),
        ("char 10", 19, 23, 2, 2),
        ("Joins", 24, 25, 2, 7),
        ("text a\"b", 26, 32, 2, 9),
        ("KeyWhile", 34, 39, 3, 1),
        ("AtLeast", 39, 41, 3, 6),
        ("Period", 41, 42, 3, 8),
    ];
    let found = tokens(rt.alloc(), text).ok().ok_or("refused")?;
    assert_eq!(rt; found.len(), wanted.len());
    for (token, (kind, start, end, line, column)) in found.iter().zip(wanted.iter()) {
        assert_eq!(rt; told(rt.alloc(), &token.kind)?.as_str(), *kind);
        assert_eq!(rt; (token.start, token.end), (*start, *end), "slice of {kind}");
        assert_eq!(rt;
            (token.at.line, token.at.column),
            (*line, *column),
            "place of {kind}"
        );
    }
    Ok(())
}

#[test]
fn refused_texts_have_their_first_reason(rt: HostRuntime) -> Result<(), Fail> {
    let refused: [(&[u8], u8, u32, u32); 34] = [
        // Not UTF-8, at the first byte that doesn't continue it.
        (b"a \xC3\x41", 1, 1, 4),
        (b"a\n\xE2\x82", 1, 2, 3),
        (b"# \xFF\n@", 1, 1, 3),
        (b"@ \xFF", 1, 1, 3),
        (b"\xC0\x80", 1, 1, 1),
        (b"\xED\xA0\x80", 1, 1, 2),
        (b"\xE1\x80a", 1, 1, 3),
        (b"\xF0\x9F\x98", 1, 1, 4),
        // Strings and chars that aren't closed on their line, at the opening quote.
        (b"x \"ab\ny\"", 3, 1, 3),
        (b"\"ab", 3, 1, 1),
        (b"'a", 3, 1, 1),
        (b"'\n'", 3, 1, 1),
        (b"\"\\\nx\"", 3, 1, 1),
        (b"\"\\", 3, 1, 1),
        (b"a\r\n \"b", 3, 2, 2),
        // Chars that aren't one character long, at the opening quote.
        (b"'ab'", 2, 1, 1),
        (b"''", 2, 1, 1),
        (b"'''", 2, 1, 1),
        (b"'\xC3\xA9a'", 2, 1, 1),
        // Wrong characters inside, at the first one, and escapes at the backslash.
        (b"'\\q'", 2, 1, 2),
        (b"'\xC3\xA9'", 2, 1, 2),
        (b"# c\n  # d\n'\x7F'", 2, 3, 2),
        (b"\"a\rb\"", 2, 1, 3),
        (b"\"a\tb\"", 2, 1, 3),
        (b"\"a\\qb\\r\"", 2, 1, 3),
        (b"\"\\\\\xC3\xA9\"", 2, 1, 4),
        // Characters that begin no token.
        (b"a\n @", 2, 2, 2),
        (b"!", 2, 1, 1),
        (b"x \xC3\xA9", 2, 1, 3),
        (b"/ = _x", 2, 1, 5),
        (b"a := 1; }", 2, 1, 9),
        // Numbers that are too large, at the first digit.
        (b"9223372036854775808", 4, 1, 1),
        (b"1 09223372036854775808x", 4, 1, 3),
        (b"9223372036854775807\n99999999999999999999", 4, 2, 1),
    ];
    for (text, rule, line, column) in refused {
        assert!(rt; text.len() < 100);
        match tokens(rt.alloc(), text) {
            Err(Refusal::Because { cause }) => {
                assert_eq!(rt; cause.rule.number(), rule, "rule of {text:?}");
                let place = Place { line, column };
                assert_eq!(rt; cause.at, place, "place in {text:?}");
            }
            _ => assert!(rt; false, "{text:?} isn't refused"),
        }
    }
    assert_eq!(rt; LexRule::OpenString.message(), "open string");
    Ok(())
}

#[test]
fn tokens_are_written_as_they_are_read(rt: HostRuntime) -> Result<(), Fail> {
    let text =
        b"ab 007 '\\t' '\\'' '\"' \"it's \\\"\\n\\\\\" OrcaMain WriteLine .. 9223372036854775807";
    let found = tokens(rt.alloc(), text).ok().ok_or("refused")?;
    let mut written = Vec::new(rt.alloc());
    for token in &found {
        write_token(&mut written, &token.kind)?;
        written.push(b' ')?;
    }
    let wanted =
        b"ab 7 '\\t' '\\'' '\"' \"it's \\\"\\n\\\\\" OrcaMain WriteLine .. 9223372036854775807 ";
    assert_eq!(rt; written.as_slice(), wanted.as_slice());
    Ok(())
}
