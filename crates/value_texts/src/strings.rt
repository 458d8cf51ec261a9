//! Characters of strings.

ghost use Rattle.std.specs.Prelude.{◌≡◌, ◌<◌, IfSome, None, length};
ghost use Rattle.std.specs.Option.{option_map};
ghost use Rattle.value_texts.specs.Reading.{Gives, character_at, code_at, escape_at, hex_value, is_coded, until_at};
ghost use Rattle.value_texts.specs.Spelling.{is_plain, hex_digit};

use crate::fault::Misspelled;
use crate::words::{Read, begins, behind};
use orca_base::refuse;
use std::alloc::Global;

/// The digit of a number below 16 in base 16, in lower case.
pub(crate) fn hex_digit(number: u8) -> u8
    requires { number < 16 }
    ensures { result ≡ hex_digit number }
{
    if number < 10 {
        b'0' + number
    } else {
        b'a' - 10 + number
    }
}

/// Whether a character stands for itself in a string.
pub(crate) fn is_plain(code: u8) -> bool
    ensures { result ≡ is_plain code }
{
    32 <= code && code <= 126 && code != b'\\' && code != b'"'
}

// The value of a digit in base 16, in lower case.
#[tactic(auto, unfolding(crate::specs::Reading::hex_value))]
fn hex_value(byte: u8) -> Option<u8>
    ensures is { result ≡ hex_value byte }
    ensures range { IfSome result (λ value. value < 16) }
{
    if b'0' <= byte && byte <= b'9' {
        return Some(byte - b'0');
    }
    if b'a' <= byte && byte <= b'f' {
        return Some(byte - b'a' + 10);
    }
    None
}

// Whether a character is written by its code.
fn is_coded(code: u8) -> bool
    ensures { result ≡ is_coded code }
{
    (code < 32 && code != b'\n' && code != b'\t') || code == 127
}

// A code of two digits in front.
#[tactic(auto, unfolding(crate::specs::Reading::code_at))]
fn code_in(text: &[u8]) -> Option<(u8, &[u8])>
    ensures { option_map (λ x. (x.0, x.1.now)) result ≡ code_at text.now }
{
    match text {
        [high, low, rest @ ..] => {
            let high = hex_value(*high)?;
            let low = hex_value(*low)?;
            let code = 16 * high + low;
            if is_coded(code) {
                Some((code, rest))
            } else {
                None
            }
        }
        _ => None,
    }
}

// What stands behind a backslash in front.
#[tactic(auto, unfolding(crate::specs::Reading::escape_at))]
fn escape_in(text: &[u8]) -> Option<(u8, &[u8])>
    ensures { option_map (λ x. (x.0, x.1.now)) result ≡ escape_at text.now }
{
    match text {
        [] => None,
        [byte, rest @ ..] => match *byte {
            b'n' => Some((b'\n', rest)),
            b't' => Some((b'\t', rest)),
            b'\\' | b'"' => Some((*byte, rest)),
            b'x' => code_in(rest),
            _ => None,
        },
    }
}

// The character of a string in front.
#[tactic(auto, unfolding(crate::specs::Reading::character_at))]
fn character_in(text: &[u8]) -> Option<(u8, &[u8])>
    ensures { option_map (λ x. (x.0, x.1.now)) result ≡ character_at text.now }
{
    match text {
        [] => None,
        [byte, rest @ ..] => {
            if *byte == b'\\' {
                return escape_in(rest);
            }
            if is_plain(*byte) {
                Some((*byte, rest))
            } else {
                None
            }
        }
    }
}

/// The characters of a string up to the closing quote, and the text behind it.
pub(crate) fn characters(alloc: Global, text: &[u8]) -> Read<'_, Vec<u8>>
    ensures { Gives (λ x. (x.0.items, x.1.now)) result (until_at (λ last. character_at) 34 (length text.now) None text.now) }
{
    let mut characters = Vec::new(alloc);
    let mut rest = text;
    for _ in 0..text.len() {
        if begins(b'"', rest) {
            return Ok((characters, behind(rest)));
        }
        match character_in(rest) {
            None => return refuse(Misspelled),
            Some((character, after)) => {
                characters.push(character)?;
                rest = after;
            }
        }
    }
    refuse(Misspelled)
}
