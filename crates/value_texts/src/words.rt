//! Bytes, words and numbers from the front of a text.

ghost use Rattle.std.specs.Prelude.{◌≡◌, ◌<◌, ◌≤◌, true, length, drop, IfOk};
ghost use Rattle.std.specs.Char.{is_ascii_digit};
ghost use Rattle.std.specs.List.{list_all, prefix_len};
ghost use Rattle.std.specs.Option.{option_map};
ghost use Rattle.value_texts.specs.Reading.{Gives, begins, has_leading_zero, natural_at, natural_below as below, numeral_of, sign_at, word_at};

use crate::fault::Misspelled;
use orca_base::{Refusal, refuse};

/// Something and the text behind it, or why there is none.
pub type Read<'a, T> = Result<(T, &'a [u8]), Refusal<Misspelled>>;

/// Whether this byte begins the text.
pub fn begins(sign: u8, text: &[u8]) -> bool
    ensures { result ≡ begins sign text.now }
{
    match text {
        [] => false,
        [byte, ..] => *byte == sign,
    }
}

/// The text behind its first byte.
pub fn behind(text: &[u8]) -> &[u8]
    ensures { result.now ≡ drop 1 text.now }
{
    if text.is_empty() {
        return &[];
    }
    &text[1..]
}

/// The text behind this byte.
#[tactic(auto, unfolding(crate::specs::Reading::sign_at))]
pub fn sign(sign: u8, text: &[u8]) -> Result<&[u8], Refusal<Misspelled>>
    ensures { Gives (λ x. x.now) result (sign_at sign text.now) }
{
    match text {
        [] => refuse(Misspelled),
        [byte, rest @ ..] => {
            if *byte != sign {
                return refuse(Misspelled);
            }
            Ok(rest)
        }
    }
}

/// The text behind this word, where the word begins the text.
pub fn after<'a>(word: &[u8], text: &'a [u8]) -> Option<&'a [u8]>
    ensures { option_map (λ x. x.now) result ≡ word_at word.now text.now }
{
    let mut rest = text;
    for byte in word {
        if !begins(*byte, rest) {
            return None;
        }
        rest = behind(rest);
    }
    Some(rest)
}

/// The text behind this word.
pub fn word<'a>(word: &[u8], text: &'a [u8]) -> Result<&'a [u8], Refusal<Misspelled>>
    ensures { Gives (λ x. x.now) result (word_at word.now text.now) }
{
    match after(word, text) {
        Some(rest) => Ok(rest),
        None => refuse(Misspelled),
    }
}

// How many digits stand in front.
fn digits_len(text: &[u8]) -> usize
    ensures len { result ≡ prefix_len is_ascii_digit text.now }
    ensures within { result ≤ length text.now }
{
    text.iter().take_while(|byte| byte.is_ascii_digit()).count()
}

// Whether a 0 stands in front of other digits.
fn has_leading_zero(digits: &[u8]) -> bool
    ensures { result ≡ has_leading_zero digits.now }
{
    digits.len() > 1 && digits[0] == b'0'
}

// The number of 64 bits that these digits write without leading zeros.
fn numeral(digits: &[u8]) -> Option<u64>
    requires { list_all is_ascii_digit digits.now ≡ true }
    ensures { result ≡ numeral_of digits.now }
{
    if has_leading_zero(digits) {
        return None;
    }
    match str::from_utf8(digits) {
        Ok(digits) => digits.parse().ok(),
        Err(_) => None,
    }
}

/// The number of 64 bits in front of a text, in decimal without leading zeros: all digits that stand there belong to it.
#[tactic(auto, unfolding(crate::specs::Reading::natural_at))]
pub fn natural(text: &[u8]) -> Read<'_, u64>
    ensures { Gives (λ x. (x.0, x.1.now)) result (natural_at text.now) }
{
    let (digits, rest) = text.split_at(digits_len(text));
    match numeral(digits) {
        Some(number) => Ok((number, rest)),
        None => refuse(Misspelled),
    }
}

/// The same, where the number is below the limit.
#[tactic(auto, unfolding(crate::specs::Reading::natural_below))]
pub fn natural_below(limit: u64, text: &[u8]) -> Read<'_, u64>
    ensures is { Gives (λ x. (x.0, x.1.now)) result (below limit text.now) }
    ensures range { IfOk result (λ x. x.0 < limit) }
{
    let (number, rest) = natural(text)?;
    if number >= limit {
        return refuse(Misspelled);
    }
    Ok((number, rest))
}
