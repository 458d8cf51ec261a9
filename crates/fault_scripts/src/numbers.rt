//! Numbers in scripts.

ghost use Rattle.std.specs.Prelude.{◌≡◌, ◌≤◌, IfSome};
ghost use Rattle.std.specs.Char.{is_ascii_digit};
ghost use Rattle.std.specs.List.{list_all};
ghost use Rattle.fault_scripts.specs.Words.{number_in, number_of, which_of};

use net_rules::Which;
use orca_base::NODES;

/// Digits that a number has at most, so that it fits 64 bits.
pub const NUMBER_DIGITS: usize = 19;

/// The greatest number of so many digits.
pub const GREATEST: u64 = 9_999_999_999_999_999_999;

/// The greatest number of a member.
pub const GREATEST_MEMBER: u64 = NODES as u64 - 1;

/// The greatest seed.
pub const GREATEST_SEED: u64 = i64::MAX as u64;

// Whether a word has decimal digits alone.
fn is_digits(word: &[u8]) -> bool
    ensures { result ≡ list_all is_ascii_digit word.now }
{
    word.iter().all(|byte| byte.is_ascii_digit())
}

// The number that 1 to 19 decimal digits write.
fn number(word: &[u8]) -> Option<u64>
    ensures { result ≡ number_of word.now }
{
    if word.len() > NUMBER_DIGITS || !is_digits(word) {
        return None;
    }
    match str::from_utf8(word) {
        Ok(digits) => digits.parse().ok(),
        Err(_) => None,
    }
}

/// The number that a word writes, where it is in the range.
#[tactic(auto, unfolding(crate::specs::Words::number_in))]
pub fn number_within(word: &[u8], least: u64, most: u64) -> Option<u64>
    ensures is { result ≡ number_in least most word.now }
    ensures range { IfSome result (λ n. (least ≤ n) × (n ≤ most)) }
{
    let number = number(word)?;
    if least <= number && number <= most {
        Some(number)
    } else {
        None
    }
}

/// Which packets a word names.
#[tactic(auto, unfolding(crate::specs::Words::which_of))]
pub fn which(word: &[u8]) -> Option<Which>
    ensures { result ≡ which_of word.now }
{
    if word == b"all".as_slice() {
        return Some(Which::All);
    }
    let number = number_within(word, 1, GREATEST)?;
    Some(Which::Nth { number })
}
