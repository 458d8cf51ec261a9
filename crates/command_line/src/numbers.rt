//! Numbers among the words.

ghost use Rattle.std.specs.Prelude.{◌≡◌, ◌≤◌, IfSome};
ghost use Rattle.std.specs.Char.{is_ascii_digit};
ghost use Rattle.std.specs.List.{list_all};
ghost use Rattle.command_line.specs.Numbers.{number_of, number_in};

/// Digits that a number has at most, so that it fits 64 bits.
pub const NUMBER_DIGITS: usize = 19;

// Whether a text has decimal digits alone.
fn is_digits(text: &str) -> bool
    ensures { result ≡ list_all is_ascii_digit text.now }
{
    text.bytes().all(|byte| byte.is_ascii_digit())
}

/// The number that a text of 1 to 19 decimal digits writes.
pub fn number(text: &str) -> Option<u64>
    ensures { result ≡ number_of text.now }
{
    if text.len() > NUMBER_DIGITS || !is_digits(text) {
        return None;
    }
    text.parse().ok()
}

/// The number that the text writes, where it is in the range.
pub fn within(text: &str, least: u64, most: u64) -> Option<u64>
    ensures is { result ≡ number_in least most text.now }
    ensures range { IfSome result (λ n. (least ≤ n) × (n ≤ most)) }
{
    let number = number(text)?;
    if least <= number && number <= most {
        Some(number)
    } else {
        None
    }
}
