//! Numbers.

ghost use Rattle.std.specs.Prelude.{◌≡◌, ◌<◌, ◌≤◌, ◌^◌, length, SomeIff, true, MatchResult};
ghost use Rattle.std.specs.List.{prefix_len};
ghost use Rattle.std.specs.Char.{is_ascii_digit};
ghost use Rattle.std.specs.Str.Parse.{digits_value};
ghost use Rattle.orca_lexer.specs.Shapes.{is_numeral};
ghost use Rattle.orca_lexer.specs.Tokens.{IsStart};
ghost use Rattle.orca_lexer.specs.Fronts.{IsFront};
ghost use Rattle.orca_lexer.specs.Refusal.{IsFault};

use crate::error::LexRule;
use crate::parts::{Fault, Lexeme};
use crate::token::TokenKind;

// How many digits stand at the front.
fn numeral_len(text: &[u8]) -> usize
    ensures len { result ≡ prefix_len is_ascii_digit text.now }
    ensures within { result ≤ length text.now }
{
    text.iter().take_while(|byte| byte.is_ascii_digit()).count()
}

// The number that digits write, where it fits 63 bits.
fn number(digits: &[u8]) -> Option<u64>
    requires { is_numeral digits.now ≡ true }
    ensures { SomeIff result (digits_value 10 digits.now < 2 ^ 63) (digits_value 10 digits.now) }
{
    let mut value: u64 = 0;
    'digits: for digit in digits {
        let more = u64::from(*digit - b'0');
        if value > (i64::MAX as u64 - more) / 10 {
            return None;
        }
        value = value * 10 + more;
    }
    Some(value)
}

/// The number at the front of a text that begins with a digit.
pub fn numeral_at(text: &[u8]) -> Result<Lexeme, Fault>
    requires { IsStart is_ascii_digit text.now }
    ensures { MatchResult result (λ l. IsFront text.now l.kind l.len) (λ f. IsFault text.now f.rule f.distance) }
{
    let len = numeral_len(text);
    match number(&text[..len]) {
        Some(value) => Ok(Lexeme {
            kind: TokenKind::Number {
                value: value as i64,
            },
            len,
        }),
        None => Err(Fault {
            rule: LexRule::NumberTooLarge,
            distance: 0,
        }),
    }
}
