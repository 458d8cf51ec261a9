//! Why a text has no tokens.

ghost use Rattle.std.specs.Prelude.{◌≡◌};
ghost use Rattle.orca_lexer.specs.Rules.{number_of, message_of};

use orca_base::Place;

/// A rule of the lexer that a text breaks.
#[derive(Clone, Copy, Debug, PartialEq, Eq)]
pub enum LexRule {
    /// The text isn't UTF-8.
    NotUtf8,
    /// A character begins no token, or is none of a char's or a string's; or a char isn't one character long.
    StrayCharacter,
    /// A char or a string isn't closed on its line.
    OpenString,
    /// A number is above 9,223,372,036,854,775,807.
    NumberTooLarge,
}

impl LexRule {
    /// The rule's number, from 1.
    pub fn number(self) -> u8
        ensures { result ≡ number_of self }
    {
        match self {
            LexRule::NotUtf8 => 1,
            LexRule::StrayCharacter => 2,
            LexRule::OpenString => 3,
            LexRule::NumberTooLarge => 4,
        }
    }

    /// What a reader is told of it.
    pub fn message(self) -> &'static str
        ensures { result.now ≡ message_of self }
    {
        match self {
            LexRule::NotUtf8 => "not UTF-8",
            LexRule::StrayCharacter => "stray character",
            LexRule::OpenString => "open string",
            LexRule::NumberTooLarge => "number too large",
        }
    }
}

/// The first reason for which a text has no tokens, and its place.
#[derive(Clone, Copy, Debug, PartialEq, Eq)]
pub struct LexError {
    pub rule: LexRule,
    pub at: Place,
}
