//! Where reading stands.

ghost use Rattle.std.specs.Prelude.{◌≡◌, ◌+◌, ◌<◌, ◌≤◌, ◌-◌, ◌^◌, List, ℕ, length};
ghost use Rattle.orca_lexer.specs.Tokens.{place_in};
ghost use Rattle.orca_lexer.specs.Cursors.{IsAt};

use orca_base::Place;

/// A byte of a text that is being read, or the text's end: how many bytes stand before it, and its place.
#[derive(Clone, Copy, Debug)]
pub struct Cursor {
    pub offset: usize,
    pub at: Place,
}

/// At the first byte of any text.
pub fn opening() -> Cursor
    ensures at { (text : List ℕ) → IsAt text result }
    ensures offset { result.offset ≡ 0 }
{
    Cursor {
        offset: 0,
        at: Place { line: 1, column: 1 },
    }
}

impl Cursor {
    /// One byte on.
    pub fn past(self, text: &[u8]) -> Cursor
        requires at { IsAt text.now self }
        requires more { self.offset < length text.now }
        requires fits { length text.now < 2 ^ 32 - 1 }
        ensures at { IsAt text.now result }
        ensures offset { result.offset ≡ self.offset + 1 }
    {
        let offset = self.offset + 1;
        let at = if text[self.offset] == b'\n' {
            Place {
                line: self.at.line + 1,
                column: 1,
            }
        } else {
            Place {
                line: self.at.line,
                column: self.at.column + 1,
            }
        };
        Cursor { offset, at }
    }

    /// So many bytes on.
    pub fn past_all(self, text: &[u8], len: usize) -> Cursor
        requires at { IsAt text.now self }
        requires within { self.offset + len ≤ length text.now }
        requires fits { length text.now < 2 ^ 32 - 1 }
        ensures at { IsAt text.now result }
        ensures offset { result.offset ≡ self.offset + len }
    {
        let mut cursor = self;
        'bytes: for _ in 0..len {
            cursor = cursor.past(text);
        }
        cursor
    }
}
