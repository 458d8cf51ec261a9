//! What separates tokens: blanks and comments.

ghost use Rattle.std.specs.Prelude.{◌≡◌, ◌<◌, ◌≤◌, ◌-◌, ◌^◌, length, drop};
ghost use Rattle.orca_lexer.specs.Tokens.{is_blank, after_gap};
ghost use Rattle.orca_lexer.specs.Cursors.{IsAt};

use crate::cursor::Cursor;

// A space, a tab, a carriage return or a line feed.
fn is_blank(byte: u8) -> bool
    ensures { result ≡ is_blank byte }
{
    matches!(byte, b' ' | b'\t' | b'\r' | b'\n')
}

/// Behind the blanks and comments from here on.
pub fn past_gap(text: &[u8], from: Cursor) -> Cursor
    requires at { IsAt text.now from }
    requires fits { length text.now < 2 ^ 32 - 1 }
    ensures at { IsAt text.now result }
    ensures gap { drop result.offset text.now ≡ after_gap (drop from.offset text.now) }
    ensures onward { from.offset ≤ result.offset }
{
    let mut cursor = from;
    let mut in_comment = false;
    'gap: while cursor.offset < text.len() {
        let byte = text[cursor.offset];
        if in_comment {
            in_comment = byte != b'\n';
        } else if byte == b'#' {
            in_comment = true;
        } else if !is_blank(byte) {
            return cursor;
        }
        cursor = cursor.past(text);
    }
    cursor
}
