//! Where a text stops to be UTF-8.

ghost use Rattle.std.specs.Prelude.{◌≡◌, ◌<◌, ℕ, length, drop, take, MatchOption};
ghost use Rattle.std.specs.Int.{is_in_range};
ghost use Rattle.std.specs.Str.{IsUtf8};
ghost use Rattle.std.specs.Str.Lossy.{utf8_error_len};
ghost use Rattle.orca_lexer.specs.Refusal.{IsFirstBadByte};
ghost use Rattle.orca_lexer.specs.Fronts.{IsBadAt};

// Whether a character of several bytes may begin with this byte.
fn is_lead(byte: u8) -> bool
    ensures { result ≡ is_in_range 194 244 byte }
{
    matches!(byte, 0xC2..=0xF4)
}

// How many bytes begin a character, of bytes whose fronts are no text. The fault is that of std's check.
fn begun_len(rest: &[u8], fault: Option<usize>) -> usize
    requires some { 0 < length rest.now }
    requires none { (m : ℕ) → 0 < m → IsUtf8 (take m rest.now) → ⊥ }
    requires fault { fault ≡ utf8_error_len rest.now }
    ensures { IsFirstBadByte rest.now result }
{
    match fault {
        None => rest.len(),
        Some(len) if is_lead(rest[0]) => len,
        Some(_) => 0,
    }
}

/// How many bytes stand before the first one that doesn't continue UTF-8, where a text isn't UTF-8.
pub fn bad_byte(text: &[u8]) -> Option<usize>
    ensures { MatchOption result (IsUtf8 text.now) (IsBadAt text.now) }
{
    match str::from_utf8(text) {
        Ok(_) => None,
        Err(error) => {
            let valid = error.valid_up_to();
            Some(valid + begun_len(&text[valid..], error.error_len()))
        }
    }
}
