//! Tables of words.

ghost use Rattle.std.specs.Prelude.{◌≡◌, map};
ghost use Rattle.fault_scripts.specs.Words.{entry_of};

/// What a word stands for in a table.
pub fn entry<T: Copy>(table: &[(&[u8], T)], word: &[u8]) -> Option<T>
    ensures { result ≡ entry_of (map (λ e. (e.0.now, e.1)) table.now) word.now }
{
    'rows: for (text, value) in table {
        if *text == word {
            return Some(*value);
        }
    }
    None
}
