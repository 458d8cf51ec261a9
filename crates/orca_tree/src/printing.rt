//! The text of a tree.

ghost use Rattle.std.specs.Prelude.{◌≡◌, ◌++◌, IfOk, OnOk, map, string_bytes};
ghost use Rattle.std.specs.List.{join_with_byte};
ghost use Rattle.std.specs.Str.Lossy.{utf8_lossy};
ghost use Rattle.orca_lexer.specs.Spelling.{spelling_of};
ghost use Rattle.orca_tree.specs.Fronts.{in_front};
ghost use Rattle.orca_tree.specs.Printing.{printed, AreWordsSound};

use crate::spelling::words;
use crate::tree::Unit;
use orca_base::NoMemory;
use orca_lexer::{TokenKind, write_token};
use std::alloc::Global;

/// The text of a tree: its tokens with one space between two, and a line feed at the end. The tokens of a tree that is of no
/// text may have characters that are no text: each such is replaced.
pub fn print_tree(alloc: Global, unit: &Unit) -> Result<String, NoMemory>
    ensures sound { IfOk result (λ text. AreWordsSound unit.now → string_bytes text ≡ printed unit.now) }
    ensures lossy { IfOk result (λ text. string_bytes text ≡ utf8_lossy (printed unit.now)) }
{
    let bytes = printed_bytes(alloc, unit)?;
    Ok(String::from_utf8_lossy(alloc, &bytes)?)
}

// The bytes of a unit's text.
fn printed_bytes(alloc: Global, unit: &Unit) -> Result<Vec<u8>, NoMemory>
    ensures { IfOk result (λ bytes. bytes.items ≡ printed unit.now) }
{
    let words = words(alloc, unit)?;
    let mut bytes = Vec::new(alloc);
    write_words(&mut bytes, &words)?;
    bytes.push(b'\n')?;
    Ok(bytes)
}

/// Writes words with one space between two.
fn write_words(out: &mut Vec<u8>, words: &[TokenKind]) -> Result<(), NoMemory>
    ensures { OnOk result (out.new.items ≡ out.old.items ++ join_with_byte 32 (map spelling_of words.now)) }
{
    for (index, word) in words.iter().enumerate() {
        write_space(out, index)?;
        write_token(out, word)?;
    }
    Ok(())
}

/// A space in front of each word but the first.
fn write_space(out: &mut Vec<u8>, index: usize) -> Result<(), NoMemory>
    ensures { OnOk result (out.new.items ≡ out.old.items ++ in_front index 32) }
{
    if index > 0 {
        out.push(b' ')?;
    }
    Ok(())
}
