//! The names of a program's object types, operations and process texts.

ghost use Rattle.std.specs.Prelude.{◌≡◌, ◌<◌, ◌≤◌, ◌^◌, IfOk, IfSome, length};
ghost use Rattle.std.specs.List.{prefix_len};
ghost use Rattle.value_texts.specs.Reading.{Gives};
ghost use Rattle.history_text.specs.Reading.{name_len, named_at as at_name, number_of};
ghost use Rattle.history_text.specs.Sound.{is_name_byte};
ghost use Rattle.history_text.specs.Spelling.{operation_names};

use orca_base::{Text, refuse};
use value_texts::{Misspelled, Read};

/// The names of an object type's operations, by their numbers.
#[derive(Debug, Drop)]
pub struct Operations {
    pub names: Vec<Text>,
}

/// The names that a program's lines have, by their numbers: of object types with `Output` first, of the operations of each, and of
/// process texts.
#[derive(Debug, Drop)]
pub struct Names {
    pub kinds: Vec<Text>,
    pub operations: Vec<Operations>,
    pub texts: Vec<Text>,
}

// A letter, a digit or `_`.
fn is_name_byte(byte: u8) -> bool
    ensures { result ≡ is_name_byte byte }
{
    byte.is_ascii_alphanumeric() || byte == b'_'
}

/// How many bytes in front may belong to a name.
pub(crate) fn name_len(text: &[u8]) -> usize
    ensures len { result ≡ name_len text.now }
    ensures within { result ≤ length text.now }
{
    text.iter().take_while(|byte| is_name_byte(**byte)).count()
}

// The number of a name in a table.
fn number_of(names: &[Text], name: &[u8]) -> Option<usize>
    ensures is { result ≡ number_of names.now name.now }
    ensures within { IfSome result (λ number. number < length names.now) }
{
    names.iter().position(|other| other.as_bytes() == name)
}

/// The names of an object type's operations, or none where there is no such type.
pub(crate) fn operation_table(names: &Names, kind: u16) -> &[Text]
    ensures { result.now ≡ operation_names names.now kind }
{
    match names.operations.get(kind as usize) {
        Some(operations) => operations.names.as_slice(),
        None => &[],
    }
}

/// The number of the name in front of a text in a table of at most 2^16, and the text behind the name.
#[tactic(auto, unfolding(crate::specs::Reading::named_at))]
pub(crate) fn named<'a>(names: &[Text], text: &'a [u8]) -> Read<'a, u16>
    requires { length names.now ≤ 2 ^ 16 }
    ensures { Gives (λ x. (x.0, x.1.now)) result (at_name names.now text.now) }
{
    let (name, rest) = text.split_at(name_len(text));
    match number_of(names, name) {
        Some(number) => Ok((number as u16, rest)),
        None => refuse(Misspelled),
    }
}
