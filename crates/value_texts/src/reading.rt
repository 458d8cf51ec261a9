//! Reading values.

ghost use Rattle.std.specs.Prelude.{◌≡◌, ◌<◌, ◌^◌, ◌++◌, ◌∷◌, List, ℕ, None, length, map, IfOk};
ghost use Rattle.std.specs.Str.{IsAscii};
ghost use Rattle.orca_base.specs.Refusal.{MatchRefusal};
ghost use Rattle.orca_base.specs.declared.limits.TheConstants.{VALUE_NESTING};
ghost use Rattle.value_core.specs.Datum.{Data, Datum, list_of};
ghost use Rattle.value_core.specs.Sound.{AreSound, IsSound};
ghost use Rattle.value_core.specs.View.{datum_of};
ghost use Rattle.value_texts.specs.Reading.{Gives, char_at, closing, content_at, enumerated_at, first_at, int_at, integer_at, last_of, list_at, negative_at, object_at, object_id_at, part_at, text_at, truth_at, until_at, value_at, values_at, whole_at};
ghost use Rattle.value_texts.specs.Spelling.{BeginsWithNoDigit, parts_text, value_text};

use crate::brackets::Brackets;
use crate::fault::Misspelled;
use crate::strings::characters;
use crate::words::{Read, begins, behind, natural, natural_below, sign, word};
use orca_base::{ObjectId, Refusal, Text, VALUE_NESTING, refuse};
use std::alloc::Global;
use value_core::{BoxedParts, Parts, TextValue, Value};

// An integer that isn't below 0.
#[tactic(auto, unfolding(crate::specs::Reading::whole_at))]
fn whole(text: &[u8]) -> Read<'_, i64>
    ensures { Gives (λ x. (x.0, x.1.now)) result (whole_at text.now) }
{
    let (number, rest) = natural_below(1 << 63, text)?;
    Ok((number as i64, rest))
}

// An integer below 0, behind its sign.
#[tactic(auto, unfolding(crate::specs::Reading::negative_at))]
fn negative(text: &[u8]) -> Read<'_, i64>
    ensures { Gives (λ x. (x.0, x.1.now)) result (negative_at text.now) }
{
    let (number, rest) = natural(text)?;
    if number == 0 || number > 1 << 63 {
        return refuse(Misspelled);
    }
    Ok((-1 - (number - 1) as i64, rest))
}

/// The integer in front of a text, in decimal without leading zeros: all digits that stand there belong to it.
#[tactic(auto, unfolding(crate::specs::Reading::integer_at))]
pub fn integer(text: &[u8]) -> Read<'_, i64>
    ensures { Gives (λ x. (x.0, x.1.now)) result (integer_at text.now) }
{
    if begins(b'-', text) {
        negative(behind(text))
    } else {
        whole(text)
    }
}

// An integer, as a value.
#[tactic(auto, unfolding(crate::specs::Reading::int_at))]
fn int_in(text: &[u8]) -> Read<'_, Value>
    ensures { Gives (λ x. (datum_of x.0, x.1.now)) result (int_at text.now) }
{
    let (number, rest) = integer(text)?;
    Ok((Value::Int(number), rest))
}

// A truth, by its word.
#[tactic(auto, unfolding(crate::specs::Reading::truth_at))]
fn truth_in<'a>(truth: bool, letters: &[u8], text: &'a [u8]) -> Read<'a, Value>
    ensures { Gives (λ x. (datum_of x.0, x.1.now)) result (truth_at truth letters.now text.now) }
{
    let rest = word(letters, text)?;
    Ok((Value::Truth(truth), rest))
}

// A char, by its code.
#[tactic(auto, unfolding(crate::specs::Reading::char_at))]
fn char_in(text: &[u8]) -> Read<'_, Value>
    ensures { Gives (λ x. (datum_of x.0, x.1.now)) result (char_at text.now) }
{
    let (code, rest) = natural_below(128, text)?;
    Ok((Value::Char(code as u8), rest))
}

// An enumeration's value, by its number.
#[tactic(auto, unfolding(crate::specs::Reading::enumerated_at))]
fn enumerated_in(text: &[u8]) -> Read<'_, Value>
    ensures { Gives (λ x. (datum_of x.0, x.1.now)) result (enumerated_at text.now) }
{
    let (number, rest) = natural_below(1 << 16, text)?;
    Ok((Value::Enum(number as u16), rest))
}

/// The object whose process and number stand in front of a text, with a point between them.
#[tactic(auto, unfolding(crate::specs::Reading::object_id_at))]
pub fn object_id(text: &[u8]) -> Read<'_, ObjectId>
    ensures { Gives (λ x. (x.0, x.1.now)) result (object_id_at text.now) }
{
    let (process, rest) = natural_below(1 << 16, text)?;
    let rest = sign(b'.', rest)?;
    let (number, rest) = natural_below(1 << 32, rest)?;
    let object = ObjectId {
        process: process as u16,
        number: number as u32,
    };
    Ok((object, rest))
}

// An object, as a value.
#[tactic(auto, unfolding(crate::specs::Reading::object_at))]
fn object_in(text: &[u8]) -> Read<'_, Value>
    ensures { Gives (λ x. (datum_of x.0, x.1.now)) result (object_at text.now) }
{
    let (object, rest) = object_id(text)?;
    Ok((Value::Object(object), rest))
}

// The text of these characters.
fn text_from(characters: Vec<u8>) -> Text
    requires { IsAscii characters.items }
    ensures { result ≡ characters.items }
{
    Text::new(String::from_utf8(characters).unwrap())
}

// A string, behind its opening quote.
#[tactic(auto, unfolding(crate::specs::Reading::text_at))]
fn text_in(alloc: Global, text: &[u8]) -> Read<'_, Value>
    ensures { Gives (λ x. (datum_of x.0, x.1.now)) result (text_at text.now) }
{
    let (characters, rest) = characters(alloc, text)?;
    let string = TextValue::new(alloc, text_from(characters))?;
    Ok((Value::Text(string), rest))
}

// A part, and the text behind it, where so many parts stand before it.
#[cycle(values)]
#[tactic(auto, unfolding(crate::specs::Reading::part_at))]
fn part_in<'a>(
    alloc: Global,
    levels: u32,
    brackets: Brackets,
    parts: &[Value],
    text: &'a [u8],
) -> Read<'a, Value>
    ensures { Gives (λ x. (datum_of x.0, x.1.now)) result
        (part_at (value_at levels) brackets (last_of (map datum_of parts.now)) text.now) }
{
    let Some(last) = parts.last() else {
        return value_in(alloc, levels, text);
    };
    let rest = sign(b' ', text)?;
    let (part, rest) = value_in(alloc, levels, rest)?;
    if !brackets.may_follow(last, &part) {
        return refuse(Misspelled);
    }
    Ok((part, rest))
}

// The parts up to the closing byte, and the text behind it.
#[cycle(values)]
fn parts_in(alloc: Global, levels: u32, brackets: Brackets, text: &[u8]) -> Read<'_, Vec<Value>>
    ensures { Gives (λ x. (map datum_of x.0.items, x.1.now)) result
        (until_at (part_at (value_at levels) brackets) (closing brackets) (length text.now) None text.now) }
{
    let mut parts = Vec::new(alloc);
    let mut rest = text;
    for _ in 0..text.len() {
        if begins(brackets.closing(), rest) {
            return Ok((parts, behind(rest)));
        }
        let (part, after) = part_in(alloc, levels, brackets, &parts, rest)?;
        parts.push(part)?;
        rest = after;
    }
    refuse(Misspelled)
}

// A list, behind its opening byte.
#[cycle(values)]
#[tactic(auto, unfolding(crate::specs::Reading::list_at))]
fn list_in(alloc: Global, levels: u32, brackets: Brackets, text: &[u8]) -> Read<'_, Value>
    ensures { Gives (λ x. (datum_of x.0, x.1.now)) result (list_at (value_at levels) brackets text.now) }
{
    let (parts, rest) = parts_in(alloc, levels, brackets, text)?;
    let parts = BoxedParts::new(alloc, Parts::from_vec(parts))?;
    Ok((brackets.value(parts), rest))
}

// A value by its first byte, where its parts may nest so many levels.
#[cycle(values)]
#[tactic(auto, unfolding(crate::specs::Reading::content_at, crate::specs::Reading::opened_at))]
fn content_in(alloc: Global, levels: u32, first: u8, text: &[u8]) -> Read<'_, Value>
    ensures { Gives (λ x. (datum_of x.0, x.1.now)) result (content_at (value_at levels) first text.now) }
{
    match first {
        b'c' => char_in(behind(text)),
        b'e' => enumerated_in(behind(text)),
        b'o' => object_in(behind(text)),
        b'"' => text_in(alloc, behind(text)),
        b't' => truth_in(true, b"true", text),
        b'f' => truth_in(false, b"false", text),
        _ => match Brackets::opened_by(first) {
            Some(brackets) => list_in(alloc, levels, brackets, behind(text)),
            None => int_in(text),
        },
    }
}

// A value whose parts may nest so many levels.
#[cycle(values)]
#[tactic(auto, unfolding(crate::specs::Reading::first_at))]
fn first_in(alloc: Global, levels: u32, text: &[u8]) -> Read<'_, Value>
    ensures { Gives (λ x. (datum_of x.0, x.1.now)) result (first_at (value_at levels) text.now) }
{
    match text {
        [] => refuse(Misspelled),
        [first, ..] => content_in(alloc, levels, *first, text),
    }
}

// A value, where values may nest so many levels more.
#[cycle(values)]
fn value_in(alloc: Global, levels: u32, text: &[u8]) -> Read<'_, Value>
    ensures { Gives (λ x. (datum_of x.0, x.1.now)) result (value_at levels text.now) }
{
    if levels == 0 {
        return refuse(Misspelled);
    }
    first_in(alloc, levels - 1, text)
}

/// The value in front of a text, and the text behind it. A number ends where no more digits stand.
pub fn value_in_front(alloc: Global, text: &[u8]) -> Read<'_, Value>
    // The value is sound, and the text in front is its spelling. Of fewer than 2^32 bytes each list fits.
    ensures found { length text.now < 2 ^ 32 → IfOk result (λ x. IsSound (datum_of x.0) × (text.now ≡ value_text (datum_of x.0) ++ x.1.now)) }
    // Where a sound value is spelled in front of a text that begins with no digit, the answer is that value and that text.
    ensures only { (v : Datum) (behind : List ℕ) → IsSound v → BeginsWithNoDigit behind → text.now ≡ value_text v ++ behind →
        MatchRefusal result (λ x. (datum_of x.0 ≡ v) × (x.1.now ≡ behind)) (λ cause. ⊥) }
    // The same in one equation, for readers of longer forms.
    ensures exact { Gives (λ x. (datum_of x.0, x.1.now)) result (value_at VALUE_NESTING text.now) }
{
    value_in(alloc, VALUE_NESTING, text)
}

// The values in round brackets in front of a text.
#[tactic(auto, unfolding(crate::specs::Reading::values_at))]
fn values_in(alloc: Global, text: &[u8]) -> Read<'_, Parts>
    ensures { Gives (λ x. (list_of x.0, x.1.now)) result (values_at text.now) }
{
    let rest = sign(b'(', text)?;
    let (values, rest) = parts_in(alloc, VALUE_NESTING, Brackets::Round, rest)?;
    Ok((Parts::from_vec(values), rest))
}

/// The values in round brackets in front of a text, with one space between two, and the text behind them.
pub fn values_in_front(alloc: Global, text: &[u8]) -> Read<'_, Parts>
    // The values are sound, and stand there. Of fewer than 2^32 bytes each list fits.
    ensures found { length text.now < 2 ^ 32 →
        IfOk result (λ x. AreSound x.0 × (text.now ≡ 40 ∷ (parts_text x.0 ++ 41 ∷ x.1.now))) }
    // Sound values that stand there are read.
    ensures only { (values : Data) (behind : List ℕ) → AreSound values → text.now ≡ 40 ∷ (parts_text values ++ 41 ∷ behind) →
        MatchRefusal result (λ x. (x.0 ≡ values) × (x.1.now ≡ behind)) (λ cause. ⊥) }
    // The same in one equation, for readers of longer forms.
    ensures exact { Gives (λ x. (list_of x.0, x.1.now)) result (values_at text.now) }
{
    values_in(alloc, text)
}

/// The value that a whole text spells. There are fewer than 2^32 bytes.
pub fn read_value(alloc: Global, text: &[u8]) -> Result<Value, Refusal<Misspelled>>
    requires { length text.now < 2 ^ 32 }
    // The value is sound, and the text is its spelling.
    ensures found { IfOk result (λ value. IsSound (datum_of value) × (text.now ≡ value_text (datum_of value))) }
    // The spelling of a sound value is read: a text is refused only where it is the spelling of none.
    ensures only { (v : Datum) → IsSound v → text.now ≡ value_text v → MatchRefusal result (λ value. datum_of value ≡ v) (λ cause. ⊥) }
{
    let (value, rest) = value_in_front(alloc, text)?;
    if !rest.is_empty() {
        return refuse(Misspelled);
    }
    Ok(value)
}
