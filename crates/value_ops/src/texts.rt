//! Strings.

ghost use Rattle.std.specs.Prelude.{◌≡◌, IfOk, Ok, Err};
ghost use Rattle.orca_base.specs.Refusal.{MatchRefusal};
ghost use Rattle.value_core.specs.View.{datum_of};
ghost use Rattle.value_ops.specs.Texts.{joined, text_of, truth_text};

use orca_base::{FaultKind, NoMemory, Refusal, TEXT_LENGTH, Text, refuse};
use std::alloc::Global;
use value_core::{TextValue, Value};

/// One string behind the other: `&`.
///
/// # Errors
/// `TooLarge` where that is longer than 9,999, and want of memory.
pub fn join_texts(
    alloc: Global,
    left: &TextValue,
    right: &TextValue,
) -> Result<TextValue, Refusal<FaultKind>>
    ensures { MatchRefusal result (λ t. joined left.now right.now ≡ Ok t) (λ f. joined left.now right.now ≡ Err f) }
{
    let front = left.as_str();
    let back = right.as_str();
    if front.len().saturating_add(back.len()) > TEXT_LENGTH as usize {
        return refuse(FaultKind::TooLarge);
    }
    let mut text = String::from_str(alloc, front)?;
    text.push_str(back)?;
    Ok(TextValue::new(alloc, Text::new(text))?)
}

/// What `WriteLine` writes of a value, with the names of the values of its enumeration. Of arrays, records, sets, bags and
/// objects it writes nothing, nor of a number that is no char's code.
///
/// # Errors
/// Want of memory.
pub fn text_of(alloc: Global, value: &Value, names: &[TextValue]) -> Result<TextValue, NoMemory>
    ensures { IfOk result (λ t. t ≡ text_of names.now (datum_of value.now)) }
{
    match value {
        Value::Int(number) => {
            let text = format!(in alloc; "{number}")?;
            TextValue::new(alloc, Text::new(text))
        }
        Value::Truth(truth) => TextValue::from_str(alloc, truth_text(*truth)),
        Value::Char(code) if *code < 128 => {
            let mut text = String::new(alloc);
            text.push(char::from(*code))?;
            TextValue::new(alloc, Text::new(text))
        }
        Value::Enum(number) => match names.get(*number as usize) {
            Some(name) => name.copy(),
            None => TextValue::from_str(alloc, ""),
        },
        Value::Text(text) => text.copy(),
        _ => TextValue::from_str(alloc, ""),
    }
}

// A truth in letters.
fn truth_text(truth: bool) -> &'static str
    ensures { result.now ≡ truth_text truth }
{
    if truth { "true" } else { "false" }
}
