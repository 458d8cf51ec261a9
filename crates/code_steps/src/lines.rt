//! A line of output.

ghost use Rattle.std.specs.Prelude.{◌≡◌, [], IfOk, List, Ok, map, slice_get, string_bytes, unwrap_or};
ghost use Rattle.value_core.specs.Datum as datum;
ghost use Rattle.value_core.specs.Datum.{Datum};
ghost use Rattle.value_core.specs.View.{datum_of};
ghost use Rattle.value_ops.specs.Texts.{joined, text_of as rule_text_of};
ghost use Rattle.meaning_rules.specs.Operators.{and_then};
ghost use Rattle.meaning_rules.specs.States.{State, gives};
ghost use Rattle.meaning_rules.specs.Statements.{line_of};
ghost use Rattle.frame_variables.specs.Gives.{Gives};
ghost use Rattle.code_rules.specs.Instructions as rules;
ghost use Rattle.code_rules.specs.Machine.{texts_by};
ghost use Rattle.emitted_code.specs.Views.{texts_of};
ghost use Rattle.code_steps.specs.Moves.{Moves};

use crate::advance::Advance;
use crate::operands::Operands;
use crate::pushing::push_made;
use frame_variables::Stop;
use orca_base::{FaultKind, NoMemory, TEXT_LENGTH, Text};
use orca_tree::Name;
use std::alloc::Global;
use value_core::{TextValue, Value};
use value_ops::text_of;

// The name at a place, and the empty text where there is none.
fn name_at(alloc: Global, names: &[Name], place: usize) -> Result<TextValue, NoMemory>
    ensures { IfOk result (λ t. t ≡ unwrap_or (slice_get (map (λ n. n.text) names.now) place) []) }
{
    match names.get(place) {
        None => TextValue::from_str(alloc, ""),
        Some(name) => TextValue::from_str(alloc, name.text.as_str()),
    }
}

// What is written of a value, by the names that it may have.
fn text(alloc: Global, names: &[Name], value: &Value) -> Result<TextValue, NoMemory>
    ensures { IfOk result (λ t. t ≡ rule_text_of (map (λ n. n.text) names.now) (datum_of value.now)) }
{
    match value {
        Value::Enum(number) => name_at(alloc, names, usize::from(*number)),
        _ => text_of(alloc, value, &[]),
    }
}

// One text more at the end of a line.
fn append(line: &mut String, text: &str) -> Result<(), Stop>
    ensures { (s : State) → Gives (λ _. string_bytes line.new) result s (gives (joined (string_bytes line.old) text.now) s) }
{
    if line.len().saturating_add(text.len()) > TEXT_LENGTH as usize {
        return Err(Stop::Faults {
            fault: FaultKind::TooLarge,
        });
    }
    line.push_str(text)?;
    Ok(())
}

// The texts of values, in a row behind others.
fn add_texts(
    alloc: Global,
    names: &[&[Name]],
    values: &[Value],
    line: &mut String,
) -> Result<(), Stop>
    ensures { (s : State) → Gives (λ _. string_bytes line.new) result s
        (gives (line_of (string_bytes line.old) (texts_by (texts_of names.now) (map datum_of values.now))) s) }
{
    match (names, values) {
        ([first, names @ ..], [value, values @ ..]) => {
            let text = text(alloc, first, value)?;
            append(line, text.as_str())?;
            add_texts(alloc, names, values, line)
        }
        ([], _) => Ok(()),
        ([_, ..], []) => Ok(()),
    }
}

// The line that the texts of values are joined to, as a value.
fn line_value(alloc: Global, names: &[&[Name]], values: &[Value]) -> Result<Value, Stop>
    ensures { (s : State) → Gives datum_of result s
        (gives (and_then (line_of [] (texts_by (texts_of names.now) (map datum_of values.now))) (λ line. Ok (datum.text line))) s) }
{
    let mut line = String::new(alloc);
    add_texts(alloc, names, values, &mut line)?;
    Ok(Value::Text(TextValue::new(alloc, Text::new(line))?))
}

/// The texts of values are joined to a line, which is pushed.
pub fn join_line(
    alloc: Global,
    names: &[&[Name]],
    stack: &mut Operands,
) -> Result<Advance, NoMemory>
    ensures { IfOk result (λ a. (locals : List Datum) → Moves (rules.Line (texts_of names.now)) stack.old locals a stack.new locals) }
{
    let Some(values) = stack.pop_many(alloc, names.len())? else {
        return Ok(Advance::Stuck);
    };
    push_made(line_value(alloc, names, values.as_slice()), stack)
}
