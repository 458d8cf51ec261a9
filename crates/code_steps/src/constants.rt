//! Constants.

ghost use Rattle.std.specs.Prelude.{◌≡◌, IfOk, List};
ghost use Rattle.value_core.specs.Datum as datum;
ghost use Rattle.value_core.specs.Datum.{Datum};
ghost use Rattle.value_core.specs.View.{datum_of};
ghost use Rattle.meaning_rules.specs.Operators.{fitting as rule_fitting};
ghost use Rattle.meaning_rules.specs.States.{State, gives};
ghost use Rattle.frame_variables.specs.Gives.{Gives};
ghost use Rattle.code_rules.specs.Instructions as rules;
ghost use Rattle.emitted_code.specs.Views.{marks_of};
ghost use Rattle.code_steps.specs.Moves.{Moves};

use crate::advance::Advance;
use crate::operands::Operands;
use crate::paths::pop_path;
use crate::pushing::{copied, push_found, push_made};
use emitted_code::Mark;
use frame_variables::{Stop, fitting, part};
use orca_base::{NoMemory, Text};
use std::alloc::Global;
use value_core::{TextValue, Value};

/// A value.
#[inline(always)]
pub fn push(alloc: Global, value: &Value, stack: &mut Operands) -> Result<Advance, NoMemory>
    ensures { IfOk result (λ a. (locals : List Datum) → Moves (rules.Push (datum_of value.now)) stack.old locals a stack.new locals) }
{
    stack.push(copied(alloc, value)?)?;
    Ok(Advance::Next)
}

// A string as a value, which may be too long.
fn text_value(alloc: Global, text: &Text) -> Result<Value, Stop>
    ensures { (s : State) → Gives datum_of result s (gives (rule_fitting (datum.text text.now)) s) }
{
    let value = Value::Text(TextValue::new(alloc, text.copy(alloc)?)?);
    fitting(&value)?;
    Ok(value)
}

/// A string, which may be too long.
pub fn push_text(alloc: Global, text: &Text, stack: &mut Operands) -> Result<Advance, NoMemory>
    ensures { IfOk result (λ a. (locals : List Datum) → Moves (rules.Text text.now) stack.old locals a stack.new locals) }
{
    push_made(text_value(alloc, text), stack)
}

/// A part of a value.
pub fn push_part(
    alloc: Global,
    value: &Value,
    marks: &[Mark],
    stack: &mut Operands,
) -> Result<Advance, NoMemory>
    ensures { IfOk result (λ a. (locals : List Datum) →
        Moves (rules.Part (datum_of value.now) (marks_of marks.now)) stack.old locals a stack.new locals) }
{
    let Some(path) = pop_path(alloc, marks, stack)? else {
        return Ok(Advance::Stuck);
    };
    let zero = Value::Int(0);
    push_found(alloc, part(value, &path, &zero), stack)
}
