//! The note on a text that is no script.

ghost use Rattle.std.specs.Prelude.{◌≡◌, [], List, IfNone, IfOk, IfSome, Some};
ghost use Rattle.net_rules.specs.declared.line.ScriptLine.{ScriptLine};
ghost use Rattle.fault_scripts.specs.Says.{IsScript};
ghost use Rattle.refusal_notes.specs.Notes.{note_of};
ghost use Rattle.refusal_notes.specs.declared.cause.Cause.TheVariants.{Script};
ghost use Rattle.refusal_notes.specs.declared.spot.Spot.{Spot};
ghost use Rattle.program_notes.specs.Faults.{IsSpot};
ghost use Rattle.ending_notes.specs.Endings.{IsScriptNote};
ghost use Rattle.ending_notes.specs.Endings as endings;
ghost use Rattle.kept_files.specs.Kept.{kept_of};

use fault_scripts::{ScriptError, read_script};
use kept_files::KeptFile;
use orca_base::{NoMemory, Place, Refusal};
use refusal_notes::{Cause, ScriptRule, Spot, line_at, note};
use std::alloc::Global;

// The note on this line of a file's text.
fn line_note(
    alloc: Global,
    file: &KeptFile,
    rule: ScriptRule,
    line: u32,
) -> Result<Vec<u8>, NoMemory>
    ensures { IfOk result (λ v. (spot : Spot) × IsSpot spot (kept_of file.now).0 (kept_of file.now).1
        (record { line = line; column = 1 }) × (v.items ≡ note_of (Script rule) [] (Some spot))) }
{
    let spot = Spot {
        file: file.name.as_str(),
        text: file.text.as_slice(),
        at: Place { line, column: 1 },
    };
    note(alloc, Cause::Script { rule }, &[], Some(spot))
}

// Whether a line ends in a carriage return.
fn ends_in_return(line: &[u8]) -> bool
    ensures { result ≡ endings.ends_in_return line.now }
{
    match line.last() {
        Some(byte) => *byte == b'\r',
        None => false,
    }
}

// What is wrong with the line.
fn rule_of(error: ScriptError) -> ScriptRule
    ensures { result ≡ endings.rule_of error }
{
    match error {
        ScriptError::UnknownWord { .. } => ScriptRule::UnknownWord,
        ScriptError::BadNumber { .. } => ScriptRule::BadNumber,
    }
}

// The line that is wrong.
fn line_of(error: ScriptError) -> u32
    ensures { result ≡ endings.line_of error }
{
    match error {
        ScriptError::UnknownWord { line } | ScriptError::BadNumber { line } => line,
    }
}

// What is said of the line that is wrong.
fn script_rule(text: &[u8], error: ScriptError) -> ScriptRule
    ensures { result ≡ endings.script_rule text.now error }
{
    if ends_in_return(line_at(text, line_of(error))) {
        ScriptRule::CarriageReturn
    } else {
        rule_of(error)
    }
}

// The note on what is wrong with a file's text.
fn fault_note(alloc: Global, file: &KeptFile, error: ScriptError) -> Result<Vec<u8>, NoMemory>
    ensures { IfOk result (λ v. (spot : Spot) × IsSpot spot (kept_of file.now).0 (kept_of file.now).1
        (record { line = endings.line_of error; column = 1 })
        × (v.items ≡ note_of (Script (endings.script_rule (kept_of file.now).1 error)) [] (Some spot))) }
{
    let rule = script_rule(&file.text, error);
    line_note(alloc, file, rule, line_of(error))
}

/// Why the text of a file is no script, by its first line that is wrong; none where it is one.
pub fn script_note(alloc: Global, file: &KeptFile) -> Result<Option<Vec<u8>>, NoMemory>
    ensures told { IfOk result (λ o. IfSome o (λ v. IsScriptNote (kept_of file.now) v.items)) }
    ensures none { IfOk result (λ o. IfNone o ((said : List ScriptLine) × IsScript (kept_of file.now).1 said)) }
{
    match read_script(alloc, &file.text) {
        Ok(_script) => Ok(None),
        Err(Refusal::Because { cause }) => Ok(Some(fault_note(alloc, file, cause)?)),
        Err(Refusal::NoMemory) => Err(NoMemory),
    }
}
