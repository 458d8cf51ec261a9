//! The script of a run.

ghost use Rattle.std.specs.Prelude.{◌≡◌, ◌⊎◌, ◌≤◌, ◌<◌, ◌-◌, ◌^◌, ◌∷◌, [], IfOk, MatchOption, Some, length, option_map};
ghost use Rattle.fault_scripts.specs.Says.{IsScript};
ghost use Rattle.orca_base.specs.Refusal.{IfBecause, MatchRefusal};
ghost use Rattle.orca_io.specs.Reading.{HasAsked};
ghost use Rattle.command_files.specs.Stopped.{StoppedAt};
ghost use Rattle.orca_answers.specs.Job.{script_names};
ghost use Rattle.orca_answers.specs.Scripts.{IsScriptFault, IsScriptOf, IsScriptSince, IsUnreadable, IsWrong, script_fault_line, script_status};

use crate::lines::script_line;
use command_files::{absent_line, read_file, unread_line};
use command_output::{ABSENT, BAD_SCRIPT, LIMIT, READ_FAULT};
use fault_scripts::{Script, ScriptError, read_script};
use orca_base::{NoMemory, Refusal, SCRIPT_BYTES, refuse};
use orca_front::limit_line;
use orca_io::{Shelf, ShelfFault};
use std::alloc::Global;

/// Why the script of a run wasn't had.
#[derive(Clone, Copy, Debug)]
pub enum ScriptFault<'a> {
    /// There is no such file.
    Absent { file: &'a str },
    /// It is longer than a script may be.
    TooLong { file: &'a str },
    /// It can't be read.
    Failed { file: &'a str },
    /// Its text is no script.
    Bad { error: ScriptError },
}

impl ScriptFault<'_> {
    /// The status with which the program ends for it.
    pub fn status(self) -> u8
        ensures { result ≡ script_status self.entry }
    {
        match self {
            ScriptFault::Absent { .. } => ABSENT,
            ScriptFault::TooLong { .. } => LIMIT,
            ScriptFault::Failed { .. } => READ_FAULT,
            ScriptFault::Bad { .. } => BAD_SCRIPT,
        }
    }

    /// The line that tells it.
    pub fn line(self, alloc: Global) -> Result<Vec<u8>, NoMemory>
        ensures { IfOk result (λ line. line.items ≡ script_fault_line self.entry) }
    {
        match self {
            ScriptFault::Absent { file } => absent_line(alloc, file),
            ScriptFault::TooLong { .. } => limit_line(alloc, "script bytes", SCRIPT_BYTES),
            ScriptFault::Failed { file } => unread_line(alloc, file),
            ScriptFault::Bad { error } => script_line(alloc, error),
        }
    }
}

/// The script in a file, or the empty one where none is named; or why there is none. The shelf's count of faults rises only where the file
/// is there and can't be read. It is asked for that file alone.
pub fn script_of<'a, F: Shelf>(
    alloc: Global,
    shelf: &mut F,
    file: Option<&'a str>,
) -> Result<Script, Refusal<ScriptFault<'a>>>
    ensures script { IfOk result (IsScriptOf (F.told shelf.old) (option_map (λ f. f.now) file.entry)) }
    ensures had { IfOk result (IsScriptSince (F.told shelf.old) (option_map (λ f. f.now) file.entry)
        (F.reads shelf.old) (F.reads shelf.new)) }
    ensures refused { IfBecause result (λ fault. MatchOption (option_map (λ f. f.now) file.entry) ⊥ (λ name.
        IsScriptFault (F.told shelf.old) (F.reads shelf.old) (F.reads shelf.new)
        (StoppedAt (F.faults shelf.old) (F.faults shelf.new) (F.reads shelf.old) (F.reads shelf.new)) name fault)) }
    ensures quiet { (F.faults shelf.new ≡ F.faults shelf.old) ⊎ MatchRefusal result (λ _. ⊥) IsUnreadable }
    ensures same { F.told shelf.new ≡ F.told shelf.old }
    ensures later { F.faults shelf.old ≤ F.faults shelf.new }
    ensures asked { HasAsked (F.may_fail shelf.old) (script_names (option_map (λ f. f.now) file.entry))
        (F.reads shelf.old) (F.reads shelf.new) }
    ensures may { F.may_fail shelf.new ≡ F.may_fail shelf.old }
{
    match file {
        None => Ok(Script::empty(alloc)),
        Some(file) => script_in(alloc, shelf, file),
    }
}

// The script in a file, or why there is none.
fn script_in<'a, F: Shelf>(
    alloc: Global,
    shelf: &mut F,
    file: &'a str,
) -> Result<Script, Refusal<ScriptFault<'a>>>
    ensures script { IfOk result (IsScriptOf (F.told shelf.old) (Some file.now)) }
    ensures had { IfOk result (IsScriptSince (F.told shelf.old) (Some file.now) (F.reads shelf.old) (F.reads shelf.new)) }
    ensures refused { IfBecause result (IsScriptFault (F.told shelf.old) (F.reads shelf.old) (F.reads shelf.new)
        (StoppedAt (F.faults shelf.old) (F.faults shelf.new) (F.reads shelf.old) (F.reads shelf.new)) file.now) }
    ensures quiet { (F.faults shelf.new ≡ F.faults shelf.old) ⊎ MatchRefusal result (λ _. ⊥) IsUnreadable }
    ensures same { F.told shelf.new ≡ F.told shelf.old }
    ensures later { F.faults shelf.old ≤ F.faults shelf.new }
    ensures asked { HasAsked (F.may_fail shelf.old) (file.now ∷ []) (F.reads shelf.old) (F.reads shelf.new) }
    ensures may { F.may_fail shelf.new ≡ F.may_fail shelf.old }
{
    match read_file(alloc, shelf, file, SCRIPT_BYTES) {
        Ok(text) => script_said(alloc, &text),
        Err(ShelfFault::Absent) => refuse(ScriptFault::Absent { file }),
        Err(ShelfFault::TooLong) => refuse(ScriptFault::TooLong { file }),
        Err(ShelfFault::Failed) => refuse(ScriptFault::Failed { file }),
        Err(ShelfFault::NoMemory) => Err(Refusal::NoMemory),
    }
}

// The script that a text is, or the first line that is wrong.
fn script_said<'a>(alloc: Global, text: &[u8]) -> Result<Script, Refusal<ScriptFault<'a>>>
    requires { length text.now < 2 ^ 32 - 1 }
    ensures script { IfOk result (IsScript text.now) }
    ensures refused { IfBecause result (IsWrong text.now) }
{
    match read_script(alloc, text) {
        Ok(script) => Ok(script),
        Err(Refusal::Because { cause }) => refuse(ScriptFault::Bad { error: cause }),
        Err(Refusal::NoMemory) => Err(Refusal::NoMemory),
    }
}
