//! The note on an ending.

ghost use Rattle.std.specs.Prelude.{◌≡◌, ◌⊎◌, ◌≤◌, [], List, None, Some, IfNone, IfOk, IfSome, length, map, string_bytes, take};
ghost use Rattle.orca_io.specs.Files.{File};
ghost use Rattle.link_rules.specs.Units.{Source};
ghost use Rattle.accepted_law.specs.Limits.{IsWithinLimits};
ghost use Rattle.orca_front.specs.Sources.{IsAccepted, file_of};
ghost use Rattle.net_rules.specs.declared.line.ScriptLine.{ScriptLine};
ghost use Rattle.fault_scripts.specs.Says.{IsScript};
ghost use Rattle.refusal_notes.specs.Notes.{note_of};
ghost use Rattle.refusal_notes.specs.declared.cause.Cause.{Cause};
ghost use Rattle.kept_files.specs.Kept.{kept_of};
ghost use Rattle.ending_notes.specs.Endings.{IsEndingNote, IsJudged, IsLast, IsPlainCause, IsScriptNote, IsUnowed, program_files};
ghost use Rattle.ending_notes.specs.Programs.{IsProgramNote};

use crate::named::{NamedFiles, files_named};
use crate::programs::{limit_note, program_note};
use crate::scripts::script_note;
use crate::usage::usage_note;
use command_output::{
    ABSENT, BAD_SCRIPT, BLOCKED, LIMIT, NO_GROUP, OUT_OF_EVENTS, OUT_OF_TURNS, READ_FAULT, REFUSED,
    USAGE,
};
use kept_files::KeptFile;
use orca_base::{MODULES, NoMemory, What};
use orca_front::SourceFile;
use refusal_notes::{Cause, note};
use std::alloc::Global;

// So many files from the front, or all.
fn front(files: &[KeptFile], count: usize) -> &[KeptFile]
    ensures { result.now ≡ take count files.now }
{
    if count < files.len() {
        &files[..count]
    } else {
        files
    }
}

// A file as a source.
fn source<'a>(alloc: Global, file: &'a KeptFile) -> Result<SourceFile<'a>, NoMemory>
    ensures { IfOk result (λ s. file_of s ≡ kept_of file.now) }
{
    let text = Vec::from_slice(alloc, file.text.as_slice())?;
    Ok(SourceFile {
        name: file.name.as_str(),
        text,
    })
}

// Files as sources.
fn sources<'a>(alloc: Global, files: &'a [KeptFile]) -> Result<Vec<SourceFile<'a>>, NoMemory>
    ensures { IfOk result (λ s. map file_of s.items ≡ map kept_of files.now) }
{
    let mut sources = Vec::new(alloc);
    'files: for file in files {
        sources.push(source(alloc, file)?)?;
    }
    Ok(sources)
}

// Of what there are too many bytes, or files, where not all that is named was kept.
fn unread_limit(named: NamedFiles, kept: usize) -> Option<What>
    ensures { IfNone result (named.files ≤ kept) }
{
    if named.files > MODULES as usize {
        return Some(What::Modules);
    }
    if kept < named.files {
        return Some(What::SourceBytes);
    }
    if named.script && kept == named.files {
        return Some(What::ScriptBytes);
    }
    None
}

// The note on a program that is refused, of so many texts from the front.
fn refused_note(
    alloc: Global,
    files: &[KeptFile],
    count: usize,
) -> Result<Option<Vec<u8>>, NoMemory>
    ensures told { IfOk result (λ o. IfSome o (λ v. IsProgramNote (take count (map kept_of files.now)) v.items)) }
    ensures none { IfOk result (λ o. IfNone o ((units : List Source) × IsAccepted (take count (map kept_of files.now)) units × IsWithinLimits units)) }
{
    program_note(alloc, &sources(alloc, front(files, count))?)
}

// The note on a limit that was passed.
fn limits_note(
    alloc: Global,
    words: &[String],
    files: &[KeptFile],
    named: NamedFiles,
) -> Result<Option<Vec<u8>>, NoMemory>
    requires { program_files (map string_bytes words.now) ≡ Some named.files }
    ensures told { IfOk result (λ o. IfSome o (λ v. IsEndingNote LIMIT (map string_bytes words.now) (map kept_of files.now) v.items)) }
    ensures none { IfOk result (λ o. IfNone o (
        (units : List Source) × IsAccepted (take named.files (map kept_of files.now)) units × IsWithinLimits units)) }
{
    if let Some(what) = unread_limit(named, files.len()) {
        return Ok(Some(limit_note(alloc, what)?));
    }
    match refused_note(alloc, files, named.files)? {
        Some(note) => Ok(Some(note)),
        None if named.history => Ok(Some(limit_note(alloc, What::HistoryBytes)?)),
        None => Ok(None),
    }
}

// The note on an ending for which the texts of the program are judged once more.
fn judged_note(
    alloc: Global,
    status: u8,
    words: &[String],
    files: &[KeptFile],
) -> Result<Option<Vec<u8>>, NoMemory>
    requires { (status ≡ REFUSED) ⊎ (status ≡ LIMIT) }
    ensures told { IfOk result (λ o. IfSome o (λ v. IsEndingNote status (map string_bytes words.now) (map kept_of files.now) v.items)) }
    ensures none { IfOk result (λ o. IfNone o (IsJudged (map string_bytes words.now) (map kept_of files.now))) }
{
    let Some(named) = files_named(alloc, words)? else {
        return Ok(None);
    };
    if status == LIMIT {
        return limits_note(alloc, words, files, named);
    }
    if files.len() < named.files {
        return Ok(None);
    }
    refused_note(alloc, files, named.files)
}

// The note on the last text, which is no script.
fn last_note(alloc: Global, files: &[KeptFile]) -> Result<Option<Vec<u8>>, NoMemory>
    ensures told { IfOk result (λ o. IfSome o (λ v. (file : File) × IsLast (map kept_of files.now) file × IsScriptNote file v.items)) }
    ensures none { IfOk result (λ o. IfNone o (
        (file : File) → IsLast (map kept_of files.now) file → (said : List ScriptLine) × IsScript file.1 said)) }
{
    match files.last() {
        Some(file) => script_note(alloc, file),
        None => Ok(None),
    }
}

// The cause that a status tells by itself.
fn plain_cause(status: u8) -> Option<Cause>
    ensures some { IfSome result (IsPlainCause status) }
    ensures none { IfNone result ((cause : Cause) → IsPlainCause status cause → ⊥) }
{
    match status {
        ABSENT => Some(Cause::Absent),
        READ_FAULT => Some(Cause::Unreadable),
        BLOCKED => Some(Cause::Blocked),
        NO_GROUP => Some(Cause::NoGroup),
        OUT_OF_EVENTS => Some(Cause::OutOfEvents),
        OUT_OF_TURNS => Some(Cause::OutOfTurns),
        _ => None,
    }
}

// The note on such a cause.
fn plain_note(alloc: Global, status: u8) -> Result<Option<Vec<u8>>, NoMemory>
    ensures told { IfOk result (λ o. IfSome o (λ v. (cause : Cause) × IsPlainCause status cause × (v.items ≡ note_of cause [] None))) }
    ensures none { IfOk result (λ o. IfNone o ((cause : Cause) → IsPlainCause status cause → ⊥)) }
{
    match plain_cause(status) {
        Some(cause) => Ok(Some(note(alloc, cause, &[], None)?)),
        None => Ok(None),
    }
}

/// The note on an ending with this status, of the command that the words are, which read these texts, in this order; none where none is owed
/// (docs/FORMATS.md, Notes). The texts are all that were read, but for those that are longer than one of a program may be.
pub fn ending_note(
    alloc: Global,
    status: u8,
    words: &[String],
    files: &[KeptFile],
) -> Result<Option<Vec<u8>>, NoMemory>
    // What the note says is so.
    ensures told { IfOk result (λ o. IfSome o (λ v. IsEndingNote status (map string_bytes words.now) (map kept_of files.now) v.items)) }

    // There is none only where none is owed.
    ensures owed { IfOk result (λ o. IfNone o (IsUnowed status (map string_bytes words.now) (map kept_of files.now))) }
{
    match status {
        USAGE => Ok(Some(usage_note(alloc, words)?)),
        REFUSED | LIMIT => judged_note(alloc, status, words, files),
        BAD_SCRIPT => last_note(alloc, files),
        _ => plain_note(alloc, status),
    }
}
