//! The files of `replay`, with their texts.

ghost use Rattle.std.specs.Prelude.{◌≡◌, ◌⊎◌, ◌≤◌, ◌∷◌, ◌++◌, [], Ok, map, IfOk};
ghost use Rattle.orca_base.specs.Refusal.{IfBecause, MatchRefusal};
ghost use Rattle.orca_base.specs.declared.limits.TheConstants.{HISTORY_BYTES};
ghost use Rattle.orca_io.specs.Reading.{HasAsked, ReadSince, had};
ghost use Rattle.command_files.specs.Stopped.{StoppedAt};
ghost use Rattle.orca_front.specs.Sources.{file_of};
ghost use Rattle.command_files.specs.Replays.{HasRead, IsHistoryFault, IsReplayFault, IsUnreadable};
ghost use Rattle.command_files.specs.Sources.{IsRead};

use crate::reading::read_file;
use crate::replay_fault::ReplayFault;
use crate::source_files::sources;
use orca_base::{HISTORY_BYTES, Refusal, refuse};
use orca_front::SourceFile;
use orca_io::{Shelf, ShelfFault};
use std::alloc::Global;

/// What `replay` reads: the sources of its program, and the text of its history.
#[derive(Drop)]
pub struct ReplayFiles<'a> {
    pub sources: Vec<SourceFile<'a>>,
    pub history: Vec<u8>,
}

// The text of a history.
fn history_in<'a, F: Shelf>(
    alloc: Global,
    shelf: &mut F,
    file: &'a str,
) -> Result<Vec<u8>, Refusal<ReplayFault<'a>>>
    ensures read { IfOk result (λ text. IsRead (F.told shelf.old) HISTORY_BYTES (file.now, text.items)) }
    ensures refused { IfBecause result (IsHistoryFault (F.told shelf.old)
        (StoppedAt (F.faults shelf.old) (F.faults shelf.new) (F.reads shelf.old) (F.reads shelf.new)) file.now) }
    ensures quiet { (F.faults shelf.new ≡ F.faults shelf.old) ⊎ MatchRefusal result (λ _. ⊥) IsUnreadable }
    ensures same { F.told shelf.new ≡ F.told shelf.old }
    ensures later { F.faults shelf.old ≤ F.faults shelf.new }
    ensures had { IfOk result (λ text. ReadSince (F.reads shelf.old) (F.reads shelf.new) ((file.now, Ok text.items) ∷ [])) }
    ensures asked { HasAsked (F.may_fail shelf.old) (file.now ∷ []) (F.reads shelf.old) (F.reads shelf.new) }
    ensures may { F.may_fail shelf.new ≡ F.may_fail shelf.old }
{
    match read_file(alloc, shelf, file, HISTORY_BYTES) {
        Ok(text) => Ok(text),
        Err(ShelfFault::Absent) => refuse(ReplayFault::Absent { file }),
        Err(ShelfFault::TooLong) => refuse(ReplayFault::TooLong),
        Err(ShelfFault::Failed) => refuse(ReplayFault::Failed { file }),
        Err(ShelfFault::NoMemory) => Err(Refusal::NoMemory),
    }
}

/// The files of the program, in order, and behind them the history; or why the first that can't be read isn't. The shelf's count of faults
/// rises only where that is one that is there. It is asked for these files alone, in this order, up to that one.
pub fn replay_files<'a, F: Shelf>(
    alloc: Global,
    shelf: &mut F,
    history: &'a str,
    files: &[&'a str],
) -> Result<ReplayFiles<'a>, Refusal<ReplayFault<'a>>>
    ensures read { IfOk result (λ r.
        HasRead (F.told shelf.old) history.now (map (λ f. f.now) files.now) (map file_of r.sources.items) r.history.items) }
    ensures refused { IfBecause result (IsReplayFault (F.told shelf.old)
        (StoppedAt (F.faults shelf.old) (F.faults shelf.new) (F.reads shelf.old) (F.reads shelf.new))
        history.now (map (λ f. f.now) files.now)) }
    ensures quiet { (F.faults shelf.new ≡ F.faults shelf.old) ⊎ MatchRefusal result (λ _. ⊥) IsUnreadable }
    ensures same { F.told shelf.new ≡ F.told shelf.old }
    ensures later { F.faults shelf.old ≤ F.faults shelf.new }
    ensures asked { HasAsked (F.may_fail shelf.old) (map (λ f. f.now) files.now ++ history.now ∷ [])
        (F.reads shelf.old) (F.reads shelf.new) }
    ensures may { F.may_fail shelf.new ≡ F.may_fail shelf.old }
{
    let sources = match sources(alloc, shelf, files) {
        Ok(sources) => sources,
        Err(Refusal::Because { cause }) => return refuse(ReplayFault::Program { fault: cause }),
        Err(Refusal::NoMemory) => return Err(Refusal::NoMemory),
    };
    let history = match history_in(alloc, shelf, history) {
        Ok(history) => history,
        Err(refusal) => return Err(refusal),
    };
    Ok(ReplayFiles { sources, history })
}
