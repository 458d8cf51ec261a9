//! The files of a program, with their texts.

ghost use Rattle.std.specs.Prelude.{◌≡◌, ◌⊎◌, ◌≤◌, ◌∷◌, [], map, IfOk};
ghost use Rattle.orca_base.specs.Refusal.{IfBecause, MatchRefusal};
ghost use Rattle.orca_io.specs.Reading.{HasAsked, ReadSince, had};
ghost use Rattle.command_files.specs.Stopped.{StoppedAt};
ghost use Rattle.orca_front.specs.Sources.{file_of};
ghost use Rattle.command_files.specs.Loaded.{IsFailed, IsLoadFault, Reads};
ghost use Rattle.command_files.specs.Sources.{AreRead};

use crate::load_fault::LoadFault;
use crate::reading::read_file;
use orca_base::{MODULES, Refusal, SOURCE_BYTES, refuse};
use orca_front::SourceFile;
use orca_io::{Shelf, ShelfFault};
use std::alloc::Global;

// A file with its text.
fn source<'a, F: Shelf>(
    alloc: Global,
    shelf: &mut F,
    name: &'a str,
) -> Result<SourceFile<'a>, Refusal<LoadFault<'a>>>
    ensures reads { Reads (F.told shelf.old)
        (StoppedAt (F.faults shelf.old) (F.faults shelf.new) (F.reads shelf.old) (F.reads shelf.new)) name.now result }
    ensures same { F.told shelf.new ≡ F.told shelf.old }
    ensures later { F.faults shelf.old ≤ F.faults shelf.new }
    ensures quiet { (F.faults shelf.new ≡ F.faults shelf.old) ⊎ MatchRefusal result (λ _. ⊥) IsFailed }
    ensures had { IfOk result (λ s. ReadSince (F.reads shelf.old) (F.reads shelf.new) (had (file_of s) ∷ [])) }
    ensures asked { HasAsked (F.may_fail shelf.old) (name.now ∷ []) (F.reads shelf.old) (F.reads shelf.new) }
    ensures may { F.may_fail shelf.new ≡ F.may_fail shelf.old }
{
    match read_file(alloc, shelf, name, SOURCE_BYTES) {
        Ok(text) => Ok(SourceFile { name, text }),
        Err(ShelfFault::Absent) => refuse(LoadFault::Absent { file: name }),
        Err(ShelfFault::TooLong) => refuse(LoadFault::TooLong { file: name }),
        Err(ShelfFault::Failed) => refuse(LoadFault::Failed { file: name }),
        Err(ShelfFault::NoMemory) => Err(Refusal::NoMemory),
    }
}

/// The files of these names with their texts, in order, or why the first that can't be read isn't. The shelf's count of faults rises only
/// where that is one that is there. It is asked for these files alone, in their order, up to that one.
pub fn sources<'a, F: Shelf>(
    alloc: Global,
    shelf: &mut F,
    files: &[&'a str],
) -> Result<Vec<SourceFile<'a>>, Refusal<LoadFault<'a>>>
    ensures read { IfOk result (λ s. AreRead (F.told shelf.old) (map (λ f. f.now) files.now) (map file_of s.items)) }
    ensures refused { IfBecause result (IsLoadFault (F.told shelf.old)
        (StoppedAt (F.faults shelf.old) (F.faults shelf.new) (F.reads shelf.old) (F.reads shelf.new))
        (map (λ f. f.now) files.now)) }
    ensures quiet { (F.faults shelf.new ≡ F.faults shelf.old) ⊎ MatchRefusal result (λ _. ⊥) IsFailed }
    ensures same { F.told shelf.new ≡ F.told shelf.old }
    ensures later { F.faults shelf.old ≤ F.faults shelf.new }
    ensures had { IfOk result (λ s. ReadSince (F.reads shelf.old) (F.reads shelf.new) (map had (map file_of s.items))) }
    ensures asked { HasAsked (F.may_fail shelf.old) (map (λ f. f.now) files.now) (F.reads shelf.old) (F.reads shelf.new) }
    ensures may { F.may_fail shelf.new ≡ F.may_fail shelf.old }
{
    if files.len() > MODULES as usize {
        return refuse(LoadFault::TooMany);
    }
    let mut sources = Vec::new(alloc);
    'files: for file in files {
        match source(alloc, shelf, file) {
            Ok(source) => sources.push(source)?,
            Err(refusal) => return Err(refusal),
        }
    }
    Ok(sources)
}
