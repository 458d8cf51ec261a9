//! The shelf.

ghost use Rattle.std.specs.Prelude.{◌≡◌, ◌++◌, ◌∷◌, [], IfSome, OnOk, false, map};
ghost use Rattle.orca_io.specs.Reading.{went};
ghost use Rattle.kept_files.specs.Kept.{kept_of, short_texts};

use crate::file::KeptFile;
use orca_base::{NoMemory, SOURCE_BYTES};
use orca_io::{Shelf, ShelfFault};
use std::alloc::Global;

/// A shelf that keeps the texts which it gave.
pub trait KeepsTexts: Shelf {
    /// The texts that it gave so far, in order of time, with the names of their files, but for those that are longer than one of a program may
    /// be; none where memory lacked for one of them.
    fn files(&self) -> Option<&[KeptFile]>
        ensures { IfSome result (λ files. map kept_of files.now ≡ short_texts (Self.reads self.now)) };
}

/// A shelf with the texts that it gave so far.
#[derive(Drop)]
pub struct KeptShelf<F: Shelf + Drop> {
    shelf: F,
    files: Vec<KeptFile>,
    lacked: bool,
    ghost kept: { lacked ≡ false → map kept_of files.items ≡ short_texts (F.reads shelf) },
}

// Adds the text of a read, where it gave one that is as short as one of a program. Where memory lacks nothing is added.
fn keep(
    alloc: Global,
    files: &mut Vec<KeptFile>,
    name: &str,
    answer: &Result<Vec<u8>, ShelfFault>,
) -> Result<(), NoMemory>
    ensures { OnOk result (map kept_of files.new.items ≡
        map kept_of files.old.items ++ short_texts ((name.now, went (λ v. v.items) answer.now) ∷ [])) }
{
    let Ok(text) = answer else {
        return Ok(());
    };
    if text.len() > SOURCE_BYTES as usize {
        return Ok(());
    }
    let name = String::from_str(alloc, name)?;
    let text = Vec::from_slice(alloc, text)?;
    files.push(KeptFile { name, text })?;
    Ok(())
}

impl<F: Shelf + Drop> KeptShelf<F> {
    /// This shelf, which gave nothing yet.
    pub fn new(alloc: Global, shelf: F) -> KeptShelf<F>
        requires { F.reads shelf ≡ [] }
        ensures told { ⟦<KeptShelf<F> as Shelf>⟧.told result ≡ F.told shelf }
        ensures faults { ⟦<KeptShelf<F> as Shelf>⟧.faults result ≡ F.faults shelf }
        ensures reads { ⟦<KeptShelf<F> as Shelf>⟧.reads result ≡ [] }
        ensures may { ⟦<KeptShelf<F> as Shelf>⟧.may_fail result ≡ F.may_fail shelf }
    {
        KeptShelf {
            shelf,
            files: Vec::new(alloc),
            lacked: false,
        }
    }
}

impl<F: Shelf + Drop> Shelf for KeptShelf<F> {
    ghost told = { λ s. F.told s.shelf };

    ghost faults = { λ s. F.faults s.shelf };

    ghost reads = { λ s. F.reads s.shelf };

    ghost may_fail = { λ s. F.may_fail s.shelf };

    fn read_all(&mut self, alloc: Global, name: &str, limit: u32) -> Result<Vec<u8>, ShelfFault> {
        let answer = self.shelf.read_all(alloc, name, limit);
        if keep(alloc, &mut self.files, name, &answer).is_err() {
            self.lacked = true;
        }
        answer
    }
}

impl<F: Shelf + Drop> KeepsTexts for KeptShelf<F> {
    fn files(&self) -> Option<&[KeptFile]> {
        if self.lacked {
            return None;
        }
        Some(&self.files)
    }
}
