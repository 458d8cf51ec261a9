//! The reads of a shelf. They exist only in proofs: a log takes no memory, and its methods do nothing as the program runs.

ghost use Rattle.std.specs.Prelude.{◌≡◌, ◌++◌, ◌∷◌, List, []};
ghost use Rattle.std.specs.Borrow.{ftrue};
ghost use Rattle.orca_io.specs.Reading.{FileRead, went};

use crate::shelf::ShelfFault;
use std::marker::Model;

/// What a shelf was asked to read so far, in order of time.
#[derive(Drop)]
pub(crate) struct ReadLog {
    pub(crate) ghost reads: { List FileRead },
}

impl Model for ReadLog {
    ghost also_owns = { λ _. ftrue };
}

// One read: the name of the file, and its bytes, or why there are none.
#[derive(Clone, Copy, Drop)]
pub(crate) struct Note<'a> {
    pub(crate) name: &'a str,
    pub(crate) answer: Result<&'a [u8], ShelfFault>,
}

impl ReadLog {
    ghost use Rattle.orca_io.specs.Noted.{noted};

    /// Nothing was read yet.
    pub(crate) fn new() -> ReadLog
        ensures { result.reads ≡ [] }
    {
        ReadLog {}
    }

    /// The same, and one read more.
    pub(crate) fn then(&self, _note: &Note<'_>) -> ReadLog
        ensures { result.reads ≡ noted self.now.reads _note.now }
    {
        ReadLog {}
    }

    /// Adds a read of this file with its answer.
    pub(crate) fn add(&mut self, name: &str, answer: &Result<Vec<u8>, ShelfFault>)
        ensures { self.new.reads ≡ self.old.reads ++ (name.now, went (λ v. v.items) answer.now) ∷ [] }
    {
        let answer = lent(answer);
        let note = Note { name, answer };
        *self = self.then(&note);
    }
}

// The answer of a read, lent.
fn lent<'a>(answer: &'a Result<Vec<u8>, ShelfFault>) -> Result<&'a [u8], ShelfFault>
    ensures { went (λ b. b.now) result ≡ went (λ v. v.items) answer.now }
{
    match answer {
        Ok(bytes) => Ok(bytes.as_slice()),
        Err(fault) => Err(*fault),
    }
}
