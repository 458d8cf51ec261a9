//! One file.

ghost use Rattle.std.specs.Prelude.{◌≡◌, ◌≤◌, ◌∷◌, [], IfErr, IfOk, IfSome, IsErrOf, Ok, vec_len};
ghost use Rattle.orca_io.specs.Causes.{counted};
ghost use Rattle.orca_io.specs.Files.{FitsContent, content_of};
ghost use Rattle.orca_io.specs.Reading.{HasAsked, ReadSince};
ghost use Rattle.command_files.specs.Stopped.{StoppedAt};

use orca_io::{Shelf, ShelfFault};
use std::alloc::Global;

/// All of a file's bytes, if there are at most `limit`: what the shelf answers, which is asked for this file alone, once.
pub fn read_file<F: Shelf>(
    alloc: Global,
    shelf: &mut F,
    name: &str,
    limit: u32,
) -> Result<Vec<u8>, ShelfFault>
    ensures reads { IfSome (F.told shelf.old) (λ files. FitsContent (λ v. v.items) (content_of files name.now) limit result) }
    ensures same { F.told shelf.new ≡ F.told shelf.old }
    ensures later { F.faults shelf.old ≤ F.faults shelf.new }
    ensures failed { IsErrOf result ShelfFault.Failed → F.faults shelf.new ≡ counted (F.faults shelf.old) }
    ensures quiet { (IsErrOf result ShelfFault.Failed → ⊥) → F.faults shelf.new ≡ F.faults shelf.old }
    ensures stopped { IfErr result (λ why.
        StoppedAt (F.faults shelf.old) (F.faults shelf.new) (F.reads shelf.old) (F.reads shelf.new) why name.now) }
    ensures within { IfOk result (λ v. vec_len v ≤ limit) }
    ensures had { IfOk result (λ v. ReadSince (F.reads shelf.old) (F.reads shelf.new) ((name.now, Ok v.items) ∷ [])) }
    ensures asked { HasAsked (F.may_fail shelf.old) (name.now ∷ []) (F.reads shelf.old) (F.reads shelf.new) }
    ensures may { F.may_fail shelf.new ≡ F.may_fail shelf.old }
{
    shelf.read_all(alloc, name, limit)
}
