//! That the generated program is accepted, and rows of it.

ghost use Rattle.std.specs.Prelude.{◌≡◌, ℕ, Some, codes, slice_get};
ghost use Rattle.generated_program.specs.Accepted.{IsGenerated};
ghost use Rattle.generated_program.specs.Program.{program_lines, rounds_of, workers_of};

/// For each number the text is an accepted program; it does nothing.
pub fn program_law()
    ensures { (number : ℕ) → IsGenerated number }
{}

/// The programs of 42 and of the greatest number, in part.
pub fn program_rows()
    ensures workers { workers_of 42 ≡ 5 }
    ensures rounds { rounds_of 42 ≡ 142 }
    ensures most_workers { workers_of 9999999999999999999 ≡ 7 }
    ensures most_rounds { rounds_of 9999999999999999999 ≡ 199 }
    ensures adds { slice_get (program_lines 42) 22 ≡ Some (codes "  for i in 1..142 do t$Add(j * i); s := t$Value(); od;") }
    ensures forks { slice_get (program_lines 42) 28 ≡ Some (codes "  for j in 1..5 do fork Worker(T, P, j) on j; od;") }
    ensures takes { slice_get (program_lines 42) 29 ≡ Some (codes "  for j in 1..5 do s := P$Take(); od;") }
{}
