//! The limits.

ghost use Rattle.std.specs.Prelude.{◌≡◌, map, IfOk, OnOk};
ghost use Rattle.std.specs.List.{sum_by};
ghost use Rattle.orca_base.specs.Refusal.{IfBecause};
ghost use Rattle.link_rules.specs.Units.{source};
ghost use Rattle.accepted_law.specs.Limits.{IsWithinLimits, words_in};
ghost use Rattle.program_limits.specs.Passed.{Passes};

use crate::counts::both;
use crate::names::names_declared;
use crate::parameters::have_few;
use link_rules::NamedUnit;
use orca_base::{CODE_LENGTH, NoMemory, Refusal, refuse};
use orca_modules::Program;
use orca_tree::words;
use std::alloc::Global;

/// How long code gets for each token and each declared name.
const LENGTH_OF_WORD: u64 = 20;

/// A limit that a program passes.
#[derive(Clone, Copy, Debug, PartialEq, Eq)]
pub enum PassedLimit {
    /// That of parameters of one function, process or operation. It is told as the limit of nesting, with the number 255.
    Parameters,
    /// That of the code's length, at 20 for each token and declared name.
    CodeLength,
}

// The tokens and the declared names of a unit.
fn words_of(alloc: Global, unit: &NamedUnit) -> Result<u64, NoMemory>
    ensures { IfOk result (λ n. n ≡ words_in (source unit.now)) }
{
    let tokens = words(alloc, &unit.unit)?.len() as u64;
    let names = names_declared(&unit.unit.declarations)?;
    both(tokens, names)
}

// Those of units.
fn words_of_all(alloc: Global, units: &[NamedUnit]) -> Result<u64, NoMemory>
    ensures { IfOk result (λ n. n ≡ sum_by words_in (map source units.now)) }
{
    let mut count = 0;
    'units: for unit in units {
        let own = words_of(alloc, unit)?;
        count = both(count, own)?;
    }
    Ok(count)
}

/// Whether a program keeps within the limits on parameters and on its tokens and declared names together, or else which it passes, that of
/// parameters first (docs/LANGUAGE.md, Typing). Want of memory is the only other error. The cost is linear in the program's text.
pub fn within_limits(alloc: Global, program: &Program) -> Result<(), Refusal<PassedLimit>>
    ensures within { OnOk result (IsWithinLimits (map source program.now.units.items)) }

    // The limit that is passed.
    ensures passed { IfBecause result (Passes (map source program.now.units.items)) }
{
    if !have_few(alloc, &program.units)? {
        return refuse(PassedLimit::Parameters);
    }
    let count = words_of_all(alloc, &program.units)?;
    if count > CODE_LENGTH as u64 / LENGTH_OF_WORD {
        return refuse(PassedLimit::CodeLength);
    }
    Ok(())
}
