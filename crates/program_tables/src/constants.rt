//! The values of constants.

ghost use Rattle.std.specs.Prelude.{◌≡◌, ℕ, ℤ, List, IfOk, pos, slice_get, unwrap_or};
ghost use Rattle.link_rules.specs.Units.{Source};
ghost use Rattle.type_rules.specs.declared.names.Chain.TheVariants.{EndsAt};
ghost use Rattle.value_core.specs.Datum as datum;
ghost use Rattle.value_core.specs.Integers.{IsWord};
ghost use Rattle.meaning_rules.specs.Designators.{constant};
ghost use Rattle.type_forms.specs.Chains.{AreChains};
ghost use Rattle.program_tables.specs.Listed.{AreConstants, AreWords};

use orca_base::NoMemory;
use std::alloc::Global;
use type_rules::Chain;

// The number that a chain of constants ends at, which has 64 bits, or 0 where it ends at none.
fn value_of(chain: &Chain) -> i64
    ensures { ((z : ℤ) → chain.now ≡ EndsAt z → IsWord z) → datum.int result ≡ constant chain.now }
{
    match chain {
        Chain::EndsAt { value } => i64::try_from(*value).unwrap_or(0),
        Chain::GoesRound | Chain::Fails => 0,
    }
}

/// The value of each constant by its number, and 0 for what is no constant. Constants have 64 bits.
pub fn constants_of(alloc: Global, chains: &[Chain]) -> Result<Vec<i64>, NoMemory>
    ensures { (us : List Source) → AreChains us chains.now → AreWords us → IfOk result (λ v. AreConstants us v.items) }
{
    let mut all = Vec::new(alloc);
    'chains: for chain in chains {
        let value = value_of(chain);
        all.push(value)?;
    }
    Ok(all)
}

/// The value of the constant with this number, or 0 where there is none.
pub fn value_at(constants: &[i64], number: usize) -> i64
    ensures { result ≡ unwrap_or (slice_get constants.now number) (pos 0) }
{
    match constants.get(number) {
        None => 0,
        Some(value) => *value,
    }
}
