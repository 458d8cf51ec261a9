//! The text that says where the objects of sites are kept.

ghost use Rattle.std.specs.Prelude.{◌≡◌, ◌++◌, ◌∷◌, IfOk, OnOk, codes};
ghost use Rattle.std.specs.Fmt.{decimal};
ghost use Rattle.replica_choice.specs.Printed as rules;

use orca_base::{Choice, NoMemory};
use site_estimates::Estimate;
use std::alloc::Global;

// The word of a choice.
fn choice_word(choice: Choice) -> &'static [u8]
    ensures { result.now ≡ rules.choice_word choice }
{
    match choice {
        Choice::Replicated => b"replicated",
        Choice::Single => b"single",
    }
}

// Adds a number in decimal behind these bytes.
fn put_number(out: &mut Vec<u8>, number: u64) -> Result<(), NoMemory>
    ensures { OnOk result (out.new.items ≡ out.old.items ++ decimal number) }
{
    let digits = number.to_string(*out.allocator())?;
    out.extend_from_slice(digits.as_bytes())?;
    Ok(())
}

// Adds the names of a site.
fn put_names(out: &mut Vec<u8>, estimate: &Estimate) -> Result<(), NoMemory>
    ensures { OnOk result (out.new.items ≡ out.old.items ++ (estimate.now.process ++ 32 ∷ estimate.now.variable)) }
{
    out.extend_from_slice(estimate.process.as_bytes())?;
    out.push(b' ')?;
    out.extend_from_slice(estimate.variable.as_bytes())?;
    Ok(())
}

// Adds the numbers of a site.
fn put_counts(out: &mut Vec<u8>, reads: u64, writes: u64) -> Result<(), NoMemory>
    ensures { OnOk result (out.new.items ≡ out.old.items ++ (codes " reads " ++ (decimal reads ++ (codes " writes " ++ decimal writes)))) }
{
    out.extend_from_slice(b" reads ")?;
    put_number(out, reads)?;
    out.extend_from_slice(b" writes ")?;
    put_number(out, writes)
}

// Adds the line of a site.
fn put_line(out: &mut Vec<u8>, estimate: &Estimate, choice: Choice) -> Result<(), NoMemory>
    ensures { OnOk result (out.new.items ≡ out.old.items ++ rules.site_line estimate.now choice) }
{
    put_names(out, estimate)?;
    put_counts(out, estimate.reads, estimate.writes)?;
    out.push(b' ')?;
    out.extend_from_slice(choice_word(choice))?;
    out.push(b'\n')?;
    Ok(())
}

/// A line for each of these sites, with what was chosen for it, as far as both lists go (docs/FORMATS.md, Choices). The only error is want
/// of memory.
pub fn choice_text(
    alloc: Global,
    estimates: &[Estimate],
    choices: &[Choice],
) -> Result<Vec<u8>, NoMemory>
    ensures { IfOk result (λ v. v.items ≡ rules.choice_text estimates.now choices.now) }
{
    let mut out = Vec::new(alloc);
    'sites: for (estimate, choice) in estimates.iter().zip(choices) {
        put_line(&mut out, estimate, *choice)?;
    }
    Ok(out)
}
