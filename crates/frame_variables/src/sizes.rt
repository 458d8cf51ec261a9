//! Sizes, which limit what variables hold and calls pass.

ghost use Rattle.std.specs.Prelude.{◌≡◌, ◌≤◌, ◌+◌, Ok, Err, Some, if◌then◌else◌, map, nat_le, slice_get};
ghost use Rattle.orca_base.specs.declared.fault.FaultKind.TheVariants.{TooLarge};
ghost use Rattle.orca_base.specs.declared.limits.TheConstants.{VALUE_SIZE};
ghost use Rattle.value_core.specs.Datum.{Datum, data_of};
ghost use Rattle.value_core.specs.Size.{size_of, size_of_all};
ghost use Rattle.value_core.specs.View.{datum_of};
ghost use Rattle.value_ops.specs.Sizes.{told_size};
ghost use Rattle.meaning_rules.specs.Calls.{values_in};
ghost use Rattle.meaning_rules.specs.Operators as rules;
ghost use Rattle.meaning_rules.specs.States.{State, gives};
ghost use Rattle.frame_variables.specs.Bounded.{IsWithin};
ghost use Rattle.frame_variables.specs.Gives.{Gives, passed_of};

use crate::frame::Frame;
use crate::steps::Passed;
use crate::stop::Stop;
use orca_base::{FaultKind, VALUE_SIZE};
use value_core::{Parts, Value};
use value_ops::{size_of, size_of_all};

/// Nothing where a size that was told is no greater than that of a variable.
///
/// # Errors
/// `TooLarge` where it is.
pub fn within(size: u32) -> Result<(), FaultKind>
    ensures { result ≡ (if nat_le size VALUE_SIZE then Ok tt else Err TooLarge) }
{
    if size <= VALUE_SIZE {
        Ok(())
    } else {
        Err(FaultKind::TooLarge)
    }
}

/// Whether a value is no larger than a variable may hold. It counts at most 10,001 parts.
///
/// # Errors
/// `TooLarge` where it isn't.
pub fn fitting(value: &Value) -> Result<(), Stop>
    ensures { (s : State) → Gives (λ _. datum_of value.now) result s (gives (rules.fitting (datum_of value.now)) s) }
{
    Ok(within(size_of(value))?)
}

/// The size of a value, or 10,001 where it is greater; it is counted where a bound is known to which it is to be added, and else 0.
pub fn size_beside(bound: u32, value: &Value) -> u32
    ensures size { bound ≤ VALUE_SIZE → result ≡ told_size (size_of (datum_of value.now)) }
    ensures few { result ≤ VALUE_SIZE + 1 }
{
    if bound <= VALUE_SIZE {
        size_of(value)
    } else {
        0
    }
}

/// An upper bound of the size of a variable, by which it is told whether it is no larger than one may be: the one that is given, if it
/// tells that, and else what is counted.
pub fn told_by(bound: u32, slot: usize, frame: &Frame<'_>) -> u32
    requires { (v : Datum) → slice_get frame.now slot ≡ Some v → IsWithin bound v }
    ensures within { (v : Datum) → slice_get frame.now slot ≡ Some v → IsWithin result v }
    ensures tells { (v : Datum) → slice_get frame.now slot ≡ Some v → nat_le result VALUE_SIZE ≡ nat_le (size_of v) VALUE_SIZE }
{
    if bound <= VALUE_SIZE {
        return bound;
    }
    match frame.get(slot) {
        Some(value) => size_of(value),
        None => 0,
    }
}

/// Whether the arguments of one call or fork are no larger together. It counts at most 10,001 parts.
///
/// # Errors
/// `TooLarge` where they aren't.
pub fn fitting_all(values: &Parts) -> Result<(), Stop>
    ensures { (s : State) → Gives (λ _. values.now) result s (gives (rules.fitting_all values.now) s) }
{
    Ok(within(size_of_all(values))?)
}

// The sizes of the values that are passed, together, or more than a variable may hold where they are.
fn size_of_passed(passed: &[Passed]) -> u32
    ensures { nat_le result VALUE_SIZE ≡ nat_le (size_of_all (data_of (values_in (map passed_of passed.now)))) VALUE_SIZE }
{
    let mut size = 0u32;
    'passed: for one in passed {
        if let Passed::Given { value } = one {
            size = size.saturating_add(size_of(value));
        }
    }
    size
}

/// Whether what is passed to a function is no larger together.
///
/// # Errors
/// `TooLarge` where it isn't.
pub fn fitting_passed(passed: &[Passed]) -> Result<(), Stop>
    ensures { (s : State) → Gives (λ _. data_of (values_in (map passed_of passed.now))) result s
        (gives (rules.fitting_all (data_of (values_in (map passed_of passed.now)))) s) }
{
    Ok(within(size_of_passed(passed))?)
}
