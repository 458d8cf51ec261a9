//! Integers of 64 bits.

ghost use Rattle.std.specs.Prelude.{◌≡◌};
ghost use Rattle.value_ops.specs.Integers.{sum_of, difference_of, product_of, quotient_of, remainder_of, negative_of};

use orca_base::FaultKind;

/// The sum.
///
/// # Errors
/// `Overflow` where it doesn't fit 64 bits.
pub fn add(left: i64, right: i64) -> Result<i64, FaultKind>
    ensures { result ≡ sum_of left right }
{
    left.checked_add(right).ok_or(FaultKind::Overflow)
}

/// What is left after `right` is taken away.
///
/// # Errors
/// `Overflow` where it doesn't fit 64 bits.
pub fn subtract(left: i64, right: i64) -> Result<i64, FaultKind>
    ensures { result ≡ difference_of left right }
{
    left.checked_sub(right).ok_or(FaultKind::Overflow)
}

/// The product.
///
/// # Errors
/// `Overflow` where it doesn't fit 64 bits.
pub fn multiply(left: i64, right: i64) -> Result<i64, FaultKind>
    ensures { result ≡ product_of left right }
{
    left.checked_mul(right).ok_or(FaultKind::Overflow)
}

/// The quotient, cut toward zero.
///
/// # Errors
/// `DivideByZero` where `right` is 0, and `Overflow` where the quotient doesn't fit 64 bits.
pub fn divide(left: i64, right: i64) -> Result<i64, FaultKind>
    ensures { result ≡ quotient_of left right }
{
    if right == 0 {
        return Err(FaultKind::DivideByZero);
    }
    left.checked_div(right).ok_or(FaultKind::Overflow)
}

/// What a division leaves, with the sign of `left`.
///
/// # Errors
/// `DivideByZero` where `right` is 0, and `Overflow` where the quotient doesn't fit 64 bits.
pub fn remainder(left: i64, right: i64) -> Result<i64, FaultKind>
    ensures { result ≡ remainder_of left right }
{
    if right == 0 {
        return Err(FaultKind::DivideByZero);
    }
    left.checked_rem(right).ok_or(FaultKind::Overflow)
}

/// The integer with the other sign.
///
/// # Errors
/// `Overflow` where it doesn't fit 64 bits.
pub fn negate(value: i64) -> Result<i64, FaultKind>
    ensures { result ≡ negative_of value }
{
    value.checked_neg().ok_or(FaultKind::Overflow)
}
