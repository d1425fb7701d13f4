//! Arithmetic of 128 bits that tells where a number passes them.

ghost use Rattle.std.specs.Prelude.{◌≡◌, neg_ℤ, ◌+ℤ◌, ◌*ℤ◌};
ghost use Rattle.std.specs.Int.RustNames.{unsigned_abs};
ghost use Rattle.rw_terms.specs.Value.{div_floor};
ghost use Rattle.rw_finder.specs.Fractions.{narrow, common};

use rw_terms::division;

/// The greatest common divisor of two numbers, the second of which is positive.
pub fn common(one: i128, other: i128) -> i128
    ensures { result ≡ common one other }
{
    if other == 0 {
        return one;
    }
    common(other, division::rest(one, other))
}

/// The quotient rounded down.
pub fn quotient(dividend: i128, divisor: i128) -> Option<i128>
    ensures { result ≡ narrow (div_floor dividend divisor) }
{
    division::quotient(dividend, divisor)
}

/// The product.
pub fn product(one: i128, other: i128) -> Option<i128>
    ensures { result ≡ narrow (one *ℤ other) }
{
    one.checked_mul(other)
}

/// The sum.
pub fn sum(one: i128, other: i128) -> Option<i128>
    ensures { result ≡ narrow (one +ℤ other) }
{
    one.checked_add(other)
}

/// The number with the other sign.
pub fn opposite(number: i128) -> Option<i128>
    ensures { result ≡ narrow (neg_ℤ number) }
{
    number.checked_neg()
}
