//! Division of integers of 128 bits, rounded as that of terms.

ghost use Rattle.std.specs.Prelude.{◌≡◌, negsuc, IfSome, IfNone};
ghost use Rattle.std.specs.Int.{IsNonZero, NotMinOverMinusOne, w128};
ghost use Rattle.rw_terms.specs.Value.{div_floor, mod_floor};

/// The quotient rounded to minus infinity, and 0 by 0. It passes 128 bits exactly where -2^127 is divided by -1.
pub fn quotient(dividend: i128, divisor: i128) -> Option<i128>
    ensures value { IfSome result (λ q. q ≡ div_floor dividend divisor) }
    ensures wide { IfNone result ((dividend ≡ i128.MIN) × (divisor ≡ negsuc 0)) }
{
    if divisor == 0 {
        return Some(0);
    }
    if dividend == i128::MIN && divisor == -1 {
        return None;
    }
    Some(rounded(dividend, divisor))
}

/// The rest of that division, which has the sign of the divisor, and 0 by 0.
pub fn rest(dividend: i128, divisor: i128) -> i128
    ensures { result ≡ mod_floor dividend divisor }
{
    if 0 < divisor {
        dividend.rem_euclid(divisor)
    } else if divisor == 0 || divisor == -1 {
        0
    } else if 0 < dividend {
        (dividend - 1).rem_euclid(divisor) + 1 + divisor
    } else {
        dividend % divisor
    }
}

fn rounded(dividend: i128, divisor: i128) -> i128
    requires nonzero { IsNonZero w128 divisor }
    requires fits { NotMinOverMinusOne w128 dividend divisor }
    ensures { result ≡ div_floor dividend divisor }
{
    if 0 < divisor {
        dividend.div_euclid(divisor)
    } else if 0 < dividend {
        (dividend - 1).div_euclid(divisor) - 1
    } else {
        dividend / divisor
    }
}
