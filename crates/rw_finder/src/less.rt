//! The order of fractions, without their products.

ghost use Rattle.std.specs.Prelude.{◌≡◌, pos, ◌*ℤ◌, ◌<ℤ◌};
ghost use Rattle.std.specs.Int.RustNames.{int_lt};

use rw_terms::division;

/// Whether the fraction `above / below` is less than `other_above / other_below`. Their whole parts are compared, and
/// then the rests, upside down.
pub fn is_less(above: i128, below: i128, other_above: i128, other_below: i128) -> bool
    requires below { pos 0 <ℤ below }
    requires other { pos 0 <ℤ other_below }
    ensures { result ≡ int_lt (above *ℤ other_below) (other_above *ℤ below) }
{
    let whole = above.div_euclid(below);
    let other_whole = other_above.div_euclid(other_below);
    if whole < other_whole {
        return true;
    }
    if other_whole < whole {
        return false;
    }
    let rest = above.rem_euclid(below);
    let other_rest = other_above.rem_euclid(other_below);
    if other_rest == 0 {
        return false;
    }
    if rest == 0 {
        return true;
    }
    is_less(other_below, other_rest, below, rest)
}
