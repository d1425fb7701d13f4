//! Fractions of 128 bits.

ghost use Rattle.std.specs.Prelude.{◌≡◌};
ghost use Rattle.rw_finder.specs.Fractions.{times, plus, reduced, opposite, over, is_below};

use crate::less::is_less;
use crate::numbers;

/// A fraction.
#[derive(Clone, Copy, Debug, PartialEq, Eq)]
pub struct Fraction {
    pub above: i128,
    pub below: i128,
}

impl Fraction {
    /// So many times the fraction: the number and the denominator are reduced before they are multiplied out.
    pub fn times(self, number: i128) -> Option<Fraction>
        ensures { result ≡ times number self }
    {
        let common = numbers::common(number, self.below);
        let number = numbers::quotient(number, common)?;
        let above = numbers::product(number, self.above)?;
        let below = numbers::quotient(self.below, common)?;
        Some(Fraction { above, below })
    }

    /// The sum, over the least common multiple of the denominators, reduced afterwards.
    pub fn plus(self, other: Fraction) -> Option<Fraction>
        ensures { result ≡ plus self other }
    {
        let common = numbers::common(self.below, other.below);
        let by = numbers::quotient(other.below, common)?;
        let other_by = numbers::quotient(self.below, common)?;
        let below = numbers::product(self.below, by)?;
        let one = numbers::product(self.above, by)?;
        let two = numbers::product(other.above, other_by)?;
        reduced(numbers::sum(one, two)?, below)
    }

    /// The fraction with the other sign.
    pub fn opposite(self) -> Option<Fraction>
        ensures { result ≡ opposite self }
    {
        let above = numbers::opposite(self.above)?;
        Some(Fraction {
            above,
            below: self.below,
        })
    }

    /// The fraction divided by a positive number, with which it is reduced before.
    pub fn over(self, number: i128) -> Option<Fraction>
        ensures { result ≡ over self number }
    {
        let common = numbers::common(self.above, number);
        let above = numbers::quotient(self.above, common)?;
        let number = numbers::quotient(number, common)?;
        let below = numbers::product(self.below, number)?;
        Some(Fraction { above, below })
    }

    /// Whether it is less than another, where both denominators are positive.
    pub fn is_below(self, other: Fraction) -> bool
        ensures { result ≡ is_below self other }
    {
        if self.below <= 0 || other.below <= 0 {
            return false;
        }
        is_less(self.above, self.below, other.above, other.below)
    }
}

// The fraction in lowest terms.
fn reduced(above: i128, below: i128) -> Option<Fraction>
    ensures { result ≡ reduced above below }
{
    let common = numbers::common(above, below);
    let above = numbers::quotient(above, common)?;
    let below = numbers::quotient(below, common)?;
    Some(Fraction { above, below })
}
