//! The limit of a premise.

ghost use Rattle.std.specs.Prelude.{◌≡◌, ◌+◌, not, min};
ghost use Rattle.rw_goals.specs.Weight.{formulas_weight, is_heavy};
ghost use Rattle.rw_goals.specs.Premises.{with_added};

use crate::added::Added;
use rw_terms::measure::weight;
use rw_terms::sequent::Sequent;
use rw_terms::term::Formula;

/// The parts that a premise may have.
pub const MOST_PARTS: u32 = 8192;

/// Whether the goal with what is added is within the limit of a premise.
pub fn has_room(goal: &Sequent, added: &Added) -> bool
    ensures { result ≡ not (is_heavy (with_added goal.now added.now)) }
{
    let left = weight_of(goal.left.as_slice()).saturating_add(weight_of(added.left.as_slice()));
    let right = weight_of(goal.right.as_slice()).saturating_add(weight_of(added.right.as_slice()));
    left.saturating_add(right) <= MOST_PARTS
}

// The number of their parts, as far as a `u32` tells.
fn weight_of(formulas: &[Formula]) -> u32
    ensures { result ≡ min (formulas_weight formulas.now) u32.MAX }
{
    let mut sum: u32 = 0;
    for formula in formulas {
        sum = sum.saturating_add(weight(formula));
    }
    sum
}
