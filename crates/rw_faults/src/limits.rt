//! The limits of one formula.

ghost use Rattle.std.specs.Prelude.{◌≡◌};
ghost use Rattle.rw_faults.specs.Limits.{is_light, is_shallow, is_small};

use rw_terms::measure::{depth, weight};
use rw_terms::sorts::{MOST_DEPTH, MOST_PARTS};
use rw_terms::term::Formula;

/// Whether the formula has at most 1024 parts.
pub fn is_light(formula: &Formula) -> bool
    ensures { result ≡ is_light formula.now }
{
    weight(formula) <= MOST_PARTS
}

/// Whether the formula's longest path has at most 64 parts.
pub fn is_shallow(formula: &Formula) -> bool
    ensures { result ≡ is_shallow formula.now }
{
    depth(formula) <= MOST_DEPTH
}

/// Whether the formula is within both limits.
pub fn is_small(formula: &Formula) -> bool
    ensures { result ≡ is_small formula.now }
{
    is_light(formula) && is_shallow(formula)
}
