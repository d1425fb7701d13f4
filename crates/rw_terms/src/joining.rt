//! Formulas joined.

ghost use Rattle.std.specs.Prelude.{◌≡◌, IfOk};

use crate::term::Formula;
use rw_items::Boxed;
use std::alloc::{AllocError, Global};

/// `one and other`
pub fn both(
    alloc: Global,
    one: Boxed<Formula>,
    other: Boxed<Formula>,
) -> Result<Boxed<Formula>, AllocError>
    ensures { IfOk result (λ f. f ≡ Formula.And one other) }
{
    Boxed::new(alloc, Formula::And(one, other))
}
