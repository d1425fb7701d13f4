//! What the premises of a rule have beside the goal.

ghost use Rattle.std.specs.Prelude.{◌≡◌, [], ◌∷◌, IfOk};
ghost use Rattle.rw_goals.specs.Premises.{nothing, on_left, on_right};

use rw_items::Items;
use rw_terms::name::Name;
use rw_terms::term::{Formula, Sort};
use std::alloc::{AllocError, Global};

/// What a premise has beside the goal: it goes last in each list, in this order.
#[derive(Drop)]
pub struct Added {
    pub names: Items<(Name, Sort)>,
    pub left: Items<Formula>,
    pub right: Items<Formula>,
}

/// What a rule says of its principal formula.
#[derive(Drop)]
pub enum Parts {
    /// It is not for this formula, for this cause.
    Fails(u8),
    One(Added),
    /// The first premise goes on top.
    Two(Added, Added),
}

impl Added {
    /// Nothing beside the goal.
    pub fn new(alloc: Global) -> Added
        ensures { result ≡ nothing }
    {
        Added {
            names: Items::new(alloc),
            left: Items::new(alloc),
            right: Items::new(alloc),
        }
    }
}

/// A copy of the formula on the left.
pub fn on_left(alloc: Global, formula: &Formula) -> Result<Added, AllocError>
    ensures { IfOk result (λ a. a ≡ on_left (formula.now ∷ [])) }
{
    let mut added = Added::new(alloc);
    added.left.push(formula.copy(alloc)?)?;
    Ok(added)
}

/// A copy of the formula on the right.
pub fn on_right(alloc: Global, formula: &Formula) -> Result<Added, AllocError>
    ensures { IfOk result (λ a. a ≡ on_right (formula.now ∷ [])) }
{
    let mut added = Added::new(alloc);
    added.right.push(formula.copy(alloc)?)?;
    Ok(added)
}
