//! Sequents.

ghost use Rattle.std.specs.Prelude.{◌≡◌, IfOk};

use crate::name::Name;
use crate::term::{Formula, Sort};
use rw_items::Items;
use std::alloc::{AllocError, Global};

/// Formulas to the left and to the right, with the names that are free in them.
#[derive(Drop)]
pub struct Sequent {
    pub names: Items<(Name, Sort)>,
    pub left: Items<Formula>,
    pub right: Items<Formula>,
}

impl Sequent {
    /// The same sequent again.
    pub fn copy(&self, alloc: Global) -> Result<Sequent, AllocError>
        ensures { IfOk result (λ q. q ≡ self.now) }
    {
        Ok(Sequent {
            names: copy_names(alloc, self.names.as_slice())?,
            left: copy_formulas(alloc, self.left.as_slice())?,
            right: copy_formulas(alloc, self.right.as_slice())?,
        })
    }
}

/// The same names again.
pub fn copy_names(alloc: Global, names: &[(Name, Sort)]) -> Result<Items<(Name, Sort)>, AllocError>
    ensures { IfOk result (λ ns. ns ≡ names.now) }
{
    let mut copies = Items::new(alloc);
    for (name, sort) in names {
        copies.push((name.copy(), *sort))?;
    }
    Ok(copies)
}

/// The same formulas again.
pub fn copy_formulas(alloc: Global, formulas: &[Formula]) -> Result<Items<Formula>, AllocError>
    ensures { IfOk result (λ fs. fs ≡ formulas.now) }
{
    let mut copies = Items::new(alloc);
    for formula in formulas {
        copies.push(formula.copy(alloc)?)?;
    }
    Ok(copies)
}
