//! The steps of the basic laws.

ghost use Rattle.std.specs.Prelude.{◌≡◌, IfOk};

use rw_items::Items;
use rw_programs::copying::copy_list;
use rw_terms::copying::copy_terms;
use rw_terms::name::Name;
use rw_terms::term::{Formula, Term};
use std::alloc::{AllocError, Global};

/// A step by a basic law.
#[derive(Drop)]
pub enum BasicStep {
    /// The specification is met by doing nothing.
    Skip,
    /// The precondition may be this weaker one.
    Weaken(Formula),
    /// The postcondition may be this stronger one.
    Strengthen(Formula),
    /// The variables are set at once to the values of the terms.
    Assign(Items<Name>, Items<Term>),
    /// Something is done first, and the assignment follows.
    Follow(Items<Name>, Items<Term>),
    /// Two parts, with what holds between them.
    Seq(Formula),
    /// The same, with a constant for the first value of each name of the frame.
    SeqCon(Items<Name>, Formula),
    /// A constant with the value of a term.
    Con(Name, Term),
    /// Names leave the frame.
    Contract(Items<Name>),
    /// Names enter the frame.
    Expand(Items<Name>),
}

impl BasicStep {
    /// The same step again.
    pub fn copy(&self, alloc: Global) -> Result<BasicStep, AllocError>
        ensures { IfOk result (λ s. s ≡ self.now) }
    {
        match self {
            BasicStep::Skip => Ok(BasicStep::Skip),
            BasicStep::Weaken(f) => Ok(BasicStep::Weaken(f.copy(alloc)?)),
            BasicStep::Strengthen(f) => Ok(BasicStep::Strengthen(f.copy(alloc)?)),
            BasicStep::Assign(names, terms) => Ok(BasicStep::Assign(
                copy_list(alloc, names.as_slice())?,
                copy_terms(alloc, terms.as_slice())?,
            )),
            BasicStep::Follow(names, terms) => Ok(BasicStep::Follow(
                copy_list(alloc, names.as_slice())?,
                copy_terms(alloc, terms.as_slice())?,
            )),
            BasicStep::Seq(f) => Ok(BasicStep::Seq(f.copy(alloc)?)),
            BasicStep::SeqCon(names, f) => Ok(BasicStep::SeqCon(
                copy_list(alloc, names.as_slice())?,
                f.copy(alloc)?,
            )),
            BasicStep::Con(name, term) => Ok(BasicStep::Con(name.copy(), term.copy(alloc)?)),
            BasicStep::Contract(names) => Ok(BasicStep::Contract(copy_list(
                alloc,
                names.as_slice(),
            )?)),
            BasicStep::Expand(names) => Ok(BasicStep::Expand(copy_list(alloc, names.as_slice())?)),
        }
    }
}
