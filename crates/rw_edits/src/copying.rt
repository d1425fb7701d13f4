//! Copies, which equal what they copy.

ghost use Rattle.std.specs.Prelude.{◌≡◌, IfOk};

use crate::edit::{Edit, Path, Place, Spot, Step};
use rw_items::Items;
use std::alloc::{AllocError, Global};

impl Path {
    /// The same path again.
    pub fn copy(&self, alloc: Global) -> Result<Path, AllocError>
        ensures { IfOk result (λ p. p ≡ self.now) }
    {
        let kids = Items::from_slice(alloc, self.kids.as_slice())?;
        Ok(Path { kids })
    }
}

impl Place {
    /// The same place again.
    pub fn copy(&self, alloc: Global) -> Result<Place, AllocError>
        ensures { IfOk result (λ p. p ≡ self.now) }
    {
        Ok(Place {
            tree: self.tree.copy(),
            path: self.path.copy(alloc)?,
        })
    }
}

impl Spot {
    /// The same user again.
    pub fn copy(&self, alloc: Global) -> Result<Spot, AllocError>
        ensures { IfOk result (λ s. s ≡ self.now) }
    {
        match self {
            Spot::Define(name) => Ok(Spot::Define(name.copy())),
            Spot::Lemma(name) => Ok(Spot::Lemma(name.copy())),
            Spot::At(place) => Ok(Spot::At(place.copy(alloc)?)),
        }
    }
}

impl Step {
    /// The same step again.
    pub fn copy(&self, alloc: Global) -> Result<Step, AllocError>
        ensures { IfOk result (λ s. s ≡ self.now) }
    {
        match self {
            Step::Basic(step) => Ok(Step::Basic(step.copy(alloc)?)),
            Step::Loop(step) => Ok(Step::Loop(step.copy(alloc)?)),
            Step::Call(step) => Ok(Step::Call(step.copy(alloc)?)),
            Step::Module(step) => Ok(Step::Module(step.copy(alloc)?)),
        }
    }
}

impl Edit {
    /// The same edit again.
    pub fn copy(&self, alloc: Global) -> Result<Edit, AllocError>
        ensures { IfOk result (λ e. e ≡ self.now) }
    {
        match self {
            Edit::Var(param) => Ok(Edit::Var(param.copy())),
            Edit::Root(spec) => Ok(Edit::Root(spec.copy(alloc)?)),
            Edit::Step(place, step) => Ok(Edit::Step(place.copy(alloc)?, step.copy(alloc)?)),
            Edit::Clear(place) => Ok(Edit::Clear(place.copy(alloc)?)),
            Edit::Prove(place, k, cert) => {
                Ok(Edit::Prove(place.copy(alloc)?, *k, cert.copy(alloc)?))
            }
            Edit::ProveLemma(name, cert) => Ok(Edit::ProveLemma(name.copy(), cert.copy(alloc)?)),
            Edit::Define(definition) => Ok(Edit::Define(definition.copy(alloc)?)),
            Edit::Lemma(lemma) => Ok(Edit::Lemma(lemma.copy(alloc)?)),
            Edit::Proc(head) => Ok(Edit::Proc(head.copy(alloc)?)),
            Edit::Module(module) => Ok(Edit::Module(module.copy(alloc)?)),
            Edit::Oper(module, oper) => Ok(Edit::Oper(module.copy(), oper.copy(alloc)?)),
            Edit::Drop(name) => Ok(Edit::Drop(name.copy())),
        }
    }
}
