//! Copies, which equal what they copy.

ghost use Rattle.std.specs.Prelude.{◌≡◌, IfOk};

use crate::head::{Module, Oper, ProcHead};
use rw_items::{Boxed, Items};
use rw_programs::copying::copy_params;
use std::alloc::{AllocError, Global};

impl ProcHead {
    /// The same head again.
    pub fn copy(&self, alloc: Global) -> Result<ProcHead, AllocError>
        ensures { IfOk result (λ h. h ≡ self.now) }
    {
        let values = copy_params(alloc, self.values.as_slice())?;
        let results = copy_params(alloc, self.results.as_slice())?;
        let pre = Boxed::new(alloc, self.pre.copy(alloc)?)?;
        let post = Boxed::new(alloc, self.post.copy(alloc)?)?;
        Ok(ProcHead {
            name: self.name.copy(),
            values,
            results,
            pre: pre.into_inner(),
            post: post.into_inner(),
        })
    }
}

impl Oper {
    /// The same operation again.
    pub fn copy(&self, alloc: Global) -> Result<Oper, AllocError>
        ensures { IfOk result (λ o. o ≡ self.now) }
    {
        let values = copy_params(alloc, self.values.as_slice())?;
        let results = copy_params(alloc, self.results.as_slice())?;
        Ok(Oper {
            name: self.name.copy(),
            values,
            results,
            spec: self.spec.copy(alloc)?,
        })
    }
}

impl Module {
    /// The same module again, with its operations.
    pub fn copy(&self, alloc: Global) -> Result<Module, AllocError>
        ensures { IfOk result (λ m. m ≡ self.now) }
    {
        let state = copy_params(alloc, self.state.as_slice())?;
        let concrete = copy_params(alloc, self.concrete.as_slice())?;
        let start = Boxed::new(alloc, self.start.copy(alloc)?)?;
        let coupling = Boxed::new(alloc, self.coupling.copy(alloc)?)?;
        let operations = copy_operations(alloc, self.operations.as_slice())?;
        Ok(Module {
            name: self.name.copy(),
            state,
            concrete,
            start: start.into_inner(),
            coupling: coupling.into_inner(),
            operations,
        })
    }
}

fn copy_operations(alloc: Global, operations: &[Oper]) -> Result<Items<Oper>, AllocError>
    ensures { IfOk result (λ copies. copies ≡ operations.now) }
{
    let mut copies = Items::new(alloc);
    for oper in operations {
        copies.push(oper.copy(alloc)?)?;
    }
    Ok(copies)
}

/// The same heads again.
pub fn copy_procs(alloc: Global, procs: &[ProcHead]) -> Result<Items<ProcHead>, AllocError>
    ensures { IfOk result (λ copies. copies ≡ procs.now) }
{
    let mut copies = Items::new(alloc);
    for proc in procs {
        copies.push(proc.copy(alloc)?)?;
    }
    Ok(copies)
}

/// The same modules again.
pub fn copy_modules(alloc: Global, modules: &[Module]) -> Result<Items<Module>, AllocError>
    ensures { IfOk result (λ copies. copies ≡ modules.now) }
{
    let mut copies = Items::new(alloc);
    for module in modules {
        copies.push(module.copy(alloc)?)?;
    }
    Ok(copies)
}
