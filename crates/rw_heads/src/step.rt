//! The steps that use a procedure or a module.

ghost use Rattle.std.specs.Prelude.{◌≡◌, IfOk};

use rw_items::Items;
use rw_programs::copying::copy_list;
use rw_terms::copying::copy_terms;
use rw_terms::name::Name;
use rw_terms::term::Term;
use std::alloc::{AllocError, Global};

/// A call of the procedure of the name: an argument for each value, and a variable for each result.
#[derive(Drop)]
pub struct CallStep {
    pub name: Name,
    pub args: Items<Term>,
    pub results: Items<Name>,
}

impl CallStep {
    /// The same step again.
    pub fn copy(&self, alloc: Global) -> Result<CallStep, AllocError>
        ensures { IfOk result (λ s. s ≡ self.now) }
    {
        let args = copy_terms(alloc, self.args.as_slice())?;
        Ok(CallStep {
            name: self.name.copy(),
            args,
            results: copy_list(alloc, self.results.as_slice())?,
        })
    }
}

/// A step of a module.
#[derive(Drop)]
pub enum ModStep {
    /// A block of the module of the name.
    Open(Name),
    /// A call of an operation: the module's name and the operation's, with arguments, and names for the results.
    Op(Name, Name, Items<Term>, Items<Name>),
}

impl ModStep {
    /// The same step again.
    pub fn copy(&self, alloc: Global) -> Result<ModStep, AllocError>
        ensures { IfOk result (λ s. s ≡ self.now) }
    {
        match self {
            ModStep::Open(module) => Ok(ModStep::Open(module.copy())),
            ModStep::Op(module, name, args, results) => Ok(ModStep::Op(
                module.copy(),
                name.copy(),
                copy_terms(alloc, args.as_slice())?,
                copy_list(alloc, results.as_slice())?,
            )),
        }
    }
}
