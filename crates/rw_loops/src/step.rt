//! The steps that make alternations, loops and local blocks.

ghost use Rattle.std.specs.Prelude.{◌≡◌, IfOk};

use rw_items::Items;
use rw_terms::name::Name;
use rw_terms::sequent::copy_formulas;
use rw_terms::term::{Formula, Sort, Term};
use std::alloc::{AllocError, Global};

/// A step to an alternation, a loop or a local block.
#[derive(Drop)]
pub enum LoopStep {
    /// An alternation with a kid behind each guard.
    If(Items<Formula>),
    /// A loop with a variant, and a kid behind each guard.
    Do(Term, Items<Formula>),
    /// A block with a local variable of a sort.
    Block(Name, Sort),
}

impl LoopStep {
    /// The same step again.
    pub fn copy(&self, alloc: Global) -> Result<LoopStep, AllocError>
        ensures { IfOk result (λ s. s ≡ self.now) }
    {
        match self {
            LoopStep::If(guards) => Ok(LoopStep::If(copy_formulas(alloc, guards.as_slice())?)),
            LoopStep::Do(variant, guards) => {
                let guards = copy_formulas(alloc, guards.as_slice())?;
                Ok(LoopStep::Do(variant.copy(alloc)?, guards))
            }
            LoopStep::Block(name, sort) => Ok(LoopStep::Block(name.copy(), *sort)),
        }
    }
}
