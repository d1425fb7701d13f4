//! Copies, which equal what they copy.

ghost use Rattle.std.specs.Prelude.{◌≡◌, IfOk};

use crate::noted::{Noted, NotedArm};
use rw_items::{Boxed, Items};
use rw_programs::copying::copy_list;
use rw_terms::copying::{boxed, boxed_term, copy_terms};
use rw_terms::term::{Formula, Term};
use std::alloc::{AllocError, Global};

impl Noted {
    /// The same program again.
    #[cycle(copy_noted)]
    pub fn copy(&self, alloc: Global) -> Result<Noted, AllocError>
        ensures { IfOk result (λ c. c ≡ self.now) }
    {
        match self {
            Noted::Skip => Ok(Noted::Skip),
            Noted::Assign(names, terms) => Ok(Noted::Assign(
                copy_list(alloc, names.as_slice())?,
                copy_terms(alloc, terms.as_slice())?,
            )),
            Noted::Seq(first, second) => {
                Ok(Noted::Seq(again(alloc, first)?, again(alloc, second)?))
            }
            Noted::If(arms) => Ok(Noted::If(copy_arms(alloc, arms.as_slice())?)),
            Noted::Do(variant, invariant, arms) => {
                let arms = copy_arms(alloc, arms.as_slice())?;
                loop_of(alloc, variant, invariant, arms)
            }
            Noted::Block(name, sort, body) => Ok(Noted::Block(
                name.copy(),
                *sort,
                again(alloc, body)?,
            )),
        }
    }
}

#[cycle(copy_noted)]
fn again(alloc: Global, noted: &Boxed<Noted>) -> Result<Boxed<Noted>, AllocError>
    ensures { IfOk result (λ c. c ≡ noted.now) }
{
    Boxed::new(alloc, noted.get().copy(alloc)?)
}

fn loop_of(
    alloc: Global,
    variant: &Term,
    invariant: &Formula,
    arms: Items<NotedArm>,
) -> Result<Noted, AllocError>
    ensures { IfOk result (λ c. c ≡ Noted.Do variant.now invariant.now arms) }
{
    let variant = boxed_term(alloc, variant)?;
    let invariant = boxed(alloc, invariant)?;
    Ok(Noted::Do(variant.into_inner(), invariant.into_inner(), arms))
}

impl NotedArm {
    /// The same guard and program again.
    #[cycle(copy_noted)]
    pub fn copy(&self, alloc: Global) -> Result<NotedArm, AllocError>
        ensures { IfOk result (λ a. a ≡ self.now) }
    {
        let guard = boxed(alloc, &self.guard)?;
        let body = self.body.copy(alloc)?;
        Ok(NotedArm {
            guard: guard.into_inner(),
            body,
        })
    }
}

/// The same guards and programs again.
#[cycle(copy_noted)]
pub fn copy_arms(alloc: Global, arms: &[NotedArm]) -> Result<Items<NotedArm>, AllocError>
    ensures { IfOk result (λ copies. copies ≡ arms.now) }
{
    let mut copies = Items::new(alloc);
    for arm in arms {
        copies.push(arm.copy(alloc)?)?;
    }
    Ok(copies)
}
