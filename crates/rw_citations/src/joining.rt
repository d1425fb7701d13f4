//! What a sequent says, as a formula.

ghost use Rattle.std.specs.Prelude.{◌≡◌, IfOk};
ghost use Rattle.rw_subst.specs.Conj.{conj, disj};
ghost use Rattle.rw_citations.specs.Conj.{statement, and_also, or_also};

use rw_items::Boxed;
use rw_terms::copying::boxed;
use rw_terms::sequent::Sequent;
use rw_terms::term::Formula;
use std::alloc::{AllocError, Global};

/// The left formulas joined by `and` imply the right ones joined by `or`.
pub fn statement(alloc: Global, sequent: &Sequent) -> Result<Boxed<Formula>, AllocError>
    ensures { IfOk result (λ f. f ≡ statement sequent.now) }
{
    let left = conj(alloc, sequent.left.as_slice())?;
    let right = disj(alloc, sequent.right.as_slice())?;
    Boxed::new(alloc, Formula::Imp(left, right))
}

#[tactic(auto, using(crate::proofs::Behind::conj_step))]
fn conj(alloc: Global, formulas: &[Formula]) -> Result<Boxed<Formula>, AllocError>
    ensures { IfOk result (λ f. f ≡ conj formulas.now) }
{
    let mut joined = None;
    for formula in formulas {
        joined = Some(and_also(alloc, joined, formula)?);
    }
    match joined {
        Some(all) => Ok(all),
        None => Boxed::new(alloc, Formula::True),
    }
}

fn and_also(
    alloc: Global,
    joined: Option<Boxed<Formula>>,
    formula: &Formula,
) -> Result<Boxed<Formula>, AllocError>
    ensures { IfOk result (λ f. f ≡ and_also joined formula.now) }
{
    let next = boxed(alloc, formula)?;
    match joined {
        Some(front) => Boxed::new(alloc, Formula::And(front, next)),
        None => Ok(next),
    }
}

#[tactic(auto, using(crate::proofs::Behind::disj_step))]
fn disj(alloc: Global, formulas: &[Formula]) -> Result<Boxed<Formula>, AllocError>
    ensures { IfOk result (λ f. f ≡ disj formulas.now) }
{
    let mut joined = None;
    for formula in formulas {
        joined = Some(or_also(alloc, joined, formula)?);
    }
    match joined {
        Some(all) => Ok(all),
        None => Boxed::new(alloc, Formula::False),
    }
}

fn or_also(
    alloc: Global,
    joined: Option<Boxed<Formula>>,
    formula: &Formula,
) -> Result<Boxed<Formula>, AllocError>
    ensures { IfOk result (λ f. f ≡ or_also joined formula.now) }
{
    let next = boxed(alloc, formula)?;
    match joined {
        Some(front) => Boxed::new(alloc, Formula::Or(front, next)),
        None => Ok(next),
    }
}
