//! The conditions under which a program refines a specification.

ghost use Rattle.std.specs.Prelude.{◌≡◌, List, IfOk};
ghost use Rattle.rw_terms.specs.declared.term.Formula.{Formula};
ghost use Rattle.rw_terms.specs.declared.sequent.Sequent.{Sequent};
ghost use Rattle.rw_wpview.specs.Conditions.{at_start, conditions};
ghost use Rattle.rw_wpview.specs.Kept.{kept, are_within, Answers};
ghost use Rattle.rw_wpview.specs.Misfits.{fails, part_misfit, last_misfit, first_misfit, Views};

use crate::before::before;
use crate::kept::{changed, kept_copy};
use crate::owed::{condition, joined, of_loops};
use crate::some::of_some;
use crate::test::Test;
use rw_items::{Boxed, Items};
use rw_noted::noted::Noted;
use rw_programs::applied::{ApplyError, Misfit};
use rw_programs::prog::Spec;
use rw_subst::replace::changes_from_initial;
use rw_terms::scope::{Head, Scope};
use rw_terms::sequent::Sequent;
use rw_terms::term::Formula;
use std::alloc::{AllocError, Global};

/// The conditions, or the first cause why there are none. The specification is to be well-formed in the scope, which is to hold
/// globals alone, and no name of the scope or of a block is to be that of the constant of a loop.
pub fn conditions(
    alloc: Global,
    scope: &Scope,
    heads: &[Head],
    spec: &Spec,
    noted: &Noted,
) -> Result<Items<Sequent>, ApplyError>
    ensures { Views (first_misfit scope.now heads.now spec.now noted.now) (conditions scope.now spec.now noted.now) result }
{
    match part_misfit(alloc, scope, heads, spec, noted)? {
        Some(misfit) => Err(ApplyError::Misfit(misfit)),
        None => {
            let twice = fails(alloc, scope, heads, spec, noted, Test::Twice)?;
            judged(owed(alloc, scope, spec, noted), twice)
        }
    }
}

// Conditions past the limits go before a name that is assigned twice.
#[tactic(auto, using(crate::proofs::Judging::judged_not, crate::proofs::Judging::judged_twice, crate::proofs::Judging::judged_good))]
fn judged(
    owed: Result<Items<Sequent>, ApplyError>,
    twice: bool,
) -> Result<Items<Sequent>, ApplyError>
    ensures { (wanted : List Sequent) → Answers wanted owed → Views (last_misfit (are_within wanted) twice) wanted result }
{
    match owed {
        Err(error) => Err(error),
        Ok(conditions) => {
            if twice {
                Err(ApplyError::Misfit(Misfit::Alias))
            } else {
                Ok(conditions)
            }
        }
    }
}

// The precondition gives what is to hold before the program, and then come those of the loops.
fn owed(
    alloc: Global,
    scope: &Scope,
    spec: &Spec,
    noted: &Noted,
) -> Result<Items<Sequent>, ApplyError>
    ensures { Answers (conditions scope.now spec.now noted.now) result }
{
    let post = kept_copy(alloc, &spec.post)?;
    let start = at_start(alloc, scope, spec, noted, &post)?;
    let pre = kept_copy(alloc, &spec.pre)?;
    joined(
        condition(alloc, scope, pre, start),
        of_loops(alloc, scope, 1, noted, &post),
    )
}

fn at_start(
    alloc: Global,
    scope: &Scope,
    spec: &Spec,
    noted: &Noted,
    post: &Option<Boxed<Formula>>,
) -> Result<Option<Boxed<Formula>>, AllocError>
    requires { post.now ≡ kept spec.now.post }
    ensures { IfOk result (λ o. o ≡ kept (at_start scope.now spec.now noted.now)) }
{
    let before = before(alloc, scope, noted, post)?;
    let changes = changes_from_initial(alloc, spec.frame.as_slice())?;
    changed(alloc, &before, changes.as_slice())
}

// The first cause of the parts.
#[tactic(auto, unfolding(crate::specs::Misfits::part_misfit))]
fn part_misfit(
    alloc: Global,
    scope: &Scope,
    heads: &[Head],
    spec: &Spec,
    noted: &Noted,
) -> Result<Option<Misfit>, AllocError>
    ensures { IfOk result (λ m. m ≡ part_misfit scope.now heads.now spec.now noted.now) }
{
    if fails(alloc, scope, heads, spec, noted, Test::Uneven)? {
        return Ok(Some(Misfit::Shape));
    }
    if fails(alloc, scope, heads, spec, noted, Test::Initial)? {
        return Ok(Some(Misfit::InitialNotAllowed));
    }
    if fails(alloc, scope, heads, spec, noted, Test::Known)? {
        return Ok(Some(Misfit::NotFresh));
    }
    if fails(alloc, scope, heads, spec, noted, Test::NotCode)? {
        return Ok(Some(Misfit::NotCode));
    }
    if fails(alloc, scope, heads, spec, noted, Test::Outside)? {
        return Ok(Some(Misfit::NotInFrame));
    }
    if fails(alloc, scope, heads, spec, noted, Test::Ill)? {
        return Ok(Some(Misfit::Sort));
    }
    Ok(None)
}

fn fails(
    alloc: Global,
    scope: &Scope,
    heads: &[Head],
    spec: &Spec,
    noted: &Noted,
    test: Test,
) -> Result<bool, AllocError>
    ensures { IfOk result (λ b. b ≡ fails heads.now spec.now scope.now noted.now test) }
{
    of_some(alloc, test, heads, spec.frame.as_slice(), scope, 1, noted)
}
