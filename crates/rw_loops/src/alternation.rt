//! The law of alternations.

ghost use Rattle.std.specs.Prelude.{◌≡◌, [], ◌∷◌, map, IfOk, IfErr};
ghost use Rattle.rw_laws.specs.Laws.{Makes, IsRefusal};
ghost use Rattle.rw_loops.specs.Limits.{are_within, IsLimitRefusal};
ghost use Rattle.rw_loops.specs.Laws.{if_kid, if_premises, if_law};

use crate::causes::if_misfit;
use crate::limits::refuse_large;
use crate::owing::{owed_choice, owed_defined};
use rw_derived::making::one_kid;
use rw_derived::refusing::refuse;
use rw_items::{Boxed, Items};
use rw_laws::premises::Premises;
use rw_programs::applied::{ApplyError, Child, Context};
use rw_programs::copying::copy_list;
use rw_programs::prog::Spec;
use rw_terms::copying::boxed;
use rw_terms::scope::Head;
use rw_terms::term::Formula;
use std::alloc::{AllocError, Global};

/// A kid behind each guard.
pub fn alternation(
    alloc: Global,
    context: &Context,
    heads: &[Head],
    spec: &Spec,
    guards: &[Formula],
) -> Result<Premises, ApplyError>
    ensures ok { IfOk result (Makes (if_law context.now heads.now spec.now guards.now)) }
    ensures err { IfErr result (IsRefusal (if_law context.now heads.now spec.now guards.now)) }
{
    refuse(if_misfit(alloc, &context.scope, heads, guards)?)?;
    let premises = if_premises(alloc, context, spec, guards)?;
    refuse_large(&premises)?;
    Ok(premises)
}

// The guards are defined, and one of them holds.
fn if_premises(
    alloc: Global,
    context: &Context,
    spec: &Spec,
    guards: &[Formula],
) -> Result<Premises, ApplyError>
    ensures ok { IfOk result (λ p. p ≡ if_premises context.now spec.now guards.now) }
    ensures err { IfErr result (IsLimitRefusal (are_within (if_premises context.now spec.now guards.now))) }
{
    let mut obligations = owed_defined(alloc, &context.scope, &spec.pre, guards)?;
    obligations.append(owed_choice(alloc, &context.scope, &spec.pre, guards)?)?;
    Ok(Premises {
        children: if_kids(alloc, context, spec, guards)?,
        obligations,
    })
}

fn if_kids(
    alloc: Global,
    context: &Context,
    spec: &Spec,
    guards: &[Formula],
) -> Result<Items<Child>, AllocError>
    ensures { IfOk result (λ kids. kids ≡ map (if_kid context.now spec.now) guards.now) }
{
    let mut kids = Items::new(alloc);
    for guard in guards {
        kids.append(if_kid(alloc, context, spec, guard)?)?;
    }
    Ok(kids)
}

// The kid behind a guard, alone in a list.
fn if_kid(
    alloc: Global,
    context: &Context,
    spec: &Spec,
    guard: &Formula,
) -> Result<Items<Child>, AllocError>
    ensures { IfOk result (λ kids. kids ≡ if_kid context.now spec.now guard.now ∷ []) }
{
    let pre = both(alloc, guard, &spec.pre)?;
    let post = boxed(alloc, &spec.post)?;
    let frame = copy_list(alloc, spec.frame.as_slice())?;
    one_kid(alloc, context.copy(alloc)?, frame, pre, post)
}

/// Two formulas joined.
pub fn both(alloc: Global, one: &Formula, other: &Formula) -> Result<Boxed<Formula>, AllocError>
    ensures { IfOk result (λ f. f ≡ Formula.And one.now other.now) }
{
    let one = boxed(alloc, one)?;
    let other = boxed(alloc, other)?;
    rw_terms::joining::both(alloc, one, other)
}
