//! The laws that leave names and programs alone: skip, a weaker precondition, a stronger postcondition.

ghost use Rattle.std.specs.Prelude.{◌≡◌, IfOk, IfErr};
ghost use Rattle.rw_laws.specs.Laws.{skip_law, weaken_premises, weaken_law, strengthen_law, Makes, IsRefusal};

use crate::premises::Premises;
use rw_derived::causes::new_cause;
use rw_derived::derived::{initial_pre, unchanged_post};
use rw_derived::making::{alone, one_formula, one_kid, owed, two};
use rw_derived::refusing::{refuse, refuse_large};
use rw_items::Items;
use rw_programs::applied::{ApplyError, Context};
use rw_programs::copying::copy_list;
use rw_programs::prog::Spec;
use rw_terms::copying::boxed;
use rw_terms::scope::Head;
use rw_terms::term::Formula;
use std::alloc::{AllocError, Global};

/// Nothing is done.
#[tactic(auto, unfolding(crate::specs::Laws::skip_law))]
pub fn skip(alloc: Global, context: &Context, spec: &Spec) -> Result<Premises, ApplyError>
    ensures ok { IfOk result (Makes (skip_law context.now spec.now)) }
    ensures err { IfErr result (IsRefusal (skip_law context.now spec.now)) }
{
    let post = unchanged_post(alloc, spec)?;
    let left = one_formula(alloc, &spec.pre)?;
    let right = alone(alloc, post)?;
    Ok(Premises {
        children: Items::new(alloc),
        obligations: owed(alloc, &context.scope, left, right)?,
    })
}

/// The kid has a precondition that the old one gives.
#[tactic(auto, unfolding(crate::specs::Laws::weaken_law))]
pub fn weaken(
    alloc: Global,
    context: &Context,
    heads: &[Head],
    spec: &Spec,
    weaker: &Formula,
) -> Result<Premises, ApplyError>
    ensures ok { IfOk result (Makes (weaken_law context.now heads.now spec.now weaker.now)) }
    ensures err { IfErr result (IsRefusal (weaken_law context.now heads.now spec.now weaker.now)) }
{
    refuse(new_cause(alloc, &context.scope, heads, &[], weaker)?)?;
    refuse_large(weaker)?;
    Ok(weaken_premises(alloc, context, spec, weaker)?)
}

fn weaken_premises(
    alloc: Global,
    context: &Context,
    spec: &Spec,
    weaker: &Formula,
) -> Result<Premises, AllocError>
    ensures { IfOk result (λ p. p ≡ weaken_premises context.now spec.now weaker.now) }
{
    let left = one_formula(alloc, &spec.pre)?;
    let right = one_formula(alloc, weaker)?;
    let obligations = owed(alloc, &context.scope, left, right)?;
    let frame = copy_list(alloc, spec.frame.as_slice())?;
    let pre = boxed(alloc, weaker)?;
    let post = boxed(alloc, &spec.post)?;
    let children = one_kid(alloc, context.copy(alloc)?, frame, pre, post)?;
    Ok(Premises {
        children,
        obligations,
    })
}

/// The kid has a postcondition that gives the old one, where the old precondition held before.
#[tactic(auto, unfolding(crate::specs::Laws::strengthen_law))]
pub fn strengthen(
    alloc: Global,
    context: &Context,
    heads: &[Head],
    spec: &Spec,
    stronger: &Formula,
) -> Result<Premises, ApplyError>
    ensures ok { IfOk result (Makes (strengthen_law context.now heads.now spec.now stronger.now)) }
    ensures err { IfErr result (IsRefusal (strengthen_law context.now heads.now spec.now stronger.now)) }
{
    refuse(new_cause(
        alloc,
        &context.scope,
        heads,
        spec.frame.as_slice(),
        stronger,
    )?)?;
    refuse_large(stronger)?;
    let before = initial_pre(alloc, spec)?;
    let left = two(alloc, before, boxed(alloc, stronger)?)?;
    let right = one_formula(alloc, &spec.post)?;
    let obligations = owed(alloc, &context.scope, left, right)?;
    let frame = copy_list(alloc, spec.frame.as_slice())?;
    let pre = boxed(alloc, &spec.pre)?;
    let post = boxed(alloc, stronger)?;
    let children = one_kid(alloc, context.copy(alloc)?, frame, pre, post)?;
    Ok(Premises {
        children,
        obligations,
    })
}
