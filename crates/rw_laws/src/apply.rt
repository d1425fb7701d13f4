//! The law of a step.

ghost use Rattle.std.specs.Prelude.{◌≡◌, IfOk, IfErr};
ghost use Rattle.rw_laws.specs.Laws.{law_of, FitsWith, Makes, IsRefusal};
ghost use Rattle.rw_laws.specs.Skeletons.{skeleton_of};

use crate::assigning::{assign, follow};
use crate::constants::con;
use crate::frames::{contract, expand};
use crate::premises::Premises;
use crate::sequences::{seq, seqcon};
use crate::single::{skip, strengthen, weaken};
use crate::skeletons::skeleton;
use crate::step::BasicStep;
use rw_items::Items;
use rw_programs::applied::{Applied, ApplyError, Context};
use rw_programs::prog::Spec;
use rw_terms::scope::Head;
use rw_terms::sequent::Sequent;
use std::alloc::Global;

/// What the step makes of the specification in its context, or the first cause why its law does not fit.
pub fn apply(
    alloc: Global,
    context: &Context,
    heads: &[Head],
    spec: &Spec,
    step: &BasicStep,
) -> Result<Applied, ApplyError>
    ensures ok { IfOk result (λ a. FitsWith (law_of context.now heads.now spec.now step.now) (λ b. a ≡ b)) }
    ensures err { IfErr result (IsRefusal (law_of context.now heads.now spec.now step.now)) }
{
    let premises = premises(alloc, context, heads, spec, step)?;
    let skeleton = skeleton(alloc, spec, step)?;
    Ok(Applied {
        skeleton,
        children: premises.children,
        obligations: premises.obligations,
    })
}

/// What is to be shown for the step alone, without skeleton and kids, or the first cause why its law does not fit.
pub fn obligations(
    alloc: Global,
    context: &Context,
    heads: &[Head],
    spec: &Spec,
    step: &BasicStep,
) -> Result<Items<Sequent>, ApplyError>
    ensures ok { IfOk result (λ qs. FitsWith (law_of context.now heads.now spec.now step.now) (λ a. qs ≡ a.obligations)) }
    ensures err { IfErr result (IsRefusal (law_of context.now heads.now spec.now step.now)) }
{
    let premises = premises(alloc, context, heads, spec, step)?;
    Ok(premises.obligations)
}

/// The kids and the obligations of the step, without its skeleton, or the first cause why its law does not fit.
#[tactic(auto, unfolding(crate::specs::Laws::law_of))]
pub fn premises(
    alloc: Global,
    context: &Context,
    heads: &[Head],
    spec: &Spec,
    step: &BasicStep,
) -> Result<Premises, ApplyError>
    ensures ok { IfOk result (Makes (law_of context.now heads.now spec.now step.now)) }
    ensures err { IfErr result (IsRefusal (law_of context.now heads.now spec.now step.now)) }
{
    match step {
        BasicStep::Skip => skip(alloc, context, spec),
        BasicStep::Weaken(f) => weaken(alloc, context, heads, spec, f),
        BasicStep::Strengthen(f) => strengthen(alloc, context, heads, spec, f),
        BasicStep::Assign(xs, ts) => assign(alloc, context, spec, xs.as_slice(), ts.as_slice()),
        BasicStep::Follow(xs, ts) => follow(alloc, context, spec, xs.as_slice(), ts.as_slice()),
        BasicStep::Seq(f) => seq(alloc, context, heads, spec, f),
        BasicStep::SeqCon(xs, f) => seqcon(alloc, context, heads, spec, xs.as_slice(), f),
        BasicStep::Con(x, t) => con(alloc, context, spec, x, t),
        BasicStep::Contract(xs) => contract(alloc, context, spec, xs.as_slice()),
        BasicStep::Expand(xs) => expand(alloc, context, spec, xs.as_slice()),
    }
}
