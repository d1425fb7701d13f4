//! The law of a step.

ghost use Rattle.std.specs.Prelude.{◌≡◌, IfOk, IfErr};
ghost use Rattle.rw_laws.specs.Laws.{FitsWith, Makes, IsRefusal};
ghost use Rattle.rw_loops.specs.Laws.{law_of};

use crate::alternation::alternation;
use crate::block::block;
use crate::iteration::iteration;
use crate::skeletons::skeleton;
use crate::step::LoopStep;
use rw_laws::premises::Premises;
use rw_programs::applied::{Applied, ApplyError, Context};
use rw_programs::prog::Spec;
use rw_terms::scope::Head;
use std::alloc::Global;

/// What the step makes of the specification in its context, or the first cause why its law does not fit.
pub fn apply(
    alloc: Global,
    context: &Context,
    heads: &[Head],
    spec: &Spec,
    step: &LoopStep,
) -> Result<Applied, ApplyError>
    ensures ok { IfOk result (λ a. FitsWith (law_of context.now heads.now spec.now step.now) (λ b. a ≡ b)) }
    ensures err { IfErr result (IsRefusal (law_of context.now heads.now spec.now step.now)) }
{
    let premises = premises(alloc, context, heads, spec, step)?;
    let skeleton = skeleton(alloc, step)?;
    Ok(Applied {
        skeleton,
        children: premises.children,
        obligations: premises.obligations,
    })
}

/// The kids and the obligations of the step, without its skeleton, or the first cause why its law does not fit.
#[tactic(auto, unfolding(crate::specs::Laws::law_of))]
pub fn premises(
    alloc: Global,
    context: &Context,
    heads: &[Head],
    spec: &Spec,
    step: &LoopStep,
) -> Result<Premises, ApplyError>
    ensures ok { IfOk result (Makes (law_of context.now heads.now spec.now step.now)) }
    ensures err { IfErr result (IsRefusal (law_of context.now heads.now spec.now step.now)) }
{
    match step {
        LoopStep::If(guards) => alternation(alloc, context, heads, spec, guards.as_slice()),
        LoopStep::Do(variant, guards) => {
            iteration(alloc, context, heads, spec, variant, guards.as_slice())
        }
        LoopStep::Block(name, sort) => block(alloc, context, spec, name, *sort),
    }
}
