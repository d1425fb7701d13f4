//! The law of loops.

ghost use Rattle.std.specs.Prelude.{◌≡◌, ◌⊎◌, [], ◌∷◌, false, map, IfOk, IfErr};
ghost use Rattle.std.specs.List.{list_all};
ghost use Rattle.rw_terms.specs.declared.term.Term.{Term};
ghost use Rattle.rw_subst.specs.Limits.{IsTermRefusal};
ghost use Rattle.rw_faults.specs.Limits.{is_small};
ghost use Rattle.rw_programs.specs.declared.applied.Misfit.{Misfit};
ghost use Rattle.rw_laws.specs.Laws.{Makes, IsRefusal, IsLargeRefusal};
ghost use Rattle.rw_loops.specs.Limits.{child_within, are_within, IsLimitRefusal};
ghost use Rattle.rw_loops.specs.Laws.{not_below_0, is_less, turn, do_kid, do_premises, do_law};

use crate::alternation::both;
use crate::causes::{do_misfit, not_below_0};
use crate::limits::refuse_large;
use crate::owing::owed_defined;
use rw_derived::making::one_kid;
use rw_derived::refusing::refuse;
use rw_items::{Boxed, Items};
use rw_laws::premises::Premises;
use rw_programs::applied::{ApplyError, Child, Context, Misfit};
use rw_programs::copying::copy_list;
use rw_programs::prog::Spec;
use rw_subst::error::SubstError;
use rw_subst::replace::term_to_initial;
use rw_terms::copying::boxed;
use rw_terms::name::Name;
use rw_terms::scope::Head;
use rw_terms::term::{Formula, Term};
use std::alloc::{AllocError, Global};

/// A kid behind each guard, which keeps the invariant and makes the variant less.
pub fn iteration(
    alloc: Global,
    context: &Context,
    heads: &[Head],
    spec: &Spec,
    variant: &Term,
    guards: &[Formula],
) -> Result<Premises, ApplyError>
    ensures ok { IfOk result (Makes (do_law context.now heads.now spec.now variant.now guards.now)) }
    ensures err { IfErr result (IsRefusal (do_law context.now heads.now spec.now variant.now guards.now)) }
{
    refuse(do_misfit(alloc, &context.scope, heads, spec, variant, guards)?)?;
    let premises = do_premises(alloc, context, spec, variant, guards)?;
    refuse_large(&premises)?;
    Ok(premises)
}

// The guards are defined where the invariant holds.
fn do_premises(
    alloc: Global,
    context: &Context,
    spec: &Spec,
    variant: &Term,
    guards: &[Formula],
) -> Result<Premises, ApplyError>
    ensures ok { IfOk result (λ p. p ≡ do_premises context.now spec.now variant.now guards.now) }
    ensures err { IfErr result (IsLimitRefusal (are_within (do_premises context.now spec.now variant.now guards.now))) }
{
    let obligations = owed_defined(alloc, &context.scope, &spec.pre, guards)?;
    Ok(Premises {
        children: do_kids(alloc, context, spec, variant, guards)?,
        obligations,
    })
}

fn do_kids(
    alloc: Global,
    context: &Context,
    spec: &Spec,
    variant: &Term,
    guards: &[Formula],
) -> Result<Items<Child>, ApplyError>
    ensures ok { IfOk result (λ kids. kids ≡ map (do_kid context.now spec.now variant.now) guards.now) }
    ensures err { IfErr result (IsLimitRefusal (list_all child_within (map (do_kid context.now spec.now variant.now) guards.now))) }
{
    let mut kids = Items::new(alloc);
    for guard in guards {
        kids.append(do_kid(alloc, context, spec, variant, guard)?)?;
    }
    Ok(kids)
}

// The kid behind a guard, alone in a list.
fn do_kid(
    alloc: Global,
    context: &Context,
    spec: &Spec,
    variant: &Term,
    guard: &Formula,
) -> Result<Items<Child>, ApplyError>
    ensures ok { IfOk result (λ kids. kids ≡ do_kid context.now spec.now variant.now guard.now ∷ []) }
    ensures err { IfErr result (IsLargeRefusal (turn spec.now variant.now)) }
{
    let post = turn(alloc, spec, variant)?;
    let pre = both(alloc, &spec.pre, guard)?;
    let frame = copy_list(alloc, spec.frame.as_slice())?;
    Ok(one_kid(alloc, context.copy(alloc)?, frame, pre, post)?)
}

// What each turn keeps and makes.
#[tactic(auto, using(rw_derived::proofs::Largeness::right_large))]
fn turn(alloc: Global, spec: &Spec, variant: &Term) -> Result<Boxed<Formula>, ApplyError>
    ensures made { IfOk result (λ f. f ≡ turn spec.now variant.now) }
    ensures err { IfErr result (IsLargeRefusal (turn spec.now variant.now)) }
{
    let less = is_less(alloc, spec.frame.as_slice(), variant)?;
    let kept = kept(alloc, &spec.pre, variant)?;
    Ok(Boxed::new(alloc, Formula::And(kept, less))?)
}

// The invariant, and that the variant is not below 0.
fn kept(alloc: Global, pre: &Formula, variant: &Term) -> Result<Boxed<Formula>, AllocError>
    ensures { IfOk result (λ f. f ≡ Formula.And pre.now (not_below_0 variant.now)) }
{
    let pre = boxed(alloc, pre)?;
    let bound = not_below_0(alloc, variant)?;
    Boxed::new(alloc, Formula::And(pre, bound))
}

// The variant is less than it was.
fn is_less(alloc: Global, frame: &[Name], variant: &Term) -> Result<Boxed<Formula>, ApplyError>
    ensures made { IfOk result (λ f. f ≡ is_less frame.now variant.now) }
    ensures err { IfErr result (IsLargeRefusal (is_less frame.now variant.now)) }
{
    let now = Boxed::new(alloc, variant.copy(alloc)?)?;
    match term_to_initial(alloc, variant, frame) {
        Ok(before) => Ok(Boxed::new(alloc, Formula::Less(now.into_inner(), before))?),
        Err(error) => Err(term_too_large(error)),
    }
}

// A comparison with a derived term that passes a limit is a misfit.
fn term_too_large(error: SubstError) -> ApplyError
    ensures { (t u : Term) → IsTermRefusal u error → (result ≡ ApplyError.Memory) ⊎ ((is_small (Formula.Less t u) ≡ false) × (result ≡ ApplyError.Misfit Misfit.TooLarge)) }
{
    match error {
        SubstError::TooLarge(_) => ApplyError::Misfit(Misfit::TooLarge),
        SubstError::Memory => ApplyError::Memory,
    }
}
