//! The laws of assignments.

ghost use Rattle.std.specs.Prelude.{◌≡◌, [], ◌∷◌, IfOk, IfErr};
ghost use Rattle.rw_derived.specs.Causes.{assign_cause};
ghost use Rattle.rw_laws.specs.Laws.{sequent_over, assign_law, follow_law, Makes, IsRefusal};

use crate::premises::Premises;
use rw_derived::derived::{all_defined, assigned_post, followed_post};
use rw_derived::making::{alone, one_formula, one_kid, owed};
use rw_derived::parts::{any_ill_set, are_assignable, are_code_terms, have_initial};
use rw_derived::refusing::{refuse, refuse_twice};
use rw_faults::unknown::unknown_in_terms;
use rw_items::{Boxed, Items};
use rw_programs::applied::{ApplyError, Context, Misfit};
use rw_programs::copying::copy_list;
use rw_programs::prog::Spec;
use rw_terms::copying::boxed;
use rw_terms::name::Name;
use rw_terms::scope::Scope;
use rw_terms::sequent::Sequent;
use rw_terms::term::{Formula, Term};
use std::alloc::{AllocError, Global};

/// The terms are defined, and the postcondition holds after the assignment.
#[tactic(auto, using(crate::proofs::Fitting::assign_long), unfolding(crate::specs::Laws::assign_law))]
pub fn assign(
    alloc: Global,
    context: &Context,
    spec: &Spec,
    names: &[Name],
    terms: &[Term],
) -> Result<Premises, ApplyError>
    ensures ok { IfOk result (Makes (assign_law context.now spec.now names.now terms.now)) }
    ensures err { IfErr result (IsRefusal (assign_law context.now spec.now names.now terms.now)) }
{
    refuse(assign_cause(&context.scope, spec, names, terms))?;
    let defined = all_defined(alloc, &context.scope, terms)?;
    let post = assigned_post(alloc, spec, names, terms)?;
    refuse_twice(names)?;
    let mut obligations = given(alloc, context, spec, defined)?;
    obligations.append(given(alloc, context, spec, post)?)?;
    Ok(Premises {
        children: Items::new(alloc),
        obligations,
    })
}

// The obligation that the precondition gives a formula, alone in a list.
fn given(
    alloc: Global,
    context: &Context,
    spec: &Spec,
    formula: Boxed<Formula>,
) -> Result<Items<Sequent>, AllocError>
    ensures { IfOk result (λ qs. qs ≡ sequent_over context.now.scope (spec.now.pre ∷ []) (formula ∷ []) ∷ []) }
{
    let left = one_formula(alloc, &spec.pre)?;
    let right = alone(alloc, formula)?;
    owed(alloc, &context.scope, left, right)
}

/// The kid makes the postcondition hold after an assignment that follows.
#[tactic(auto, using(crate::proofs::Fitting::assign_long), unfolding(crate::specs::Laws::follow_law))]
pub fn follow(
    alloc: Global,
    context: &Context,
    spec: &Spec,
    names: &[Name],
    terms: &[Term],
) -> Result<Premises, ApplyError>
    ensures ok { IfOk result (Makes (follow_law context.now spec.now names.now terms.now)) }
    ensures err { IfErr result (IsRefusal (follow_law context.now spec.now names.now terms.now)) }
{
    refuse(assign_cause(&context.scope, spec, names, terms))?;
    let post = followed_post(alloc, &context.scope, spec, names, terms)?;
    refuse_twice(names)?;
    let frame = copy_list(alloc, spec.frame.as_slice())?;
    let pre = boxed(alloc, &spec.pre)?;
    let children = one_kid(alloc, context.copy(alloc)?, frame, pre, post)?;
    Ok(Premises {
        children,
        obligations: Items::new(alloc),
    })
}

// The first cause why the names cannot be set to the terms, but for limits and for names twice.
#[tactic(auto, unfolding(rw_derived::specs::Causes::assign_cause))]
fn assign_cause(scope: &Scope, spec: &Spec, names: &[Name], terms: &[Term]) -> Option<Misfit>
    ensures { result ≡ assign_cause scope.now spec.now names.now terms.now }
{
    if names.len() != terms.len() {
        return Some(Misfit::Shape);
    }
    if have_initial(terms) {
        return Some(Misfit::InitialNotAllowed);
    }
    if !are_code_terms(scope, terms) {
        return Some(Misfit::NotCode);
    }
    if !are_assignable(scope, spec.frame.as_slice(), names) {
        return Some(Misfit::NotInFrame);
    }
    if any_ill_set(scope, names, terms) {
        return Some(Misfit::Sort);
    }
    if unknown_in_terms(scope, terms).is_some() {
        return Some(Misfit::Unknown);
    }
    None
}
