//! The law of calls.

ghost use Rattle.std.specs.Prelude.{◌≡◌, [], ◌∷◌, true, false, nat_lt, length, Some, IfOk, IfErr};
ghost use Rattle.std.specs.Option.{option_map};
ghost use Rattle.rw_faults.specs.Initial.{is_twice};
ghost use Rattle.rw_programs.specs.declared.applied.Misfit.{Misfit};
ghost use Rattle.rw_laws.specs.Laws.{FitsWith, IsRefusal, sequent_over};
ghost use Rattle.rw_procs.specs.Laws.{before_call, after_call, call_obligations, called, before_small, after_small, call_small, IsLimitRefusal, cause_without_head, call_law};

use crate::causes::call_cause;
use crate::derived::{asked, promised, wanted};
use rw_derived::derived::{all_defined, initial_pre};
use rw_derived::making::{alone, one_formula, owed, two};
use rw_derived::refusing::{refuse, refuse_twice};
use rw_heads::head::ProcHead;
use rw_heads::step::CallStep;
use rw_items::{Boxed, Items};
use rw_programs::applied::{Applied, ApplyError, Context, Misfit};
use rw_programs::copying::copy_list;
use rw_programs::prog::{Prog, Spec};
use rw_terms::copying::copy_terms;
use rw_terms::scope::{Head, Scope};
use rw_terms::sequent::Sequent;
use rw_terms::term::Formula;
use std::alloc::{AllocError, Global};

/// What the call makes of the specification in its context, or the first cause why its law does not fit. The head of the procedure
/// comes with its table place, where the table has it; predicates play no part, since none stands in an argument.
#[tactic(auto, unfolding(crate::specs::Laws::call_law))]
pub fn apply(
    alloc: Global,
    context: &Context,
    _heads: &[Head],
    spec: &Spec,
    step: &CallStep,
    head: Option<(&ProcHead, u32)>,
) -> Result<Applied, ApplyError>
    ensures ok { IfOk result (λ a. FitsWith (call_law context.now spec.now step.now (option_map (λ h. (h.0.now, h.1)) head.entry)) (λ b. a ≡ b)) }
    ensures err { IfErr result (IsRefusal (call_law context.now spec.now step.now (option_map (λ h. (h.0.now, h.1)) head.entry))) }
{
    match head {
        Some((head, place)) => call(alloc, context, spec, step, head, place),
        None => Err(ApplyError::Misfit(cause_without_head(&context.scope, spec, step))),
    }
}

// Where no head is given, an earlier cause or else the name is unknown.
fn cause_without_head(scope: &Scope, spec: &Spec, step: &CallStep) -> Misfit
    ensures { result ≡ cause_without_head scope.now spec.now.frame step.now }
{
    call_cause(scope, spec, None, step).unwrap_or(Misfit::Unknown)
}

// The call of a procedure whose head is at hand.
fn call(
    alloc: Global,
    context: &Context,
    spec: &Spec,
    step: &CallStep,
    head: &ProcHead,
    place: u32,
) -> Result<Applied, ApplyError>
    ensures ok { IfOk result (λ a. FitsWith (call_law context.now spec.now step.now (Some (head.now, place))) (λ b. a ≡ b)) }
    ensures err { IfErr result (IsRefusal (call_law context.now spec.now step.now (Some (head.now, place)))) }
{
    refuse(call_cause(&context.scope, spec, Some(head), step))?;
    let obligations = obligations(alloc, context, spec, step, head)?;
    refuse_later(place, context.order)?;
    refuse_alias(step)?;
    Ok(called(alloc, step, obligations)?)
}

// Refuses what is at no earlier place.
fn refuse_later(place: u32, order: u32) -> Result<(), ApplyError>
    ensures ok { IfOk result (λ _. nat_lt place order ≡ true) }
    ensures err { IfErr result (λ e. (nat_lt place order ≡ false) × (e ≡ ApplyError.Misfit Misfit.Order)) }
{
    if place < order {
        Ok(())
    } else {
        Err(ApplyError::Misfit(Misfit::Order))
    }
}

// Refuses a variable that would take two results.
fn refuse_alias(step: &CallStep) -> Result<(), ApplyError>
    ensures ok { IfOk result (λ _. is_twice step.now.results ≡ false) }
    ensures err { IfErr result (λ e. (is_twice step.now.results ≡ true) × (e ≡ ApplyError.Misfit Misfit.Alias)) }
{
    refuse_twice(step.results.as_slice())
}

// The call, which has no kids, with its obligations.
fn called(
    alloc: Global,
    step: &CallStep,
    obligations: Items<Sequent>,
) -> Result<Applied, AllocError>
    ensures { IfOk result (λ a. a ≡ called step.now obligations) }
{
    let args = copy_terms(alloc, step.args.as_slice())?;
    let results = copy_list(alloc, step.results.as_slice())?;
    Ok(Applied {
        skeleton: Prog::Call(step.name.copy(), args, results),
        children: Items::new(alloc),
        obligations,
    })
}

// What a call is to show, before and after.
fn obligations(
    alloc: Global,
    context: &Context,
    spec: &Spec,
    step: &CallStep,
    head: &ProcHead,
) -> Result<Items<Sequent>, ApplyError>
    requires values { length head.now.values ≡ length step.now.args }
    requires results { length head.now.results ≡ length step.now.results }
    ensures made { IfOk result (λ qs. qs ≡ call_obligations context.now spec.now step.now head.now) }
    ensures small { IfOk result (λ _. call_small context.now spec.now step.now head.now ≡ true) }
    ensures err { IfErr result (IsLimitRefusal (call_small context.now spec.now step.now head.now)) }
{
    let mut obligations = before_call(alloc, &context.scope, spec, step, head)?;
    obligations.append(after_call(alloc, &context.scope, spec, step, head)?)?;
    Ok(obligations)
}

// The arguments are defined, and meet the precondition.
fn before_call(
    alloc: Global,
    scope: &Scope,
    spec: &Spec,
    step: &CallStep,
    head: &ProcHead,
) -> Result<Items<Sequent>, ApplyError>
    requires { length head.now.values ≡ length step.now.args }
    ensures made { IfOk result (λ qs. qs ≡ before_call scope.now spec.now step.now head.now) }
    ensures small { IfOk result (λ _. before_small scope.now step.now head.now ≡ true) }
    ensures err { IfErr result (IsLimitRefusal (before_small scope.now step.now head.now)) }
{
    let defined = all_defined(alloc, scope, step.args.as_slice())?;
    let pre = asked(alloc, step, head)?;
    let mut obligations = given(alloc, scope, spec, defined)?;
    obligations.append(given(alloc, scope, spec, pre)?)?;
    Ok(obligations)
}

// The obligation that the precondition gives a formula, alone in a list.
fn given(
    alloc: Global,
    scope: &Scope,
    spec: &Spec,
    formula: Boxed<Formula>,
) -> Result<Items<Sequent>, AllocError>
    ensures { IfOk result (λ qs. qs ≡ sequent_over scope.now (spec.now.pre ∷ []) (formula ∷ []) ∷ []) }
{
    let left = one_formula(alloc, &spec.pre)?;
    let right = alone(alloc, formula)?;
    owed(alloc, scope, left, right)
}

// What the procedure promises gives the postcondition, alone in a list.
fn after_call(
    alloc: Global,
    scope: &Scope,
    spec: &Spec,
    step: &CallStep,
    head: &ProcHead,
) -> Result<Items<Sequent>, ApplyError>
    requires values { length head.now.values ≡ length step.now.args }
    requires results { length head.now.results ≡ length step.now.results }
    ensures made { IfOk result (λ qs. qs ≡ after_call scope.now spec.now step.now head.now ∷ []) }
    ensures small { IfOk result (λ _. after_small spec.now step.now head.now ≡ true) }
    ensures err { IfErr result (IsLimitRefusal (after_small spec.now step.now head.now)) }
{
    let pre = initial_pre(alloc, spec)?;
    let called = promised(alloc, spec, step, head)?;
    let post = wanted(alloc, spec, step)?;
    let left = two(alloc, pre, called)?;
    let right = alone(alloc, post)?;
    Ok(owed(alloc, scope, left, right)?)
}
