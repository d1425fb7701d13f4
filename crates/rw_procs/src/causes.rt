//! The first cause why a call does not fit, but for limits, order and names twice. These calls take no memory.

ghost use Rattle.std.specs.Prelude.{◌≡◌, [], ◌||◌, Some, None, map, option_copied};
ghost use Rattle.std.specs.Option.{option_map};
ghost use Rattle.rw_faults.specs.Faults.{any_bad, fit_in, bad_application, checked};
ghost use Rattle.rw_procs.specs.Causes.{wrong_args, wrong_names, wrong_results, head_of, call_cause};
ghost use Rattle.rw_procs.specs.Laws.{callee_of};

use rw_derived::parts::{are_assignable, are_code_terms, have_initial};
use rw_faults::faults::check_sorts;
use rw_faults::unknown::unknown_in_terms;
use rw_heads::head::ProcHead;
use rw_heads::step::CallStep;
use rw_programs::applied::Misfit;
use rw_programs::prog::{Param, Spec};
use rw_programs::sorted::is_of;
use rw_terms::formed::may_be;
use rw_terms::name::Name;
use rw_terms::scope::Scope;
use rw_terms::sorts::variable;
use rw_terms::term::Term;

/// The first cause why a call does not fit: of the procedure whose head is given, or of none.
#[tactic(auto, unfolding(crate::specs::Causes::call_cause))]
pub fn call_cause(
    scope: &Scope,
    spec: &Spec,
    head: Option<&ProcHead>,
    step: &CallStep,
) -> Option<Misfit>
    ensures { result ≡ call_cause scope.now spec.now.frame (option_map callee_of (option_copied head.entry)) step.now.args step.now.results }
{
    let args = step.args.as_slice();
    if have_initial(args) {
        return Some(Misfit::InitialNotAllowed);
    }
    if !are_code_terms(scope, args) {
        return Some(Misfit::NotCode);
    }
    if !are_assignable(scope, spec.frame.as_slice(), step.results.as_slice()) {
        return Some(Misfit::NotInFrame);
    }
    if is_wrong(scope, head, step) {
        return Some(Misfit::Sort);
    }
    if head.is_none() || unknown_in_terms(scope, args).is_some() {
        return Some(Misfit::Unknown);
    }
    None
}

// An argument is ill-sorted; or there are not as many arguments and results as the head has, each of its sort.
fn is_wrong(scope: &Scope, head: Option<&ProcHead>, step: &CallStep) -> bool
    ensures { result ≡ (wrong_args scope.now (option_map callee_of (option_copied head.entry)) step.now.args || wrong_results scope.now (option_map callee_of (option_copied head.entry)) step.now.results) }
{
    let args = step.args.as_slice();
    match head {
        Some(head) => {
            wrong_args(scope, head.values.as_slice(), args)
                || wrong_names(scope, head.results.as_slice(), step.results.as_slice())
        }
        None => any_bad(scope, args),
    }
}

/// Whether an argument is ill-sorted, or there are not as many as values, each of its value's sort.
pub fn wrong_args(scope: &Scope, values: &[Param], args: &[Term]) -> bool
    ensures { result ≡ bad_application (Some (head_of values.now)) (map (checked scope.now []) args.now) }
{
    any_bad(scope, args) || !fit_in(scope, values, args)
}

/// Whether some part of an argument has a sort that its rule does not take.
pub fn any_bad(scope: &Scope, args: &[Term]) -> bool
    ensures { result ≡ any_bad (map (checked scope.now []) args.now) }
{
    for arg in args {
        if check_sorts(scope, &[], arg).bad {
            return true;
        }
    }
    false
}

fn fit_in(scope: &Scope, values: &[Param], args: &[Term]) -> bool
    ensures { result ≡ fit_in (map (λ p. p.sort) values.now) (map (checked scope.now []) args.now) }
{
    if values.len() != args.len() {
        return false;
    }
    for i in 0..values.len() {
        if !may_be(values[i].sort, check_sorts(scope, &[], &args[i]).sort) {
            return false;
        }
    }
    true
}

/// Whether there are not as many names as results, each a variable of its result's sort.
#[tactic(auto, using(crate::proofs::Fitting::not_as_many))]
pub fn wrong_names(scope: &Scope, results: &[Param], names: &[Name]) -> bool
    ensures { result ≡ wrong_names scope.now results.now names.now }
{
    if results.len() != names.len() {
        return true;
    }
    for i in 0..results.len() {
        if !is_of(results[i].sort, variable(scope, &names[i])) {
            return true;
        }
    }
    false
}
