//! The first cause why a law does not fit, but for limits.

ghost use Rattle.std.specs.Prelude.{◌≡◌, IfOk};
ghost use Rattle.rw_subst.specs.Conj.{disj};
ghost use Rattle.rw_terms.specs.Same.{same_formula};
ghost use Rattle.rw_loops.specs.Code.{speaks_of_module, is_code_in, code_misfit};
ghost use Rattle.rw_loops.specs.Laws.{not_below_0, loop_post, loop_code, do_misfit, block_misfit};

use crate::guards::any_guard;
use rw_derived::parts::is_module_kind;
use rw_faults::faults::is_ill_sorted;
use rw_faults::initial::initial_outside;
use rw_faults::unknown::unknown_in;
use rw_items::Boxed;
use rw_programs::applied::Misfit;
use rw_programs::code::is_guard;
use rw_programs::prog::Spec;
use rw_terms::copying::boxed;
use rw_terms::formed::is_sort;
use rw_terms::mention::free_in;
use rw_terms::name::Name;
use rw_terms::sameness::same;
use rw_terms::scope::{Head, Scope};
use rw_terms::term::{Formula, Sort, Term};
use std::alloc::{AllocError, Global};

/// A formula that may not stand in code.
#[tactic(auto, unfolding(crate::specs::Code::code_misfit))]
pub fn code_misfit(
    alloc: Global,
    scope: &Scope,
    heads: &[Head],
    formula: &Formula,
) -> Result<Option<Misfit>, AllocError>
    ensures { IfOk result (λ m. m ≡ code_misfit scope.now heads.now formula.now) }
{
    if initial_outside(&[], formula) {
        return Ok(Some(Misfit::InitialNotAllowed));
    }
    if !is_code_in(scope, formula) {
        return Ok(Some(Misfit::NotCode));
    }
    if is_ill_sorted(alloc, scope, heads, &[], formula)? {
        return Ok(Some(Misfit::Sort));
    }
    if unknown_in(scope, heads, formula).is_some() {
        return Ok(Some(Misfit::Unknown));
    }
    Ok(None)
}

fn is_code_in(scope: &Scope, formula: &Formula) -> bool
    ensures { result ≡ is_code_in scope.now formula.now }
{
    is_guard(formula) && !speaks_of_module(scope, formula)
}

fn speaks_of_module(scope: &Scope, formula: &Formula) -> bool
    ensures { result ≡ speaks_of_module scope.now formula.now }
{
    for entry in scope.entries() {
        if is_module_kind(entry.kind) && free_in(&entry.name, formula) {
            return true;
        }
    }
    false
}

/// Guards of an alternation that may not stand in code.
pub fn if_misfit(
    alloc: Global,
    scope: &Scope,
    heads: &[Head],
    guards: &[Formula],
) -> Result<Option<Misfit>, AllocError>
    ensures { IfOk result (λ m. m ≡ code_misfit scope.now heads.now (disj guards.now)) }
{
    let any = any_guard(alloc, guards)?;
    code_misfit(alloc, scope, heads, any.get())
}

/// A postcondition that is not that of the loop, or a variant and guards that may not stand in code.
pub fn do_misfit(
    alloc: Global,
    scope: &Scope,
    heads: &[Head],
    spec: &Spec,
    variant: &Term,
    guards: &[Formula],
) -> Result<Option<Misfit>, AllocError>
    ensures { IfOk result (λ m. m ≡ do_misfit scope.now heads.now spec.now variant.now guards.now) }
{
    let post = loop_post(alloc, spec, guards)?;
    if !same_formula(&spec.post, post.get()) {
        return Ok(Some(Misfit::Shape));
    }
    let code = loop_code(alloc, variant, guards)?;
    code_misfit(alloc, scope, heads, code.get())
}

fn same_formula(one: &Formula, other: &Formula) -> bool
    ensures { result ≡ same_formula one.now other.now }
{
    same(one, other)
}

// The invariant holds, and no guard does.
fn loop_post(alloc: Global, spec: &Spec, guards: &[Formula]) -> Result<Boxed<Formula>, AllocError>
    ensures { IfOk result (λ f. f ≡ loop_post spec.now guards.now) }
{
    let any = any_guard(alloc, guards)?;
    let none = Boxed::new(alloc, Formula::Not(any))?;
    let pre = boxed(alloc, &spec.pre)?;
    Boxed::new(alloc, Formula::And(pre, none))
}

// The variant and the guards as one formula.
fn loop_code(
    alloc: Global,
    variant: &Term,
    guards: &[Formula],
) -> Result<Boxed<Formula>, AllocError>
    ensures { IfOk result (λ f. f ≡ loop_code variant.now guards.now) }
{
    let bound = not_below_0(alloc, variant)?;
    let any = any_guard(alloc, guards)?;
    Boxed::new(alloc, Formula::And(bound, any))
}

/// The variant is not below 0.
pub fn not_below_0(alloc: Global, variant: &Term) -> Result<Boxed<Formula>, AllocError>
    ensures { IfOk result (λ f. f ≡ not_below_0 variant.now) }
{
    let variant = variant.copy(alloc)?;
    Boxed::new(alloc, Formula::AtMost(Term::Lit(0), variant))
}

/// A local whose name is in scope, or that has no sort. It takes no memory.
pub fn block_misfit(scope: &Scope, name: &Name, sort: Sort) -> Option<Misfit>
    ensures { result ≡ block_misfit scope.now name.now sort }
{
    if scope.find(name).is_some() {
        return Some(Misfit::NotFresh);
    }
    if !is_sort(sort) {
        return Some(Misfit::Sort);
    }
    None
}
