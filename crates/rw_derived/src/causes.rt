//! The first cause why a law does not fit, but for limits and for names twice in a list.

ghost use Rattle.std.specs.Prelude.{◌≡◌, IfOk};
ghost use Rattle.rw_derived.specs.Causes.{formula_cause, new_cause, seq_cause, seqcon_cause, con_cause, contract_cause, expand_cause};

use crate::derived::with_constants;
use crate::parts::{any_fixed, any_listed, any_new, are_fresh, are_listed, is_new};
use rw_faults::faults::{check_sorts, is_ill_sorted};
use rw_faults::initial::{initial_outside, term_outside};
use rw_faults::unknown::{unknown_in, unknown_in_term};
use rw_programs::applied::Misfit;
use rw_programs::prog::Spec;
use rw_terms::name::Name;
use rw_terms::scope::{Head, Scope};
use rw_terms::term::{Formula, Term};
use std::alloc::{AllocError, Global};

/// A formula that is ill-sorted, or has an unknown name.
#[tactic(auto, unfolding(crate::specs::Causes::formula_cause))]
pub fn formula_cause(
    alloc: Global,
    scope: &Scope,
    heads: &[Head],
    formula: &Formula,
) -> Result<Option<Misfit>, AllocError>
    ensures { IfOk result (λ m. m ≡ formula_cause scope.now heads.now formula.now) }
{
    if is_ill_sorted(alloc, scope, heads, &[], formula)? {
        return Ok(Some(Misfit::Sort));
    }
    if unknown_in(scope, heads, formula).is_some() {
        return Ok(Some(Misfit::Unknown));
    }
    Ok(None)
}

/// A new formula, in which no initial variables but those of these names may stand.
#[tactic(auto, unfolding(crate::specs::Causes::new_cause))]
pub fn new_cause(
    alloc: Global,
    scope: &Scope,
    heads: &[Head],
    names: &[Name],
    formula: &Formula,
) -> Result<Option<Misfit>, AllocError>
    ensures { IfOk result (λ m. m ≡ new_cause scope.now heads.now names.now formula.now) }
{
    if initial_outside(names, formula) {
        return Ok(Some(Misfit::InitialNotAllowed));
    }
    formula_cause(alloc, scope, heads, formula)
}

/// What holds between two parts.
#[tactic(auto, unfolding(crate::specs::Causes::seq_cause))]
pub fn seq_cause(
    alloc: Global,
    scope: &Scope,
    heads: &[Head],
    spec: &Spec,
    formula: &Formula,
) -> Result<Option<Misfit>, AllocError>
    ensures { IfOk result (λ m. m ≡ seq_cause scope.now heads.now spec.now formula.now) }
{
    if initial_outside(&[], &spec.post) {
        return Ok(Some(Misfit::InitialNotAllowed));
    }
    new_cause(alloc, scope, heads, &[], formula)
}

/// What holds between two parts, where constants are in scope.
#[tactic(auto, unfolding(crate::specs::Causes::seqcon_cause))]
pub fn seqcon_cause(
    alloc: Global,
    scope: &Scope,
    heads: &[Head],
    spec: &Spec,
    names: &[Name],
    formula: &Formula,
) -> Result<Option<Misfit>, AllocError>
    ensures { IfOk result (λ m. m ≡ seqcon_cause scope.now heads.now spec.now names.now formula.now) }
{
    if names.len() != spec.frame.len() {
        return Ok(Some(Misfit::Shape));
    }
    if initial_outside(spec.frame.as_slice(), formula) {
        return Ok(Some(Misfit::InitialNotAllowed));
    }
    if !are_fresh(scope, names) {
        return Ok(Some(Misfit::NotFresh));
    }
    let inner = with_constants(alloc, scope, spec.frame.as_slice(), names)?;
    formula_cause(alloc, &inner, heads, formula)
}

/// A constant and its term. It takes no memory.
#[tactic(auto, unfolding(crate::specs::Causes::con_cause))]
pub fn con_cause(scope: &Scope, name: &Name, term: &Term) -> Option<Misfit>
    ensures { result ≡ con_cause scope.now name.now term.now }
{
    if term_outside(&[], term) {
        return Some(Misfit::InitialNotAllowed);
    }
    if !is_new(scope, name) {
        return Some(Misfit::NotFresh);
    }
    if check_sorts(scope, &[], term).bad {
        return Some(Misfit::Sort);
    }
    if unknown_in_term(scope, term).is_some() {
        return Some(Misfit::Unknown);
    }
    None
}

/// Names that leave the frame. It takes no memory.
#[tactic(auto, unfolding(crate::specs::Causes::contract_cause))]
pub fn contract_cause(spec: &Spec, names: &[Name]) -> Option<Misfit>
    ensures { result ≡ contract_cause spec.now names.now }
{
    if !are_listed(spec.frame.as_slice(), names) {
        return Some(Misfit::NotInFrame);
    }
    None
}

/// Names that enter the frame. It takes no memory.
#[tactic(auto, unfolding(crate::specs::Causes::expand_cause))]
pub fn expand_cause(scope: &Scope, spec: &Spec, names: &[Name]) -> Option<Misfit>
    ensures { result ≡ expand_cause scope.now spec.now names.now }
{
    if any_listed(spec.frame.as_slice(), names) {
        return Some(Misfit::NotFresh);
    }
    if any_fixed(scope, names) {
        return Some(Misfit::NotInFrame);
    }
    if any_new(scope, names) {
        return Some(Misfit::Unknown);
    }
    None
}
