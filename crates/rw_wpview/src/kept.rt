//! Formulas that are kept while they are within the limits, and given up where they pass one.

ghost use Rattle.std.specs.Prelude.{◌≡◌, IfOk, IfErr};
ghost use Rattle.rw_terms.specs.declared.term.Formula.{Formula};
ghost use Rattle.rw_subst.specs.declared.slot.Slot.{Slot};
ghost use Rattle.rw_subst.specs.Definedness.{definedness_of};
ghost use Rattle.rw_subst.specs.Replaced.{replaced_formula, closed};
ghost use Rattle.rw_derived.specs.Making.{IsLargeRefusal};
ghost use Rattle.rw_loops.specs.Guards.{guards_definedness};
ghost use Rattle.rw_wpview.specs.Before.{for_all};
ghost use Rattle.rw_wpview.specs.Kept.{kept};

use rw_derived::derived::replaced;
use rw_derived::refusing::too_large;
use rw_faults::limits::is_small;
use rw_items::Boxed;
use rw_programs::applied::ApplyError;
use rw_subst::replace::close;
use rw_subst::slot::{Change, Slot};
use rw_terms::copying::boxed;
use rw_terms::name::Name;
use rw_terms::scope::Scope;
use rw_terms::term::{Formula, Sort, Term};
use std::alloc::{AllocError, Global};

/// The formula where it is within the limits.
pub fn kept(formula: Boxed<Formula>) -> Option<Boxed<Formula>>
    ensures { result ≡ kept formula }
{
    if is_small(formula.get()) {
        Some(formula)
    } else {
        None
    }
}

/// The formula again, where it is within the limits.
pub fn kept_copy(alloc: Global, formula: &Formula) -> Result<Option<Boxed<Formula>>, AllocError>
    ensures { IfOk result (λ o. o ≡ kept formula.now) }
{
    if is_small(formula) {
        Ok(Some(boxed(alloc, formula)?))
    } else {
        Ok(None)
    }
}

/// The same again.
pub fn again(
    alloc: Global,
    formula: &Option<Boxed<Formula>>,
) -> Result<Option<Boxed<Formula>>, AllocError>
    ensures { IfOk result (λ o. o ≡ formula.now) }
{
    match formula {
        Some(f) => Ok(Some(boxed(alloc, f.get())?)),
        None => Ok(None),
    }
}

/// `one and other`
pub fn both(
    alloc: Global,
    one: Option<Boxed<Formula>>,
    other: Option<Boxed<Formula>>,
) -> Result<Option<Boxed<Formula>>, AllocError>
    ensures { (f g : Formula) → one ≡ kept f → other ≡ kept g → IfOk result (λ o. o ≡ kept (Formula.And f g)) }
{
    match one {
        None => Ok(None),
        Some(one) => match other {
            None => Ok(None),
            Some(other) => Ok(kept(rw_terms::joining::both(alloc, one, other)?)),
        },
    }
}

/// `guard => behind`
pub fn implied(
    alloc: Global,
    guard: &Formula,
    behind: Option<Boxed<Formula>>,
) -> Result<Option<Boxed<Formula>>, AllocError>
    ensures { (f : Formula) → behind ≡ kept f → IfOk result (λ o. o ≡ kept (Formula.Imp guard.now f)) }
{
    match behind {
        None => Ok(None),
        Some(behind) => {
            let guard = boxed(alloc, guard)?;
            Ok(kept(Boxed::new(alloc, Formula::Imp(guard, behind))?))
        }
    }
}

/// The formula after changes.
pub fn changed(
    alloc: Global,
    formula: &Option<Boxed<Formula>>,
    changes: &[Change],
) -> Result<Option<Boxed<Formula>>, AllocError>
    ensures { (f : Formula) → formula.now ≡ kept f → IfOk result (λ o. o ≡ kept (replaced_formula changes.now f)) }
{
    match formula {
        None => Ok(None),
        Some(formula) => where_small(replaced(alloc, formula.get(), changes)),
    }
}

// A formula that passes a limit is given up.
fn where_small(
    made: Result<Boxed<Formula>, ApplyError>,
) -> Result<Option<Boxed<Formula>>, AllocError>
    ensures { (f : Formula) → IfOk made (λ g. g ≡ f) → IfErr made (IsLargeRefusal f) → IfOk result (λ o. o ≡ kept f) }
{
    match made {
        Ok(formula) => Ok(kept(formula)),
        Err(ApplyError::Misfit(_)) => Ok(None),
        Err(ApplyError::Memory) => Err(AllocError),
    }
}

/// The terms are defined.
pub fn defined(
    alloc: Global,
    scope: &Scope,
    terms: &[Term],
) -> Result<Option<Boxed<Formula>>, AllocError>
    ensures { IfOk result (λ o. o ≡ kept (definedness_of scope.now terms.now)) }
{
    where_small(rw_derived::derived::all_defined(alloc, scope, terms))
}

/// The guards are defined.
pub fn guards_defined(
    alloc: Global,
    scope: &Scope,
    guards: &[Formula],
) -> Result<Option<Boxed<Formula>>, AllocError>
    ensures { IfOk result (λ o. o ≡ kept (guards_definedness scope.now guards.now)) }
{
    where_small(rw_loops::guards::all_defined(alloc, scope, guards))
}

/// The formula whatever the value of a variable.
pub fn for_all(
    alloc: Global,
    name: &Name,
    sort: Sort,
    formula: &Option<Boxed<Formula>>,
) -> Result<Option<Boxed<Formula>>, AllocError>
    ensures { (f : Formula) → formula.now ≡ kept f → IfOk result (λ o. o ≡ kept (for_all name.now sort f)) }
{
    let body = closed(alloc, name, formula)?;
    quantified(alloc, sort, body)
}

fn quantified(
    alloc: Global,
    sort: Sort,
    body: Option<Boxed<Formula>>,
) -> Result<Option<Boxed<Formula>>, AllocError>
    ensures { (f : Formula) → body ≡ kept f → IfOk result (λ o. o ≡ kept (Formula.All sort f)) }
{
    match body {
        None => Ok(None),
        Some(body) => Ok(kept(Boxed::new(alloc, Formula::All(sort, body))?)),
    }
}

fn closed(
    alloc: Global,
    name: &Name,
    formula: &Option<Boxed<Formula>>,
) -> Result<Option<Boxed<Formula>>, AllocError>
    ensures { (f : Formula) → formula.now ≡ kept f → IfOk result (λ o. o ≡ kept (closed (Slot.Var name.now) f)) }
{
    match formula {
        None => Ok(None),
        Some(formula) => where_small(closed_formula(alloc, name, formula.get())),
    }
}

fn closed_formula(
    alloc: Global,
    name: &Name,
    formula: &Formula,
) -> Result<Boxed<Formula>, ApplyError>
    ensures made { IfOk result (λ f. f ≡ closed (Slot.Var name.now) formula.now) }
    ensures err { IfErr result (IsLargeRefusal (closed (Slot.Var name.now) formula.now)) }
{
    match close(alloc, formula, &Slot::Var(name.copy())) {
        Ok(body) => Ok(Boxed::new(alloc, body)?),
        Err(error) => Err(too_large(error)),
    }
}
