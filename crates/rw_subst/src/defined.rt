//! Where a term and a guard are defined, as a formula.

ghost use Rattle.std.specs.Prelude.{◌≡◌, min, IfOk, IfErr};
ghost use Rattle.rw_terms.specs.WellFormed.{IsSmallFormula};
ghost use Rattle.rw_terms.specs.Size.{formula_weight, formula_depth};
ghost use Rattle.rw_subst.specs.Conj.{size_or_one};
ghost use Rattle.rw_subst.specs.Definedness.{definedness, guard_definedness, definedness_of};
ghost use Rattle.rw_subst.specs.Limits.{IsFormulaRefusal};

use crate::conditions::{ask_guard, ask_term, ask_terms, join};
use crate::counting::{count_guard, count_term, count_terms};
use crate::error::SubstError;
use crate::size::{ONE, Size, fit};
use rw_items::Items;
use rw_terms::scope::Scope;
use rw_terms::term::{Formula, Term};
use std::alloc::Global;

/// The formula that says that no divisor in the term is 0, and each index is in range. The term is to be well-formed.
/// Its size is reckoned first, and none is built that passes a limit.
pub fn defined(alloc: Global, scope: &Scope, term: &Term) -> Result<Formula, SubstError>
    ensures defined { IfOk result (λ f. f ≡ definedness scope.now term.now) }
    ensures small { IfOk result IsSmallFormula }
    ensures large { IfErr result (IsFormulaRefusal (definedness scope.now term.now)) }
{
    fit(size_of_definedness(scope, term))?;
    let mut found = Items::new(alloc);
    ask_term(alloc, scope, term, &mut found)?;
    Ok(join(alloc, found)?)
}

/// The same for all terms of a guard, whatever its connectives. The guard is to be well-formed, and to have no quantifier and no
/// predicate.
pub fn defined_guard(alloc: Global, scope: &Scope, guard: &Formula) -> Result<Formula, SubstError>
    ensures defined { IfOk result (λ f. f ≡ guard_definedness scope.now guard.now) }
    ensures small { IfOk result IsSmallFormula }
    ensures large { IfErr result (IsFormulaRefusal (guard_definedness scope.now guard.now)) }
{
    fit(size_of_guard_definedness(scope, guard))?;
    let mut found = Items::new(alloc);
    ask_guard(alloc, scope, guard, &mut found)?;
    Ok(join(alloc, found)?)
}

/// The same for terms, one after another.
pub fn defined_terms(alloc: Global, scope: &Scope, terms: &[Term]) -> Result<Formula, SubstError>
    ensures defined { IfOk result (λ f. f ≡ definedness_of scope.now terms.now) }
    ensures small { IfOk result IsSmallFormula }
    ensures large { IfErr result (IsFormulaRefusal (definedness_of scope.now terms.now)) }
{
    fit(size_of_all_definedness(scope, terms))?;
    let mut found = Items::new(alloc);
    ask_terms(alloc, scope, terms, &mut found)?;
    Ok(join(alloc, found)?)
}

fn size_of_definedness(scope: &Scope, term: &Term) -> Size
    ensures weight { result.weight ≡ min (formula_weight (definedness scope.now term.now)) u32.MAX }
    ensures depth { result.depth ≡ min (formula_depth (definedness scope.now term.now)) u32.MAX }
{
    size_or_one(count_term(scope, term, None))
}

fn size_of_all_definedness(scope: &Scope, terms: &[Term]) -> Size
    ensures weight { result.weight ≡ min (formula_weight (definedness_of scope.now terms.now)) u32.MAX }
    ensures depth { result.depth ≡ min (formula_depth (definedness_of scope.now terms.now)) u32.MAX }
{
    size_or_one(count_terms(scope, terms, None))
}

fn size_of_guard_definedness(scope: &Scope, guard: &Formula) -> Size
    ensures weight { result.weight ≡ min (formula_weight (guard_definedness scope.now guard.now)) u32.MAX }
    ensures depth { result.depth ≡ min (formula_depth (guard_definedness scope.now guard.now)) u32.MAX }
{
    size_or_one(count_guard(scope, guard, None))
}

fn size_or_one(all: Option<Size>) -> Size
    ensures { result ≡ size_or_one all }
{
    all.unwrap_or(ONE)
}
