//! Quantifiers over declared names, in their order, the first outermost.

ghost use Rattle.std.specs.Prelude.{◌≡◌, ◌+◌, ◌≤◌, length, IfOk};
ghost use Rattle.rw_terms.specs.Size.{formula_weight, formula_depth};
ghost use Rattle.rw_terms.specs.WellFormed.{IsSmallFormula};
ghost use Rattle.rw_subst.specs.Replaced.{closed};
ghost use Rattle.rw_subst.specs.declared.slot.Slot.{Slot};
ghost use Rattle.rw_modules.specs.Quantified.{for_all, for_some};

use rw_items::Boxed;
use rw_programs::prog::Param;
use rw_subst::error::SubstError;
use rw_subst::replace::close;
use rw_subst::slot::Slot;
use rw_terms::term::Formula;
use std::alloc::{AllocError, Global};

/// The formula for all initial values of the names. It is to be within the limits.
pub fn for_all(
    alloc: Global,
    params: &[Param],
    formula: Boxed<Formula>,
) -> Result<Boxed<Formula>, AllocError>
    requires weight { length params.now + formula_weight formula ≤ 1024 }
    requires depth { length params.now + formula_depth formula ≤ 64 }
    ensures { IfOk result (λ f. f ≡ for_all (λ x. Slot.Init x) params.now formula) }
{
    let mut at = params.len();
    let mut all = formula;
    'names: while at > 0 {
        at -= 1;
        all = all_of(alloc, &params[at], all)?;
    }
    Ok(all)
}

/// The formula for some values of the names. It is to be within the limits.
pub fn for_some(
    alloc: Global,
    params: &[Param],
    formula: Boxed<Formula>,
) -> Result<Boxed<Formula>, AllocError>
    requires weight { length params.now + formula_weight formula ≤ 1024 }
    requires depth { length params.now + formula_depth formula ≤ 64 }
    ensures { IfOk result (λ f. f ≡ for_some (λ x. Slot.Var x) params.now formula) }
{
    let mut at = params.len();
    let mut some = formula;
    'names: while at > 0 {
        at -= 1;
        some = some_of(alloc, &params[at], some)?;
    }
    Ok(some)
}

// The formula for all initial values of one name.
fn all_of(
    alloc: Global,
    param: &Param,
    formula: Boxed<Formula>,
) -> Result<Boxed<Formula>, AllocError>
    requires { IsSmallFormula formula }
    ensures { IfOk result (λ f. f ≡ Formula.All param.now.sort (closed (Slot.Init param.now.name) formula)) }
{
    let inner = closed(alloc, formula.get(), &Slot::Init(param.name.copy()))?;
    Boxed::new(alloc, Formula::All(param.sort, inner))
}

// The formula for some values of one name.
fn some_of(
    alloc: Global,
    param: &Param,
    formula: Boxed<Formula>,
) -> Result<Boxed<Formula>, AllocError>
    requires { IsSmallFormula formula }
    ensures { IfOk result (λ f. f ≡ Formula.Any param.now.sort (closed (Slot.Var param.now.name) formula)) }
{
    let inner = closed(alloc, formula.get(), &Slot::Var(param.name.copy()))?;
    Boxed::new(alloc, Formula::Any(param.sort, inner))
}

// The formula with a loose binder for the slot, which is as large.
fn closed(alloc: Global, formula: &Formula, slot: &Slot) -> Result<Boxed<Formula>, AllocError>
    requires { IsSmallFormula formula.now }
    ensures { IfOk result (λ f. f ≡ closed slot.now formula.now) }
{
    match close(alloc, formula, slot) {
        Ok(made) => Boxed::new(alloc, made),
        Err(SubstError::Memory) => Err(AllocError),
        Err(SubstError::TooLarge(_)) => unreachable!(),
    }
}
