//! Refusals by a cause.

ghost use Rattle.std.specs.Prelude.{◌≡◌, ◌⊎◌, true, false, None, Some, IfOk, IfErr};
ghost use Rattle.rw_terms.specs.declared.term.Formula.{Formula};
ghost use Rattle.rw_subst.specs.Limits.{IsFormulaRefusal};
ghost use Rattle.rw_faults.specs.Limits.{is_small};
ghost use Rattle.rw_faults.specs.Initial.{is_twice};
ghost use Rattle.rw_programs.specs.declared.applied.Misfit.{Misfit};

use rw_faults::initial::is_twice;
use rw_faults::limits::is_small;
use rw_programs::applied::{ApplyError, Misfit};
use rw_subst::error::SubstError;
use rw_terms::name::Name;
use rw_terms::term::Formula;

/// Refuses by the cause, if there is one.
pub fn refuse(cause: Option<Misfit>) -> Result<(), ApplyError>
    ensures ok { IfOk result (λ _. cause ≡ None) }
    ensures err { IfErr result (λ e. (m : Misfit) × (cause ≡ Some m) × (e ≡ ApplyError.Misfit m)) }
{
    match cause {
        Some(misfit) => Err(ApplyError::Misfit(misfit)),
        None => Ok(()),
    }
}

/// Refuses a formula that passes a limit.
pub fn refuse_large(formula: &Formula) -> Result<(), ApplyError>
    ensures ok { IfOk result (λ _. is_small formula.now ≡ true) }
    ensures err { IfErr result (λ e. (is_small formula.now ≡ false) × (e ≡ ApplyError.Misfit Misfit.TooLarge)) }
{
    if is_small(formula) {
        Ok(())
    } else {
        Err(ApplyError::Misfit(Misfit::TooLarge))
    }
}

/// Refuses a list in which a name stands twice.
pub fn refuse_twice(names: &[Name]) -> Result<(), ApplyError>
    ensures ok { IfOk result (λ _. is_twice names.now ≡ false) }
    ensures err { IfErr result (λ e. (is_twice names.now ≡ true) × (e ≡ ApplyError.Misfit Misfit.Alias)) }
{
    if is_twice(names) {
        Err(ApplyError::Misfit(Misfit::Alias))
    } else {
        Ok(())
    }
}

/// A derived formula that passes a limit is a misfit.
pub fn too_large(error: SubstError) -> ApplyError
    ensures { (f : Formula) → IsFormulaRefusal f error → (result ≡ ApplyError.Memory) ⊎ ((is_small f ≡ false) × (result ≡ ApplyError.Misfit Misfit.TooLarge)) }
{
    match error {
        SubstError::TooLarge(_) => ApplyError::Misfit(Misfit::TooLarge),
        SubstError::Memory => ApplyError::Memory,
    }
}
