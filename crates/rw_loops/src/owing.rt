//! The obligations of a step.

ghost use Rattle.std.specs.Prelude.{◌≡◌, [], ◌∷◌, IfOk, IfErr};
ghost use Rattle.rw_laws.specs.Laws.{sequent_over, IsLargeRefusal};
ghost use Rattle.rw_subst.specs.Conj.{disj};
ghost use Rattle.rw_loops.specs.Guards.{guards_definedness};

use crate::guards::{all_defined, any_guard};
use rw_derived::making::{alone, one_formula, owed};
use rw_items::Items;
use rw_programs::applied::ApplyError;
use rw_terms::scope::Scope;
use rw_terms::sequent::Sequent;
use rw_terms::term::Formula;
use std::alloc::{AllocError, Global};

/// That the guards are defined where the precondition holds, alone in a list.
pub fn owed_defined(
    alloc: Global,
    scope: &Scope,
    pre: &Formula,
    guards: &[Formula],
) -> Result<Items<Sequent>, ApplyError>
    ensures ok { IfOk result (λ qs. qs ≡ sequent_over scope.now (pre.now ∷ []) (guards_definedness scope.now guards.now ∷ []) ∷ []) }
    ensures err { IfErr result (IsLargeRefusal (guards_definedness scope.now guards.now)) }
{
    let defined = all_defined(alloc, scope, guards)?;
    let left = one_formula(alloc, pre)?;
    let right = alone(alloc, defined)?;
    Ok(owed(alloc, scope, left, right)?)
}

/// That one of the guards holds where the precondition does, alone in a list.
pub fn owed_choice(
    alloc: Global,
    scope: &Scope,
    pre: &Formula,
    guards: &[Formula],
) -> Result<Items<Sequent>, AllocError>
    ensures { IfOk result (λ qs. qs ≡ sequent_over scope.now (pre.now ∷ []) (disj guards.now ∷ []) ∷ []) }
{
    let left = one_formula(alloc, pre)?;
    let right = alone(alloc, any_guard(alloc, guards)?)?;
    owed(alloc, scope, left, right)
}
