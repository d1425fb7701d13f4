//! Guards taken together.

ghost use Rattle.std.specs.Prelude.{◌≡◌, ◌<◌, length, true, IfOk, IfErr};
ghost use Rattle.rw_faults.specs.Limits.{is_small};
ghost use Rattle.rw_subst.specs.Definedness.{guard_definedness};
ghost use Rattle.rw_laws.specs.Laws.{IsLargeRefusal};
ghost use Rattle.rw_subst.specs.Conj.{disj};
ghost use Rattle.rw_loops.specs.Guards.{guards_definedness};

use rw_derived::refusing::too_large;
use rw_items::Boxed;
use rw_programs::applied::ApplyError;
use rw_subst::defined::defined_guard;
use rw_terms::copying::boxed;
use rw_terms::scope::Scope;
use rw_terms::term::Formula;
use std::alloc::{AllocError, Global};

/// The guards joined from the left by `or`. Of none it is `false`.
pub fn any_guard(alloc: Global, guards: &[Formula]) -> Result<Boxed<Formula>, AllocError>
    ensures { IfOk result (λ f. f ≡ disj guards.now) }
{
    if guards.is_empty() {
        return Boxed::new(alloc, Formula::False);
    }
    any_of(alloc, guards)
}

// Joins guards of which there is one at least.
fn any_of(alloc: Global, guards: &[Formula]) -> Result<Boxed<Formula>, AllocError>
    requires { 0 < length guards.now }
    ensures { IfOk result (λ f. f ≡ disj guards.now) }
{
    let mut any = boxed(alloc, &guards[0])?;
    for at in 1..guards.len() {
        any = either(alloc, any, &guards[at])?;
    }
    Ok(any)
}

fn either(alloc: Global, one: Boxed<Formula>, other: &Formula) -> Result<Boxed<Formula>, AllocError>
    ensures { IfOk result (λ f. f ≡ Formula.Or one other.now) }
{
    let other = boxed(alloc, other)?;
    Boxed::new(alloc, Formula::Or(one, other))
}

/// The formula that says that all terms of the guards are defined.
pub fn all_defined(
    alloc: Global,
    scope: &Scope,
    guards: &[Formula],
) -> Result<Boxed<Formula>, ApplyError>
    ensures made { IfOk result (λ f. f ≡ guards_definedness scope.now guards.now) }
    ensures err { IfErr result (IsLargeRefusal (guards_definedness scope.now guards.now)) }
{
    let any = any_guard(alloc, guards)?;
    is_defined(alloc, scope, any)
}

// The same of one guard.
fn is_defined(
    alloc: Global,
    scope: &Scope,
    guard: Boxed<Formula>,
) -> Result<Boxed<Formula>, ApplyError>
    ensures made { IfOk result (λ f. f ≡ guard_definedness scope.now guard) }
    ensures err { IfErr result (IsLargeRefusal (guard_definedness scope.now guard)) }
{
    match defined_guard(alloc, scope, guard.get()) {
        Ok(defined) => Ok(Boxed::new(alloc, defined)?),
        Err(error) => Err(too_large(error)),
    }
}
