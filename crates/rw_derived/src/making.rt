//! Kids and obligations, made.

ghost use Rattle.std.specs.Prelude.{◌≡◌, [], ◌∷◌, IfOk};
ghost use Rattle.rw_derived.specs.Making.{sequent_over, kid};

use rw_items::{Boxed, Items};
use rw_programs::applied::{Child, Context};
use rw_programs::prog::Spec;
use rw_terms::name::Name;
use rw_terms::naming::names_of;
use rw_terms::scope::Scope;
use rw_terms::sequent::Sequent;
use rw_terms::term::Formula;
use std::alloc::{AllocError, Global};

/// The formula again, alone in a list.
pub fn one_formula(alloc: Global, formula: &Formula) -> Result<Items<Formula>, AllocError>
    ensures { IfOk result (λ fs. fs ≡ formula.now ∷ []) }
{
    let mut formulas = Items::new(alloc);
    formulas.push(formula.copy(alloc)?)?;
    Ok(formulas)
}

/// The obligation that the left formulas give the right ones, alone in a list.
pub fn owed(
    alloc: Global,
    scope: &Scope,
    left: Items<Formula>,
    right: Items<Formula>,
) -> Result<Items<Sequent>, AllocError>
    ensures { IfOk result (λ qs. qs ≡ sequent_over scope.now left right ∷ []) }
{
    let mut obligations = Items::new(alloc);
    obligations.push(sequent_over(alloc, scope, left, right)?)?;
    Ok(obligations)
}

// The sequent of these formulas, with their names.
fn sequent_over(
    alloc: Global,
    scope: &Scope,
    left: Items<Formula>,
    right: Items<Formula>,
) -> Result<Sequent, AllocError>
    ensures { IfOk result (λ q. q ≡ sequent_over scope.now left right) }
{
    Ok(Sequent {
        names: names_of(alloc, scope, left.as_slice(), right.as_slice())?,
        left,
        right,
    })
}

/// A kid's specification in its context, alone in a list.
pub fn one_kid(
    alloc: Global,
    context: Context,
    frame: Items<Name>,
    pre: Boxed<Formula>,
    post: Boxed<Formula>,
) -> Result<Items<Child>, AllocError>
    ensures { IfOk result (λ kids. kids ≡ kid context frame pre post ∷ []) }
{
    let mut kids = Items::new(alloc);
    kids.push(kid(context, frame, pre, post))?;
    Ok(kids)
}

fn kid(context: Context, frame: Items<Name>, pre: Boxed<Formula>, post: Boxed<Formula>) -> Child
    ensures { result ≡ kid context frame pre post }
{
    Child {
        context,
        spec: Spec {
            frame,
            pre: pre.into_inner(),
            post: post.into_inner(),
        },
    }
}

/// A boxed formula, alone in a list.
pub fn alone(alloc: Global, formula: Boxed<Formula>) -> Result<Items<Formula>, AllocError>
    ensures { IfOk result (λ fs. fs ≡ formula ∷ []) }
{
    let mut formulas = Items::new(alloc);
    formulas.push(formula.into_inner())?;
    Ok(formulas)
}

/// Two boxed formulas, in order.
pub fn two(
    alloc: Global,
    one: Boxed<Formula>,
    other: Boxed<Formula>,
) -> Result<Items<Formula>, AllocError>
    ensures { IfOk result (λ fs. fs ≡ one ∷ other ∷ []) }
{
    let mut formulas = alone(alloc, one)?;
    formulas.push(other.into_inner())?;
    Ok(formulas)
}
