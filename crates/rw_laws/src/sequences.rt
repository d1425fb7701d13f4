//! The laws of sequences.

ghost use Rattle.std.specs.Prelude.{◌≡◌, [], ◌∷◌, length, IfOk, IfErr};
ghost use Rattle.rw_laws.specs.Laws.{in_scope, kid, seq_premises, seq_law, seqcon_law, Makes, IsRefusal};
ghost use Rattle.rw_derived.specs.Derived.{pinned, with_constants};

use crate::premises::Premises;
use rw_derived::causes::{seq_cause, seqcon_cause};
use rw_derived::derived::{both_pinned, with_constants};
use rw_derived::making::one_kid;
use rw_derived::refusing::{refuse, refuse_large};
use rw_items::{Boxed, Items};
use rw_programs::applied::{ApplyError, Child, Context};
use rw_programs::copying::copy_list;
use rw_programs::prog::Spec;
use rw_terms::copying::boxed;
use rw_terms::name::Name;
use rw_terms::scope::{Head, Scope};
use rw_terms::term::Formula;
use std::alloc::{AllocError, Global};

/// Two kids, with what holds between them.
#[tactic(auto, unfolding(crate::specs::Laws::seq_law))]
pub fn seq(
    alloc: Global,
    context: &Context,
    heads: &[Head],
    spec: &Spec,
    between: &Formula,
) -> Result<Premises, ApplyError>
    ensures ok { IfOk result (Makes (seq_law context.now heads.now spec.now between.now)) }
    ensures err { IfErr result (IsRefusal (seq_law context.now heads.now spec.now between.now)) }
{
    refuse(seq_cause(alloc, &context.scope, heads, spec, between)?)?;
    refuse_large(between)?;
    let first = boxed(alloc, between)?;
    let second = boxed(alloc, between)?;
    let post = boxed(alloc, &spec.post)?;
    Ok(Premises {
        children: two_kids(alloc, context, spec, first, second, post)?,
        obligations: Items::new(alloc),
    })
}

// The first part up to a formula, and the second from another one on.
fn two_kids(
    alloc: Global,
    context: &Context,
    spec: &Spec,
    first: Boxed<Formula>,
    second: Boxed<Formula>,
    post: Boxed<Formula>,
) -> Result<Items<Child>, AllocError>
    ensures { IfOk result (λ kids. kids ≡ kid context.now spec.now.frame spec.now.pre first ∷ kid context.now spec.now.frame second post ∷ []) }
{
    let pre = boxed(alloc, &spec.pre)?;
    let frame = copy_list(alloc, spec.frame.as_slice())?;
    let mut kids = one_kid(alloc, context.copy(alloc)?, frame, pre, first)?;
    let frame = copy_list(alloc, spec.frame.as_slice())?;
    kids.append(one_kid(alloc, context.copy(alloc)?, frame, second, post)?)?;
    Ok(kids)
}

/// The same, with constants for the first values of the frame.
#[tactic(auto, using(crate::proofs::Fitting::seqcon_long), unfolding(crate::specs::Laws::seqcon_law))]
pub fn seqcon(
    alloc: Global,
    context: &Context,
    heads: &[Head],
    spec: &Spec,
    names: &[Name],
    between: &Formula,
) -> Result<Premises, ApplyError>
    ensures ok { IfOk result (Makes (seqcon_law context.now heads.now spec.now names.now between.now)) }
    ensures err { IfErr result (IsRefusal (seqcon_law context.now heads.now spec.now names.now between.now)) }
{
    refuse(seqcon_cause(alloc, &context.scope, heads, spec, names, between)?)?;
    refuse_large(between)?;
    let (second, post) = both_pinned(alloc, spec, names, between)?;
    let first = boxed(alloc, between)?;
    let scope = with_constants(alloc, &context.scope, spec.frame.as_slice(), names)?;
    let inner = inside(alloc, context, scope)?;
    Ok(Premises {
        children: two_kids(alloc, &inner, spec, first, second, post)?,
        obligations: Items::new(alloc),
    })
}

/// The context with another scope.
pub fn inside(alloc: Global, context: &Context, scope: Scope) -> Result<Context, AllocError>
    ensures { IfOk result (λ inner. inner ≡ in_scope context.now scope) }
{
    Ok(Context {
        scope,
        opened: copy_list(alloc, context.opened.as_slice())?,
        order: context.order,
        inner: context.inner,
    })
}
