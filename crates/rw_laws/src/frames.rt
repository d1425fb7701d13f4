//! The laws of smaller and larger frames.

ghost use Rattle.std.specs.Prelude.{◌≡◌, ◌++◌, true, false, nat_le, length, IfOk, IfErr};
ghost use Rattle.rw_terms.specs.declared.term.Formula.{Formula};
ghost use Rattle.rw_laws.specs.Laws.{contract_law, expand_law, Makes, IsRefusal};

use crate::premises::Premises;
use rw_derived::causes::{contract_cause, expand_cause};
use rw_derived::derived::{contracted_post, expanded_post, without};
use rw_derived::making::one_kid;
use rw_derived::refusing::{refuse, refuse_twice};
use rw_items::Items;
use rw_programs::applied::{ApplyError, Context, Misfit};
use rw_programs::copying::copy_list;
use rw_programs::prog::Spec;
use rw_terms::copying::boxed;
use rw_terms::name::Name;
use std::alloc::{AllocError, Global};

/// The names that a frame may have at most.
pub const MOST_NAMES: usize = 64;

/// Names leave the frame.
#[tactic(auto, unfolding(crate::specs::Laws::contract_law))]
pub fn contract(
    alloc: Global,
    context: &Context,
    spec: &Spec,
    names: &[Name],
) -> Result<Premises, ApplyError>
    ensures ok { IfOk result (Makes (contract_law context.now spec.now names.now)) }
    ensures err { IfErr result (IsRefusal (contract_law context.now spec.now names.now)) }
{
    refuse(contract_cause(spec, names))?;
    let post = contracted_post(alloc, spec, names)?;
    refuse_twice(names)?;
    let frame = without(alloc, names, spec.frame.as_slice())?;
    let pre = boxed(alloc, &spec.pre)?;
    Ok(Premises {
        children: one_kid(alloc, context.copy(alloc)?, frame, pre, post)?,
        obligations: Items::new(alloc),
    })
}

/// Names enter the frame.
#[tactic(auto, unfolding(crate::specs::Laws::expand_law))]
pub fn expand(
    alloc: Global,
    context: &Context,
    spec: &Spec,
    names: &[Name],
) -> Result<Premises, ApplyError>
    ensures ok { IfOk result (Makes (expand_law context.now spec.now names.now)) }
    ensures err { IfErr result (IsRefusal (expand_law context.now spec.now names.now)) }
{
    refuse(expand_cause(&context.scope, spec, names))?;
    refuse_long(spec.frame.as_slice(), names)?;
    let post = expanded_post(alloc, spec, names)?;
    let frame = wider(alloc, spec, names)?;
    refuse_twice(names)?;
    let pre = boxed(alloc, &spec.pre)?;
    Ok(Premises {
        children: one_kid(alloc, context.copy(alloc)?, frame, pre, post)?,
        obligations: Items::new(alloc),
    })
}

// The frame with more names.
fn wider(alloc: Global, spec: &Spec, names: &[Name]) -> Result<Items<Name>, AllocError>
    ensures { IfOk result (λ frame. frame ≡ spec.now.frame ++ names.now) }
{
    let mut frame = copy_list(alloc, spec.frame.as_slice())?;
    frame.append(copy_list(alloc, names)?)?;
    Ok(frame)
}

// Refuses names that the frame has no room for.
fn refuse_long(frame: &[Name], names: &[Name]) -> Result<(), ApplyError>
    ensures ok { IfOk result (λ _. nat_le (length (frame.now ++ names.now)) 64 ≡ true) }
    ensures err { IfErr result (λ e. (nat_le (length (frame.now ++ names.now)) 64 ≡ false) × (e ≡ ApplyError.Misfit Misfit.TooLarge)) }
{
    if frame.len() + names.len() <= MOST_NAMES {
        Ok(())
    } else {
        Err(ApplyError::Misfit(Misfit::TooLarge))
    }
}
