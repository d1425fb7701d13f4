//! The law of constants.

ghost use Rattle.std.specs.Prelude.{◌≡◌, IfOk, IfErr};
ghost use Rattle.rw_laws.specs.Laws.{con_law, Makes, IsRefusal};

use crate::premises::Premises;
use crate::sequences::inside;
use rw_derived::causes::con_cause;
use rw_derived::derived::{pinned_pre, with_constant};
use rw_derived::making::one_kid;
use rw_derived::refusing::refuse;
use rw_items::Items;
use rw_programs::applied::{ApplyError, Context};
use rw_programs::copying::copy_list;
use rw_programs::prog::Spec;
use rw_terms::copying::boxed;
use rw_terms::name::Name;
use rw_terms::term::Term;
use std::alloc::Global;

/// A constant that has the value of a term.
#[tactic(auto, unfolding(crate::specs::Laws::con_law))]
pub fn con(
    alloc: Global,
    context: &Context,
    spec: &Spec,
    name: &Name,
    term: &Term,
) -> Result<Premises, ApplyError>
    ensures ok { IfOk result (Makes (con_law context.now spec.now name.now term.now)) }
    ensures err { IfErr result (IsRefusal (con_law context.now spec.now name.now term.now)) }
{
    refuse(con_cause(&context.scope, name, term))?;
    let pre = pinned_pre(alloc, spec, name, term)?;
    let scope = with_constant(alloc, &context.scope, name, term)?;
    let inner = inside(alloc, context, scope)?;
    let frame = copy_list(alloc, spec.frame.as_slice())?;
    let post = boxed(alloc, &spec.post)?;
    Ok(Premises {
        children: one_kid(alloc, inner, frame, pre, post)?,
        obligations: Items::new(alloc),
    })
}
