//! The law of local blocks.

ghost use Rattle.std.specs.Prelude.{◌≡◌, [], ◌∷◌, ◌++◌, IfOk, IfErr};
ghost use Rattle.rw_laws.specs.Laws.{Makes, IsRefusal};
ghost use Rattle.rw_loops.specs.Laws.{with_local, block_premises, block_law};

use crate::causes::block_misfit;
use crate::limits::refuse_large;
use rw_derived::making::one_kid;
use rw_derived::refusing::refuse;
use rw_items::Items;
use rw_laws::premises::Premises;
use rw_laws::sequences::inside;
use rw_programs::applied::{ApplyError, Context};
use rw_programs::copying::copy_list;
use rw_programs::prog::Spec;
use rw_terms::copying::boxed;
use rw_terms::name::Name;
use rw_terms::scope::{Entry, Kind, Scope};
use rw_terms::term::Sort;
use std::alloc::{AllocError, Global};

/// A local variable, which the kid may change too.
pub fn block(
    alloc: Global,
    context: &Context,
    spec: &Spec,
    name: &Name,
    sort: Sort,
) -> Result<Premises, ApplyError>
    ensures ok { IfOk result (Makes (block_law context.now spec.now name.now sort)) }
    ensures err { IfErr result (IsRefusal (block_law context.now spec.now name.now sort)) }
{
    refuse(block_misfit(&context.scope, name, sort))?;
    let premises = block_premises(alloc, context, spec, name, sort)?;
    refuse_large(&premises)?;
    Ok(premises)
}

fn block_premises(
    alloc: Global,
    context: &Context,
    spec: &Spec,
    name: &Name,
    sort: Sort,
) -> Result<Premises, AllocError>
    ensures { IfOk result (λ p. p ≡ block_premises context.now spec.now name.now sort) }
{
    let inner = with_local(alloc, context, name, sort)?;
    let mut frame = copy_list(alloc, spec.frame.as_slice())?;
    frame.push(name.copy())?;
    let pre = boxed(alloc, &spec.pre)?;
    let post = boxed(alloc, &spec.post)?;
    Ok(Premises {
        children: one_kid(alloc, inner, frame, pre, post)?,
        obligations: Items::new(alloc),
    })
}

// The context with the local last in its scope.
fn with_local(
    alloc: Global,
    context: &Context,
    name: &Name,
    sort: Sort,
) -> Result<Context, AllocError>
    ensures { IfOk result (λ inner. inner ≡ with_local context.now name.now sort) }
{
    let mut entries = entries_again(alloc, &context.scope)?;
    entries.push(Entry {
        name: name.copy(),
        sort,
        kind: Kind::Local,
    })?;
    inside(alloc, context, Scope::of_entries(entries))
}

fn entries_again(alloc: Global, scope: &Scope) -> Result<Items<Entry>, AllocError>
    ensures { IfOk result (λ entries. entries ≡ scope.now) }
{
    let mut entries = Items::new(alloc);
    for entry in scope.entries() {
        entries.push(entry.copy())?;
    }
    Ok(entries)
}
