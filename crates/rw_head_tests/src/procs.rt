//! The tests of the head of a procedure.

ghost use Rattle.std.specs.Prelude.{◌≡◌, IfOk};
ghost use Rattle.rw_head_tests.specs.Procs.{head_scope, proc_unknown, proc_duplicate, proc_part, proc_limit, proc_refusal};

use crate::scopes::{
    first_again, head_scope, is_misplaced, part_of_two, scope_as, unknown_in_both,
};
use rw_edit_tests::entering::{are_few_together, duplicate, entry_limit};
use rw_edit_tests::refusal::EditRefusal;
use rw_edit_tests::root::is_ill_formed;
use rw_faults::limits::{is_light, is_shallow};
use rw_goals::library::Item;
use rw_heads::head::{Module, ProcHead};
use rw_heads::modules::has_module;
use rw_library::entries::{has_entry, heads_of};
use rw_terms::name::Name;
use rw_terms::scope::{Head, Kind, Scope};
use std::alloc::{AllocError, Global};

/// The first test that refuses the head of a procedure, but for that of the weight.
#[tactic(auto, unfolding(crate::specs::Procs::proc_refusal))]
pub fn proc_refusal(
    alloc: Global,
    entries: &[Item],
    modules: &[Module],
    order: &[Name],
    head: &ProcHead,
) -> Result<Option<EditRefusal>, AllocError>
    ensures { IfOk result (λ refusal. refusal ≡ proc_refusal entries.now modules.now order.now head.now) }
{
    let scope = head_scope(alloc, head.values.as_slice(), head.results.as_slice())?;
    let heads = heads_of(alloc, entries)?;
    if let Some(name) = proc_unknown(&scope, heads.as_slice(), head) {
        return Ok(Some(EditRefusal::Unknown(name)));
    }
    if let Some(refusal) = proc_duplicate(&scope, entries, modules, head) {
        return Ok(Some(refusal));
    }
    if let Some(part) = proc_part(alloc, &scope, heads.as_slice(), head)? {
        return Ok(Some(EditRefusal::Sort(part)));
    }
    Ok(proc_limit(order, head))
}

fn proc_unknown(scope: &Scope, heads: &[Head], head: &ProcHead) -> Option<Name>
    requires { scope.now ≡ head_scope head.now.values head.now.results }
    ensures { result ≡ proc_unknown heads.now head.now }
{
    unknown_in_both(scope, heads, &head.pre, &head.post)
}

fn proc_duplicate(
    scope: &Scope,
    entries: &[Item],
    modules: &[Module],
    head: &ProcHead,
) -> Option<EditRefusal>
    requires { scope.now ≡ head_scope head.now.values head.now.results }
    ensures { result ≡ proc_duplicate entries.now modules.now head.now }
{
    let clash = has_entry(&head.name, entries) || has_module(&head.name, modules);
    duplicate(clash, &head.name, first_again(scope.entries()))
}

// The first part that is ill-formed: the precondition is part 1, the postcondition part 2.
fn proc_part(
    alloc: Global,
    scope: &Scope,
    heads: &[Head],
    head: &ProcHead,
) -> Result<Option<u32>, AllocError>
    requires { scope.now ≡ head_scope head.now.values head.now.results }
    ensures { IfOk result (λ part. part ≡ proc_part heads.now head.now) }
{
    let values = scope_as(alloc, Kind::Value, head.values.as_slice())?;
    let pre = is_misplaced(alloc, &values, heads, &[], &head.pre)?;
    let post = is_ill_formed(alloc, scope, heads, &[], &head.post)?;
    Ok(part_of_two(pre, post))
}

fn proc_limit(order: &[Name], head: &ProcHead) -> Option<EditRefusal>
    ensures { result ≡ proc_limit order.now head.now }
{
    let light = is_light(&head.pre) && is_light(&head.post);
    let shallow = is_shallow(&head.pre) && is_shallow(&head.post);
    let few = are_few_together(head.values.as_slice(), head.results.as_slice());
    entry_limit(light, shallow, few, &head.name, order)
}
