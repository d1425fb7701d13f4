//! The tests of an operation of a module.

ghost use Rattle.std.specs.Prelude.{◌≡◌, [], IfOk};
ghost use Rattle.std.specs.List.{list_all};
ghost use Rattle.rw_faults.specs.Initial.{is_listed};
ghost use Rattle.rw_head_tests.specs.Procs.{is_misplaced};
ghost use Rattle.rw_head_tests.specs.Modules.{oper_scope, before_scope, after_scope, frame_unknown_in, oper_unknown, oper_again, is_own, is_frame, abstract_in, oper_part, oper_limit, counts_limit, own_refusal, oper_refusal, is_lost};

use crate::scopes::{first_again, is_misplaced, part_of_two, push_as, unknown_in_both};
use rw_edit_tests::entering::{MOST_PARAMS, are_few_together, repeated};
use rw_edit_tests::refusal::{EditRefusal, Which};
use rw_edit_tests::root::MOST_GLOBALS;
use rw_faults::initial::{is_listed, is_twice};
use rw_faults::limits::{is_light, is_shallow};
use rw_goals::library::Item;
use rw_heads::head::{Module, Oper};
use rw_heads::modules::find_module;
use rw_heads::operations::has_oper;
use rw_items::Items;
use rw_library::entries::heads_of;
use rw_programs::prog::Param;
use rw_terms::name::Name;
use rw_terms::scope::{Head, Kind, Scope};
use rw_terms::sorts::{MOST_DEPTH, MOST_PARTS, variable};
use rw_trees::globals::is_param;
use std::alloc::{AllocError, Global};

const MOST_OPERATIONS: u32 = 32;

/// The first test that refuses the operation of the module of a name, but for that of the weight.
pub fn oper_refusal(
    alloc: Global,
    entries: &[Item],
    modules: &[Module],
    name: &Name,
    oper: &Oper,
) -> Result<Option<EditRefusal>, AllocError>
    ensures { IfOk result (λ refusal. refusal ≡ oper_refusal entries.now modules.now name.now oper.now) }
{
    match find_module(name, modules) {
        None => Ok(Some(EditRefusal::Unknown(name.copy()))),
        Some(module) => own_refusal(alloc, entries, module, oper),
    }
}

#[tactic(auto, unfolding(crate::specs::Modules::own_refusal))]
fn own_refusal(
    alloc: Global,
    entries: &[Item],
    module: &Module,
    oper: &Oper,
) -> Result<Option<EditRefusal>, AllocError>
    ensures { IfOk result (λ refusal. refusal ≡ own_refusal entries.now module.now oper.now) }
{
    let scope = oper_scope(alloc, module, oper)?;
    let heads = heads_of(alloc, entries)?;
    if let Some(name) = oper_unknown(&scope, heads.as_slice(), module, oper) {
        return Ok(Some(EditRefusal::Unknown(name)));
    }
    if let Some(refusal) = repeated(oper_again(&scope, module, oper)) {
        return Ok(Some(refusal));
    }
    if let Some(part) = oper_part(alloc, heads.as_slice(), module, oper)? {
        return Ok(Some(EditRefusal::Sort(part)));
    }
    Ok(oper_limit(module, oper))
}

// All names of an operation: those of the module, its values and its results.
fn oper_scope(alloc: Global, module: &Module, oper: &Oper) -> Result<Scope, AllocError>
    ensures { IfOk result (λ scope. scope ≡ oper_scope module.now oper.now) }
{
    let mut names = Items::new(alloc);
    push_as(&mut names, Kind::Module, module.state.as_slice())?;
    push_as(&mut names, Kind::Local, module.concrete.as_slice())?;
    push_as(&mut names, Kind::Value, oper.values.as_slice())?;
    push_as(&mut names, Kind::Outcome, oper.results.as_slice())?;
    Ok(Scope::of_entries(names))
}

// The names before an operation: the abstract state and the values.
fn before_scope(alloc: Global, module: &Module, oper: &Oper) -> Result<Scope, AllocError>
    ensures { IfOk result (λ scope. scope ≡ before_scope module.now oper.now) }
{
    let mut names = Items::new(alloc);
    push_as(&mut names, Kind::Module, module.state.as_slice())?;
    push_as(&mut names, Kind::Value, oper.values.as_slice())?;
    Ok(Scope::of_entries(names))
}

// The names after an operation: with its results.
fn after_scope(alloc: Global, module: &Module, oper: &Oper) -> Result<Scope, AllocError>
    ensures { IfOk result (λ scope. scope ≡ after_scope module.now oper.now) }
{
    let mut names = Items::new(alloc);
    push_as(&mut names, Kind::Module, module.state.as_slice())?;
    push_as(&mut names, Kind::Value, oper.values.as_slice())?;
    push_as(&mut names, Kind::Outcome, oper.results.as_slice())?;
    Ok(Scope::of_entries(names))
}

fn oper_unknown(scope: &Scope, heads: &[Head], module: &Module, oper: &Oper) -> Option<Name>
    requires { scope.now ≡ oper_scope module.now oper.now }
    ensures { result ≡ oper_unknown heads.now module.now oper.now }
{
    let name = frame_unknown_in(scope, oper.spec.frame.as_slice());
    if name.is_some() {
        name
    } else {
        unknown_in_both(scope, heads, &oper.spec.pre, &oper.spec.post)
    }
}

fn frame_unknown_in(scope: &Scope, frame: &[Name]) -> Option<Name>
    ensures { result ≡ frame_unknown_in scope.now frame.now }
{
    for name in frame {
        if variable(scope, name).is_none() {
            return Some(name.copy());
        }
    }
    None
}

/// Whether the operation would be ill-formed in the module, or has a value or a result with the name of a variable of it.
#[tactic(auto, unfolding(crate::specs::Modules::is_lost))]
pub fn is_lost(
    alloc: Global,
    heads: &[Head],
    module: &Module,
    oper: &Oper,
) -> Result<bool, AllocError>
    ensures { IfOk result (λ b. b ≡ is_lost heads.now module.now oper.now) }
{
    let scope = oper_scope(alloc, module, oper)?;
    if oper_unknown(&scope, heads, module, oper).is_some() {
        return Ok(true);
    }
    if oper_again(&scope, module, oper).is_some() {
        return Ok(true);
    }
    Ok(oper_part(alloc, heads, module, oper)?.is_some())
}

fn oper_again(scope: &Scope, module: &Module, oper: &Oper) -> Option<Name>
    requires { scope.now ≡ oper_scope module.now oper.now }
    ensures { result ≡ oper_again module.now oper.now }
{
    first_again(scope.entries())
}

// The first part that is ill-formed: the frame is part 0, the precondition part 1, the postcondition part 2.
fn oper_part(
    alloc: Global,
    heads: &[Head],
    module: &Module,
    oper: &Oper,
) -> Result<Option<u32>, AllocError>
    ensures { IfOk result (λ part. part ≡ oper_part heads.now module.now oper.now) }
{
    if !is_frame(module, oper) {
        return Ok(Some(0));
    }
    let pre = is_pre_misplaced(alloc, heads, module, oper)?;
    let post = is_post_misplaced(alloc, heads, module, oper)?;
    Ok(part_of_two(pre, post))
}

fn is_pre_misplaced(
    alloc: Global,
    heads: &[Head],
    module: &Module,
    oper: &Oper,
) -> Result<bool, AllocError>
    ensures { IfOk result (λ b. b ≡ is_misplaced (before_scope module.now oper.now) heads.now [] oper.now.spec.pre) }
{
    let scope = before_scope(alloc, module, oper)?;
    is_misplaced(alloc, &scope, heads, &[], &oper.spec.pre)
}

fn is_post_misplaced(
    alloc: Global,
    heads: &[Head],
    module: &Module,
    oper: &Oper,
) -> Result<bool, AllocError>
    ensures { IfOk result (λ b. b ≡ is_misplaced (after_scope module.now oper.now) heads.now (abstract_in module.now oper.now.spec.frame) oper.now.spec.post) }
{
    let scope = after_scope(alloc, module, oper)?;
    let initials = abstract_in(alloc, module, oper.spec.frame.as_slice())?;
    let bad = is_misplaced(alloc, &scope, heads, initials.as_slice(), &oper.spec.post)?;
    Ok(bad)
}

// Whether the frame is all results and some abstract names, each once.
fn is_frame(module: &Module, oper: &Oper) -> bool
    ensures { result ≡ is_frame module.now oper.now }
{
    let frame = oper.spec.frame.as_slice();
    !is_twice(frame) && holds_all(frame, oper.results.as_slice()) && are_own(module, oper, frame)
}

fn holds_all(frame: &[Name], results: &[Param]) -> bool
    ensures { result ≡ list_all (λ p. is_listed frame.now p.name) results.now }
{
    for param in results {
        if !is_listed(frame, &param.name) {
            return false;
        }
    }
    true
}

fn are_own(module: &Module, oper: &Oper, frame: &[Name]) -> bool
    ensures { result ≡ list_all (is_own module.now oper.now) frame.now }
{
    for name in frame {
        if !is_param(oper.results.as_slice(), name) && !is_param(module.state.as_slice(), name) {
            return false;
        }
    }
    true
}

// The abstract names of a frame.
fn abstract_in(alloc: Global, module: &Module, frame: &[Name]) -> Result<Items<Name>, AllocError>
    ensures { IfOk result (λ names. names ≡ abstract_in module.now frame.now) }
{
    let mut names = Items::new(alloc);
    for name in frame {
        if is_param(module.state.as_slice(), name) {
            names.push(name.copy())?;
        }
    }
    Ok(names)
}

fn oper_limit(module: &Module, oper: &Oper) -> Option<EditRefusal>
    ensures { result ≡ oper_limit module.now oper.now }
{
    if !(is_light(&oper.spec.pre) && is_light(&oper.spec.post)) {
        return Some(EditRefusal::Limit(Which::Weight, MOST_PARTS));
    }
    if !(is_shallow(&oper.spec.pre) && is_shallow(&oper.spec.post)) {
        return Some(EditRefusal::Limit(Which::Depth, MOST_DEPTH));
    }
    counts_limit(module, oper)
}

// The first limit that the numbers of names and of operations pass.
fn counts_limit(module: &Module, oper: &Oper) -> Option<EditRefusal>
    ensures { result ≡ counts_limit module.now oper.now }
{
    if oper.spec.frame.len() > MOST_GLOBALS as usize {
        return Some(EditRefusal::Limit(Which::Globals, MOST_GLOBALS));
    }
    if !are_few_together(oper.values.as_slice(), oper.results.as_slice()) {
        return Some(EditRefusal::Limit(Which::Params, MOST_PARAMS));
    }
    let operations = module.operations.as_slice();
    if !has_oper(&oper.name, operations) && operations.len() >= MOST_OPERATIONS as usize {
        return Some(EditRefusal::Limit(Which::Operations, MOST_OPERATIONS));
    }
    None
}
