//! The tests of a global and of a root specification.

ghost use Rattle.std.specs.Prelude.{◌≡◌, ◌||◌, map, IfOk};
ghost use Rattle.rw_trees.specs.Edits.{global};
ghost use Rattle.rw_edit_tests.specs.Refusals.{frame_unknown, root_unknown, is_ill_formed, ill_formed_part, past_limit, root_refusal, var_refusal};

use crate::refusal::{EditRefusal, Which};
use rw_faults::faults::is_ill_sorted;
use rw_faults::initial::{initial_outside, is_twice};
use rw_faults::limits::{is_light, is_shallow, is_small};
use rw_faults::unknown::unknown_in;
use rw_heads::names::has_name;
use rw_programs::prog::{Param, Spec};
use rw_terms::name::Name;
use rw_terms::scope::{Head, Scope};
use rw_terms::sorts::{MOST_DEPTH, MOST_PARTS};
use rw_terms::term::Formula;
use rw_trees::globals::{is_param, scope_of};
use std::alloc::{AllocError, Global};

/// The most globals, and the most names of a frame.
pub const MOST_GLOBALS: u32 = 64;

/// The first test that refuses the global.
pub fn var_refusal(globals: &[Param], order: &[Name], param: &Param) -> Option<EditRefusal>
    ensures { result ≡ var_refusal globals.now order.now param.now }
{
    if is_param(globals, &param.name) || has_name(&param.name, order) {
        return Some(EditRefusal::Duplicate(param.name.copy()));
    }
    if globals.len() >= MOST_GLOBALS as usize {
        return Some(EditRefusal::Limit(Which::Globals, MOST_GLOBALS));
    }
    None
}

/// The first test that refuses the specification as the root over these globals and predicates, if one does.
pub fn root_refusal(
    alloc: Global,
    globals: &[Param],
    heads: &[Head],
    spec: &Spec,
) -> Result<Option<EditRefusal>, AllocError>
    ensures { IfOk result (λ refusal. refusal ≡ root_refusal globals.now heads.now spec.now) }
{
    let scope = scope_of(alloc, globals)?;
    if let Some(name) = root_unknown(globals, &scope, heads, spec) {
        return Ok(Some(EditRefusal::Unknown(name)));
    }
    if let Some(part) = ill_formed_part(alloc, &scope, heads, spec)? {
        return Ok(Some(EditRefusal::Sort(part)));
    }
    Ok(past_limit(spec))
}

// The first name that is no global, or predicate that is not defined: of the frame, the precondition, the postcondition.
fn root_unknown(globals: &[Param], scope: &Scope, heads: &[Head], spec: &Spec) -> Option<Name>
    requires { scope.now ≡ map global globals.now }
    ensures { result ≡ root_unknown globals.now heads.now spec.now }
{
    if let Some(name) = frame_unknown(globals, spec.frame.as_slice()) {
        return Some(name);
    }
    if let Some(name) = unknown_in(scope, heads, &spec.pre) {
        return Some(name);
    }
    unknown_in(scope, heads, &spec.post)
}

fn frame_unknown(globals: &[Param], frame: &[Name]) -> Option<Name>
    ensures { result ≡ frame_unknown globals.now frame.now }
{
    for name in frame {
        if !is_param(globals, name) {
            return Some(name.copy());
        }
    }
    None
}

// The first part that is ill-formed: the frame is part 0, the precondition part 1, the postcondition part 2.
fn ill_formed_part(
    alloc: Global,
    scope: &Scope,
    heads: &[Head],
    spec: &Spec,
) -> Result<Option<u32>, AllocError>
    ensures { IfOk result (λ part. part ≡ ill_formed_part scope.now heads.now spec.now) }
{
    if is_twice(spec.frame.as_slice()) {
        return Ok(Some(0));
    }
    if is_ill_formed(alloc, scope, heads, &[], &spec.pre)? {
        return Ok(Some(1));
    }
    if is_ill_formed(alloc, scope, heads, spec.frame.as_slice(), &spec.post)? {
        return Ok(Some(2));
    }
    Ok(None)
}

/// Whether a formula within the limits is ill-sorted, or has an initial variable of a name that is not among these.
pub fn is_ill_formed(
    alloc: Global,
    scope: &Scope,
    heads: &[Head],
    initials: &[Name],
    formula: &Formula,
) -> Result<bool, AllocError>
    ensures { IfOk result (λ b. b ≡ is_ill_formed scope.now heads.now initials.now formula.now) }
{
    if !is_small(formula) {
        return Ok(false);
    }
    if initial_outside(initials, formula) {
        return Ok(true);
    }
    is_ill_sorted(alloc, scope, heads, &[], formula)
}

// The first limit that the specification passes.
fn past_limit(spec: &Spec) -> Option<EditRefusal>
    ensures { result ≡ past_limit spec.now }
{
    if !is_light(&spec.pre) || !is_light(&spec.post) {
        return Some(EditRefusal::Limit(Which::Weight, MOST_PARTS));
    }
    if !is_shallow(&spec.pre) || !is_shallow(&spec.post) {
        return Some(EditRefusal::Limit(Which::Depth, MOST_DEPTH));
    }
    if spec.frame.len() > MOST_GLOBALS as usize {
        return Some(EditRefusal::Limit(Which::Globals, MOST_GLOBALS));
    }
    None
}
