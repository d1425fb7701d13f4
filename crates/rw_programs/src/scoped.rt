//! Whether each name in a program is in scope with its sort.

ghost use Rattle.std.specs.Prelude.{◌≡◌, [], IfOk};
ghost use Rattle.rw_programs.specs.State.{is_in};
ghost use Rattle.rw_programs.specs.Scoped.{are_variables, are_set, spec_scoped, with_entry, with_local, with_pin, with_pins, with_module, call_scoped, is_scoped, arms_scoped};

use crate::applied::Context;
use crate::copying::copy_list;
use crate::prog::{Arm, Pin, Prog, Spec};
use crate::sorted::{are_sorted, is_of, is_sorted, may_equal_of, sort_in};
use rw_items::Items;
use rw_terms::error::ScopeError;
use rw_terms::formed::is_sort;
use rw_terms::name::Name;
use rw_terms::scope::{Entry, Kind, Scope};
use rw_terms::sorts::variable;
use rw_terms::term::{Sort, Term};
use std::alloc::{AllocError, Global};

/// Whether each name in the program is in scope with its sort. A local or a constant is new where it comes in, and goes with its
/// block; an operation is one of a module that is opened there.
pub fn well_scoped(alloc: Global, context: &Context, prog: &Prog) -> Result<bool, AllocError>
    ensures { IfOk result (λ scoped. scoped ≡ is_scoped context.now.opened context.now.scope prog.now) }
{
    is_scoped(alloc, context.opened.as_slice(), &context.scope, prog)
}

#[cycle(is_scoped)]
#[tactic(auto, using(crate::proofs::ScopedParts::seq_scoped, crate::proofs::ScopedParts::if_scoped, crate::proofs::ScopedParts::do_scoped, crate::proofs::ScopedParts::block_scoped, crate::proofs::ScopedParts::con_scoped, crate::proofs::ScopedParts::module_scoped))]
fn is_scoped(alloc: Global, opened: &[Name], scope: &Scope, prog: &Prog) -> Result<bool, AllocError>
    ensures { IfOk result (λ scoped. scoped ≡ is_scoped opened.now scope.now prog.now) }
{
    match prog {
        Prog::Spec(spec) => spec_scoped(alloc, scope, spec),
        Prog::Kid(_) | Prog::Skip => Ok(true),
        Prog::Assign(names, terms) => Ok(are_set(scope, names.as_slice(), terms.as_slice())),
        Prog::Seq(first, second) => {
            if !is_scoped(alloc, opened, scope, first.get())? {
                return Ok(false);
            }
            is_scoped(alloc, opened, scope, second.get())
        }
        Prog::If(arms) => arms_scoped(alloc, opened, scope, arms.as_slice()),
        Prog::Do(variant, arms) => {
            if !is_of(Sort::Int, sort_in(scope, &[], variant)) {
                return Ok(false);
            }
            arms_scoped(alloc, opened, scope, arms.as_slice())
        }
        Prog::Block(name, sort, body) => match with_local(alloc, scope, name, *sort)? {
            Some(inner) => is_scoped(alloc, opened, &inner, body.get()),
            None => Ok(false),
        },
        Prog::Con(pins, body) => match with_pins(alloc, scope, pins.as_slice())? {
            Some(inner) => is_scoped(alloc, opened, &inner, body.get()),
            None => Ok(false),
        },
        Prog::Call(_, args, results) => Ok(call_scoped(scope, args.as_slice(), results.as_slice())),
        Prog::OpCall(home, _, args, results) => {
            Ok(is_in(home, opened) && call_scoped(scope, args.as_slice(), results.as_slice()))
        }
        Prog::ModBlock(home, body) => match with_module(alloc, opened, home)? {
            Some(inner) => is_scoped(alloc, inner.as_slice(), scope, body.get()),
            None => Ok(false),
        },
    }
}

#[cycle(is_scoped)]
fn arms_scoped(
    alloc: Global,
    opened: &[Name],
    scope: &Scope,
    arms: &[Arm],
) -> Result<bool, AllocError>
    ensures { IfOk result (λ scoped. scoped ≡ arms_scoped opened.now scope.now arms.now) }
{
    for arm in arms {
        if !is_sorted(alloc, scope, &[], &arm.guard)? {
            return Ok(false);
        }
        if !is_scoped(alloc, opened, scope, &arm.body)? {
            return Ok(false);
        }
    }
    Ok(true)
}

fn spec_scoped(alloc: Global, scope: &Scope, spec: &Spec) -> Result<bool, AllocError>
    ensures { IfOk result (λ scoped. scoped ≡ spec_scoped scope.now spec.now) }
{
    if !are_variables(scope, spec.frame.as_slice()) {
        return Ok(false);
    }
    if !is_sorted(alloc, scope, &[], &spec.pre)? {
        return Ok(false);
    }
    is_sorted(alloc, scope, &[], &spec.post)
}

fn are_variables(scope: &Scope, names: &[Name]) -> bool
    ensures { result ≡ are_variables scope.now names.now }
{
    for name in names {
        if variable(scope, name).is_none() {
            return false;
        }
    }
    true
}

fn are_set(scope: &Scope, names: &[Name], terms: &[Term]) -> bool
    ensures { result ≡ are_set scope.now names.now terms.now }
{
    if names.len() != terms.len() {
        return false;
    }
    for i in 0..names.len() {
        if !may_equal_of(variable(scope, &names[i]), sort_in(scope, &[], &terms[i])) {
            return false;
        }
    }
    true
}

fn call_scoped(scope: &Scope, args: &[Term], results: &[Name]) -> bool
    ensures { result ≡ call_scoped scope.now args.now results.now }
{
    if !are_sorted(scope, &[], args) {
        return false;
    }
    are_variables(scope, results)
}

fn is_in(name: &Name, names: &[Name]) -> bool
    ensures { result ≡ is_in name.now names.now }
{
    for other in names {
        if name.is(other) {
            return true;
        }
    }
    false
}

// The scope with one more name, if it is new.
fn with_entry(alloc: Global, scope: &Scope, entry: Entry) -> Result<Option<Scope>, AllocError>
    ensures { IfOk result (λ inner. inner ≡ with_entry scope.now entry) }
{
    match scope.with(alloc, entry) {
        Ok(inner) => Ok(Some(inner)),
        Err(ScopeError::NotFresh) => Ok(None),
        Err(ScopeError::Memory) => Err(AllocError),
    }
}

fn with_local(
    alloc: Global,
    scope: &Scope,
    name: &Name,
    sort: Sort,
) -> Result<Option<Scope>, AllocError>
    ensures { IfOk result (λ inner. inner ≡ with_local scope.now name.now sort) }
{
    if !is_sort(sort) {
        return Ok(None);
    }
    let entry = Entry {
        name: name.copy(),
        sort,
        kind: Kind::Local,
    };
    with_entry(alloc, scope, entry)
}

fn with_pin(
    alloc: Global,
    outer: &Scope,
    scope: &Scope,
    pin: &Pin,
) -> Result<Option<Scope>, AllocError>
    ensures { IfOk result (λ inner. inner ≡ with_pin outer.now scope.now pin.now) }
{
    match sort_in(outer, &[], &pin.term) {
        Some(sort) => with_entry(
            alloc,
            scope,
            Entry {
                name: pin.name.copy(),
                sort,
                kind: Kind::Constant,
            },
        ),
        None => Ok(None),
    }
}

fn with_pins(alloc: Global, outer: &Scope, pins: &[Pin]) -> Result<Option<Scope>, AllocError>
    ensures { IfOk result (λ inner. inner ≡ with_pins outer.now outer.now pins.now) }
{
    let mut scope = outer.copy(alloc)?;
    for pin in pins {
        match with_pin(alloc, outer, &scope, pin)? {
            Some(inner) => {
                scope = inner;
            }
            None => return Ok(None),
        }
    }
    Ok(Some(scope))
}

// The opened modules with one more, if it is new.
fn with_module(
    alloc: Global,
    opened: &[Name],
    home: &Name,
) -> Result<Option<Items<Name>>, AllocError>
    ensures { IfOk result (λ inner. inner ≡ with_module opened.now home.now) }
{
    if is_in(home, opened) {
        return Ok(None);
    }
    let mut inner = copy_list(alloc, opened)?;
    inner.insert(0, home.copy())?;
    Ok(Some(inner))
}
