//! What is to hold before a program so that a formula holds after it.

ghost use Rattle.std.specs.Prelude.{◌≡◌, IfOk, length, map};
ghost use Rattle.rw_terms.specs.declared.term.Formula.{Formula};
ghost use Rattle.rw_subst.specs.Conj.{conj_with, disj};
ghost use Rattle.rw_loops.specs.Guards.{guards_definedness};
ghost use Rattle.rw_derived.specs.Derived.{set_to};
ghost use Rattle.rw_wpview.specs.Before.{before_set, before};
ghost use Rattle.rw_wpview.specs.Arms.{guards, choice};
ghost use Rattle.rw_wpview.specs.Kept.{kept};

use crate::kept::{
    again, both, changed, defined, for_all, guards_defined, implied, kept, kept_copy,
};
use crate::loops::{guards, with_local};
use rw_items::{Boxed, Items};
use rw_loops::guards::any_guard;
use rw_noted::noted::{Noted, NotedArm};
use rw_subst::slot::{Change, Slot};
use rw_terms::name::Name;
use rw_terms::scope::Scope;
use rw_terms::term::{Formula, Term};
use std::alloc::{AllocError, Global};

/// What is to hold before the program so that the formula holds after it, where it is within the limits.
#[cycle(before)]
pub fn before(
    alloc: Global,
    scope: &Scope,
    noted: &Noted,
    after: &Option<Boxed<Formula>>,
) -> Result<Option<Boxed<Formula>>, AllocError>
    ensures { (f : Formula) → after.now ≡ kept f → IfOk result (λ o. o ≡ kept (before scope.now noted.now f)) }
{
    match noted {
        Noted::Skip => again(alloc, after),
        Noted::Assign(names, terms) => before_set(
            alloc,
            scope,
            names.as_slice(),
            terms.as_slice(),
            after,
        ),
        Noted::Seq(first, second) => {
            let middle = before(alloc, scope, second.get(), after)?;
            before(alloc, scope, first.get(), &middle)
        }
        Noted::If(arms) => {
            let choice = some_guard(alloc, scope, arms.as_slice())?;
            before_arms(alloc, scope, arms.as_slice(), after, choice)
        }
        Noted::Do(_, invariant, _) => kept_copy(alloc, invariant),
        Noted::Block(name, sort, body) => {
            let inner = with_local(alloc, scope, name, *sort)?;
            let body = before(alloc, &inner, body.get(), after)?;
            for_all(alloc, name, *sort, &body)
        }
    }
}

// What is joined so far, and what each guard asks.
#[cycle(before)]
fn before_arms(
    alloc: Global,
    scope: &Scope,
    arms: &[NotedArm],
    after: &Option<Boxed<Formula>>,
    so_far: Option<Boxed<Formula>>,
) -> Result<Option<Boxed<Formula>>, AllocError>
    ensures { (f g : Formula) → after.now ≡ kept f → so_far ≡ kept g → IfOk result (λ o. o ≡ kept (conj_with g (map (choice scope.now f) arms.now))) }
{
    let mut so_far = so_far;
    for arm in arms {
        let behind = before(alloc, scope, &arm.body, after)?;
        so_far = both(alloc, so_far, implied(alloc, &arm.guard, behind)?)?;
    }
    Ok(so_far)
}

// The guards are defined, and one of them holds.
fn some_guard(
    alloc: Global,
    scope: &Scope,
    arms: &[NotedArm],
) -> Result<Option<Boxed<Formula>>, AllocError>
    ensures { IfOk result (λ o. o ≡ kept (Formula.And (guards_definedness scope.now (guards arms.now)) (disj (guards arms.now)))) }
{
    let guards = guards(alloc, arms)?;
    let defined = guards_defined(alloc, scope, guards.as_slice())?;
    let any = kept(any_guard(alloc, guards.as_slice())?);
    both(alloc, defined, any)
}

fn before_set(
    alloc: Global,
    scope: &Scope,
    names: &[Name],
    terms: &[Term],
    after: &Option<Boxed<Formula>>,
) -> Result<Option<Boxed<Formula>>, AllocError>
    ensures { (f : Formula) → after.now ≡ kept f → IfOk result (λ o. o ≡ kept (before_set scope.now names.now terms.now f)) }
{
    let defined = defined(alloc, scope, terms)?;
    let changes = set_to(alloc, names, terms)?;
    let set = changed(alloc, after, changes.as_slice())?;
    both(alloc, defined, set)
}

// Each variable is changed to the term in its place, as far as both lists go.
fn set_to(alloc: Global, names: &[Name], terms: &[Term]) -> Result<Items<Change>, AllocError>
    ensures { IfOk result (λ changes. changes ≡ set_to names.now terms.now) }
{
    let mut changes = Items::new(alloc);
    for i in 0..names.len() {
        if i >= terms.len() {
            return Ok(changes);
        }
        changes.push(Change {
            slot: Slot::Var(names[i].copy()),
            term: terms[i].copy(alloc)?,
        })?;
    }
    Ok(changes)
}
