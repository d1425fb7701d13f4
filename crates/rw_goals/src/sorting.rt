//! The rules of sorts for what a line says of a goal, by the goal's names.

ghost use Rattle.std.specs.Prelude.{◌≡◌, [], ◌∷◌, ◌≤◌, length, map, slice_get, find, IfOk, option_copied};
ghost use Rattle.std.specs.Option.{option_map};
ghost use Rattle.rw_terms.specs.Named.{is_named};
ghost use Rattle.rw_terms.specs.Rules.{of_literal, of_int, of_ints, of_read, of_put, instead, is_of, are_of, may_equal_of};
ghost use Rattle.rw_goals.specs.Sorting.{name_sort, sort_of, keeps_rules, takes};

use crate::library::{Item, parameters_of};
use rw_items::{Items, at};
use rw_terms::formed::{bind, is_sort};
use rw_terms::name::Name;
use rw_terms::sameness::same_sort;
use rw_terms::term::{Formula, Sort, Term};
use std::alloc::{AllocError, Global};

/// Whether the formula keeps the rules of sorts over these names, where its loose binders have these sorts, the innermost first.
/// The entries are those of a library: a predicate takes the sorts of its definition's parameters.
pub fn keeps_rules(
    alloc: Global,
    names: &[(Name, Sort)],
    entries: &[Item],
    binders: &[Sort],
    formula: &Formula,
) -> Result<bool, AllocError>
    ensures { IfOk result (λ b. b ≡ keeps_rules names.now entries.now formula.now binders.now) }
{
    match formula {
        Formula::True | Formula::False => Ok(true),
        Formula::Eq(t, u) => Ok(may_equal(sort_of(names, binders, t), sort_of(names, binders, u))),
        Formula::Less(t, u) | Formula::AtMost(t, u) => Ok(of_ints(
            sort_of(names, binders, t),
            sort_of(names, binders, u),
        ).is_some()),
        Formula::Not(f) => keeps_rules(alloc, names, entries, binders, f.get()),
        Formula::And(f, g) | Formula::Or(f, g) | Formula::Imp(f, g) => {
            if !keeps_rules(alloc, names, entries, binders, f.get())? {
                return Ok(false);
            }
            keeps_rules(alloc, names, entries, binders, g.get())
        }
        Formula::All(sort, f) | Formula::Any(sort, f) => {
            if !is_sort(*sort) {
                return Ok(false);
            }
            let inner = bind(alloc, *sort, binders)?;
            keeps_rules(alloc, names, entries, inner.as_slice(), f.get())
        }
        Formula::App(p, args) => Ok(takes(
            names,
            binders,
            parameters_of(entries, p),
            args.as_slice(),
        )),
    }
}

/// The sort of a term that keeps the rules over these names, where its loose binders have these sorts.
pub fn sort_of(names: &[(Name, Sort)], binders: &[Sort], term: &Term) -> Option<Sort>
    ensures { result ≡ sort_of names.now binders.now term.now }
{
    match term {
        Term::Lit(n) => of_literal(*n >= 0),
        Term::Var(x) | Term::Init(x) | Term::Const(x) => name_sort(names, x),
        Term::Bound(k) => binder(binders, *k),
        Term::Neg(a) => of_int(sort_of(names, binders, a.get())),
        Term::Add(a, b) | Term::Sub(a, b) | Term::Mul(a, b) | Term::Div(a, b) | Term::Mod(a, b) => {
            of_ints(
                sort_of(names, binders, a.get()),
                sort_of(names, binders, b.get()),
            )
        }
        Term::Read(a, i) => of_read(
            sort_of(names, binders, a.get()),
            sort_of(names, binders, i.get()),
        ),
        Term::Put(a, i, e) => of_put(
            sort_of(names, binders, a.get()),
            sort_of(names, binders, i.get()),
            sort_of(names, binders, e.get()),
        ),
        Term::Fun(_, _) => None,
    }
}

fn name_sort(names: &[(Name, Sort)], name: &Name) -> Option<Sort>
    ensures { result ≡ name_sort names.now name.now }
{
    for (known, sort) in names {
        if known.is(name) {
            return Some(*sort);
        }
    }
    None
}

fn binder(binders: &[Sort], k: u32) -> Option<Sort>
    ensures { result ≡ slice_get binders.now k }
{
    at(binders, k as usize).copied()
}

fn of_literal(is_literal: bool) -> Option<Sort>
    ensures { result ≡ of_literal is_literal }
{
    if is_literal { Some(Sort::Int) } else { None }
}

fn of_int(sort: Option<Sort>) -> Option<Sort>
    ensures { result ≡ of_int sort }
{
    match sort {
        Some(Sort::Int) => Some(Sort::Int),
        _ => None,
    }
}

fn of_ints(one: Option<Sort>, other: Option<Sort>) -> Option<Sort>
    ensures { result ≡ of_ints one other }
{
    match one {
        Some(Sort::Int) => of_int(other),
        _ => None,
    }
}

fn of_read(array: Option<Sort>, index: Option<Sort>) -> Option<Sort>
    ensures { result ≡ of_read array index }
{
    match array {
        Some(Sort::Array(_)) => of_int(index),
        _ => None,
    }
}

fn of_put(array: Option<Sort>, index: Option<Sort>, put: Option<Sort>) -> Option<Sort>
    ensures { result ≡ of_put array index put }
{
    match array {
        Some(Sort::Array(n)) => match of_ints(index, put) {
            Some(_) => Some(Sort::Array(n)),
            None => None,
        },
        _ => None,
    }
}

fn may_equal(one: Option<Sort>, other: Option<Sort>) -> bool
    ensures { result ≡ may_equal_of one other }
{
    match one {
        Some(sort) => is_of(sort, other),
        None => false,
    }
}

fn is_of(sort: Sort, other: Option<Sort>) -> bool
    ensures { result ≡ is_of sort other }
{
    match other {
        Some(other) => same_sort(sort, other),
        None => false,
    }
}

fn takes(
    names: &[(Name, Sort)],
    binders: &[Sort],
    params: Option<&Items<(Name, Sort)>>,
    args: &[Term],
) -> bool
    ensures { result ≡ takes (option_copied params.entry) (map (sort_of names.now binders.now) args.now) }
{
    match params {
        Some(params) => are_of(names, binders, params.as_slice(), args),
        None => false,
    }
}

/// Whether the terms are as many as the parameters, of their sorts in order.
pub fn are_of(
    names: &[(Name, Sort)],
    binders: &[Sort],
    params: &[(Name, Sort)],
    args: &[Term],
) -> bool
    ensures { result ≡ are_of (map (λ p. p.1) params.now) (map (sort_of names.now binders.now) args.now) }
{
    if params.len() != args.len() {
        return false;
    }
    for i in 0..params.len() {
        let (_, sort) = &params[i];
        if !is_of(*sort, sort_of(names, binders, &args[i])) {
            return false;
        }
    }
    true
}
