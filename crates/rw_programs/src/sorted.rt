//! Whether terms and formulas keep the rules of sorts in a scope. There is no limit on their size, and predicates are not
//! known.

ghost use Rattle.std.specs.Prelude.{◌≡◌, is_some, IfOk};
ghost use Rattle.rw_terms.specs.Rules.{of_literal, of_int, of_ints, of_read, of_put, sort_in, is_of, may_equal_of};
ghost use Rattle.rw_programs.specs.Scoped.{are_sorted, is_sorted};

use rw_terms::formed::{bind, is_sort};
use rw_terms::scope::Scope;
use rw_terms::sorts::{binder, constant, variable};
use rw_terms::term::{Formula, Sort, Term};
use std::alloc::{AllocError, Global};

/// The sort of a term whose parts all keep the rules.
pub fn sort_in(scope: &Scope, binders: &[Sort], term: &Term) -> Option<Sort>
    ensures { result ≡ sort_in scope.now binders.now term.now }
{
    match term {
        Term::Lit(n) => of_literal(*n >= 0),
        Term::Var(x) | Term::Init(x) => variable(scope, x),
        Term::Const(x) => constant(scope, x),
        Term::Bound(k) => binder(binders, *k),
        Term::Neg(a) => of_int(sort_in(scope, binders, a.get())),
        Term::Add(a, b) | Term::Sub(a, b) | Term::Mul(a, b) | Term::Div(a, b) | Term::Mod(a, b) => {
            of_ints(
                sort_in(scope, binders, a.get()),
                sort_in(scope, binders, b.get()),
            )
        }
        Term::Read(a, i) => of_read(
            sort_in(scope, binders, a.get()),
            sort_in(scope, binders, i.get()),
        ),
        Term::Put(a, i, e) => of_put(
            sort_in(scope, binders, a.get()),
            sort_in(scope, binders, i.get()),
            sort_in(scope, binders, e.get()),
        ),
        Term::Fun(_, _) => None,
    }
}

fn of_literal(keeps: bool) -> Option<Sort>
    ensures { result ≡ of_literal keeps }
{
    if keeps { Some(Sort::Int) } else { None }
}

fn of_int(a: Option<Sort>) -> Option<Sort>
    ensures { result ≡ of_int a }
{
    match a {
        Some(Sort::Int) => Some(Sort::Int),
        _ => None,
    }
}

fn of_ints(a: Option<Sort>, b: Option<Sort>) -> Option<Sort>
    ensures { result ≡ of_ints a b }
{
    match a {
        Some(Sort::Int) => of_int(b),
        _ => None,
    }
}

fn of_read(a: Option<Sort>, i: Option<Sort>) -> Option<Sort>
    ensures { result ≡ of_read a i }
{
    match a {
        Some(Sort::Array(_)) => of_int(i),
        _ => None,
    }
}

fn of_put(a: Option<Sort>, i: Option<Sort>, e: Option<Sort>) -> Option<Sort>
    ensures { result ≡ of_put a i e }
{
    match a {
        Some(Sort::Array(n)) => {
            if of_ints(i, e).is_some() {
                Some(Sort::Array(n))
            } else {
                None
            }
        }
        _ => None,
    }
}

/// Whether a sort is this one.
pub fn is_of(sort: Sort, other: Option<Sort>) -> bool
    ensures { result ≡ is_of sort other }
{
    match (sort, other) {
        (Sort::Int, Some(Sort::Int)) => true,
        (Sort::Array(m), Some(Sort::Array(n))) => m == n,
        _ => false,
    }
}

/// Whether two sorts are there, and are one.
pub fn may_equal_of(one: Option<Sort>, other: Option<Sort>) -> bool
    ensures { result ≡ may_equal_of one other }
{
    match one {
        Some(sort) => is_of(sort, other),
        None => false,
    }
}

/// Whether each of the terms keeps the rules.
pub fn are_sorted(scope: &Scope, binders: &[Sort], terms: &[Term]) -> bool
    ensures { result ≡ are_sorted scope.now binders.now terms.now }
{
    for term in terms {
        if sort_in(scope, binders, term).is_none() {
            return false;
        }
    }
    true
}

/// Whether each part of a formula keeps the rules, whatever predicates it applies.
pub fn is_sorted(
    alloc: Global,
    scope: &Scope,
    binders: &[Sort],
    formula: &Formula,
) -> Result<bool, AllocError>
    ensures { IfOk result (λ keeps. keeps ≡ is_sorted scope.now formula.now binders.now) }
{
    match formula {
        Formula::True | Formula::False => Ok(true),
        Formula::Eq(t, u) => Ok(may_equal_of(
            sort_in(scope, binders, t),
            sort_in(scope, binders, u),
        )),
        Formula::Less(t, u) | Formula::AtMost(t, u) => {
            Ok(of_ints(sort_in(scope, binders, t), sort_in(scope, binders, u)).is_some())
        }
        Formula::Not(f) => is_sorted(alloc, scope, binders, f.get()),
        Formula::And(f, g) | Formula::Or(f, g) | Formula::Imp(f, g) => {
            if !is_sorted(alloc, scope, binders, f.get())? {
                return Ok(false);
            }
            is_sorted(alloc, scope, binders, g.get())
        }
        Formula::All(sort, f) | Formula::Any(sort, f) => {
            if !is_sort(*sort) {
                return Ok(false);
            }
            let inner = bind(alloc, *sort, binders)?;
            is_sorted(alloc, scope, inner.as_slice(), f.get())
        }
        Formula::App(_, args) => Ok(are_sorted(scope, binders, args.as_slice())),
    }
}
