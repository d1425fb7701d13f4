//! The rules of sorts.

ghost use Rattle.std.specs.Prelude.{◌≡◌, ◌+◌, ◌≤◌, ◌<◌, ◌⊎◌, min, [], Some, None, slice_get, IfOk, IfErr};
ghost use Rattle.rw_terms.specs.Size.{term_weight, term_depth};
ghost use Rattle.rw_terms.specs.Sorts.{SortReport, sort_report, may_be_int, may_be_array, variable_sort, constant_sort, unless, named};
ghost use Rattle.rw_terms.specs.Sorted.{IsOfSort, IsSortRefusal};
ghost use Rattle.rw_terms.specs.Typed.{ValuesHaveSort};

use crate::error::TermError;
use crate::measure;
use crate::name::Name;
use crate::scope::{Head, Kind, Scope};
use crate::term::{Sort, Term};
use rw_items::at;

/// The parts that a term may have.
pub const MOST_PARTS: u32 = 1024;

/// The parts that a path of a term may have.
pub const MOST_DEPTH: u32 = 64;

/// The sort of a term, or the first of its parts in preorder that breaks a rule: its number counts from 1.
/// The limits are tested before the rules. A function is unknown, whatever the heads are.
pub fn sort_of(scope: &Scope, heads: &[Head], term: &Term) -> Result<Sort, TermError>
    ensures sort { IfOk result (IsOfSort scope.now [] term.now) }
    ensures values { IfOk result (ValuesHaveSort scope.now term.now) }
    ensures err { IfErr result (IsSortRefusal scope.now [] term.now) }
{
    let weight = measure::weight_of_term(term);
    if weight > MOST_PARTS || measure::depth_of_term(term) > MOST_DEPTH {
        return Err(TermError::TooLarge(weight));
    }
    check_term(scope, &[], term, 1)?;
    match given_sort(scope, &[], term) {
        Some(sort) => Ok(sort),
        None => Err(TermError::BadSort(1)),
    }
}

/// Checks a term whose own part has this number, where its weight is known to leave room.
pub fn check_counted(
    scope: &Scope,
    binders: &[Sort],
    term: &Term,
    place: u32,
) -> Result<u32, TermError>
    requires { place + term_weight term.now ≤ u32.MAX }
    ensures parts { (sort_report scope.now binders.now term.now).parts ≡ term_weight term.now }
    ensures next { IfOk result (λ next. next ≡ place + term_weight term.now) }
    ensures none { IfOk result (λ _. (sort_report scope.now binders.now term.now).fault place ≡ None) }
    ensures fault { IfErr result (λ e. (sort_report scope.now binders.now term.now).fault place ≡ Some e) }
{
    check_term(scope, binders, term, place)
}

/// Checks a term whose own part has this number, and gives the number behind its last part.
pub fn check_term(
    scope: &Scope,
    binders: &[Sort],
    term: &Term,
    place: u32,
) -> Result<u32, TermError>
    requires { place + (sort_report scope.now binders.now term.now).parts ≤ u32.MAX }
    ensures next { IfOk result (λ next. next ≡ place + (sort_report scope.now binders.now term.now).parts) }
    ensures none { IfOk result (λ _. (sort_report scope.now binders.now term.now).fault place ≡ None) }
    ensures fault { IfErr result (λ e. (sort_report scope.now binders.now term.now).fault place ≡ Some e) }
{
    match term {
        Term::Lit(n) => holds(*n >= 0, place),
        Term::Var(x) | Term::Init(x) => known(variable(scope, x), x, place),
        Term::Const(x) => known(constant(scope, x), x, place),
        Term::Bound(k) => holds(binder(binders, *k).is_some(), place),
        Term::Neg(a) => {
            let next = holds(is_int(given_sort(scope, binders, a.get())), place)?;
            check_term(scope, binders, a.get(), next)
        }
        Term::Add(a, b) | Term::Sub(a, b) | Term::Mul(a, b) | Term::Div(a, b) | Term::Mod(a, b) => {
            let ints = is_int(given_sort(scope, binders, a.get()))
                && is_int(given_sort(scope, binders, b.get()));
            let next = holds(ints, place)?;
            let next = check_term(scope, binders, a.get(), next)?;
            check_term(scope, binders, b.get(), next)
        }
        Term::Read(a, i) => {
            let fits = is_array(given_sort(scope, binders, a.get()))
                && is_int(given_sort(scope, binders, i.get()));
            let next = holds(fits, place)?;
            let next = check_term(scope, binders, a.get(), next)?;
            check_term(scope, binders, i.get(), next)
        }
        Term::Put(a, i, e) => {
            let fits = is_array(given_sort(scope, binders, a.get()))
                && is_int(given_sort(scope, binders, i.get()))
                && is_int(given_sort(scope, binders, e.get()));
            let next = holds(fits, place)?;
            let next = check_term(scope, binders, a.get(), next)?;
            let next = check_term(scope, binders, i.get(), next)?;
            check_term(scope, binders, e.get(), next)
        }
        Term::Fun(f, _) => Err(TermError::UnknownName(f.copy())),
    }
}

/// The sort that a term gives, if its rules are kept.
pub fn given_sort(scope: &Scope, binders: &[Sort], term: &Term) -> Option<Sort>
    ensures { result ≡ (sort_report scope.now binders.now term.now).sort }
{
    match term {
        Term::Var(x) | Term::Init(x) => variable(scope, x),
        Term::Const(x) => constant(scope, x),
        Term::Bound(k) => binder(binders, *k),
        Term::Put(a, _, _) => given_sort(scope, binders, a.get()),
        Term::Fun(_, _) => None,
        _ => Some(Sort::Int),
    }
}

/// The sort of a place where a binder is used; None where no binder is open for it.
pub fn binder(binders: &[Sort], k: u32) -> Option<Sort>
    ensures { result ≡ slice_get binders.now k }
{
    at(binders, k as usize).copied()
}

/// The sort of a name as a variable or an initial variable; None where the scope has no such entry.
pub fn variable(scope: &Scope, name: &Name) -> Option<Sort>
    ensures { result ≡ variable_sort scope.now name.now }
{
    let entry = scope.find(name)?;
    match entry.kind {
        Kind::Constant => None,
        _ => Some(entry.sort),
    }
}

/// The sort of a name as a constant; None where the scope has no such entry.
pub fn constant(scope: &Scope, name: &Name) -> Option<Sort>
    ensures { result ≡ constant_sort scope.now name.now }
{
    let entry = scope.find(name)?;
    match entry.kind {
        Kind::Constant => Some(entry.sort),
        _ => None,
    }
}

/// Whether the sort can be `int` as far as it is known.
pub fn is_int(sort: Option<Sort>) -> bool
    ensures { result ≡ may_be_int sort }
{
    !matches!(sort, Some(Sort::Array(_)))
}

/// Whether the sort can be an array's as far as it is known.
pub fn is_array(sort: Option<Sort>) -> bool
    ensures { result ≡ may_be_array sort }
{
    !matches!(sort, Some(Sort::Int))
}

/// The number behind a part that keeps its rule.
pub fn holds(keeps: bool, place: u32) -> Result<u32, TermError>
    requires { place < u32.MAX }
    ensures next { IfOk result (λ next. next ≡ place + 1) }
    ensures none { IfOk result (λ _. unless keeps place ≡ None) }
    ensures fault { IfErr result (λ e. unless keeps place ≡ Some e) }
{
    if keeps {
        Ok(place + 1)
    } else {
        Err(TermError::BadSort(place))
    }
}

fn known(sort: Option<Sort>, name: &Name, place: u32) -> Result<u32, TermError>
    requires { place < u32.MAX }
    ensures next { IfOk result (λ next. next ≡ place + 1) }
    ensures none { IfOk result (λ _. (named name.now sort).fault place ≡ None) }
    ensures fault { IfErr result (λ e. (named name.now sort).fault place ≡ Some e) }
{
    match sort {
        Some(_) => Ok(place + 1),
        None => Err(TermError::UnknownName(name.copy())),
    }
}
