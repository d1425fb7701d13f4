//! The rules of sorts for a formula.

ghost use Rattle.std.specs.Prelude.{◌≡◌, ◌+◌, ◌≤◌, ◌⊎◌, [], ◌∷◌, map, find, IfOk, IfErr, option_copied};
ghost use Rattle.rw_terms.specs.Size.{term_weight, terms_weight};
ghost use Rattle.rw_terms.specs.Sorts.{sort_report, binary};
ghost use Rattle.rw_terms.specs.Formed.{formula_report, may_equal, may_be, is_sort, is_head, takes, first_fault, equation, application};
ghost use Rattle.rw_terms.specs.WellFormed.{IsFormed, IsFormedRefusal};

use crate::error::TermError;
use crate::measure;
use crate::name::Name;
use crate::sameness::same_sort;
use crate::scope::{Head, Scope};
use crate::sorts::{MOST_DEPTH, MOST_PARTS, check_counted, given_sort, holds, is_int};
use crate::term::{Formula, Sort, Term};
use rw_items::Items;
use std::alloc::{AllocError, Global};

/// Tests the rules of sorts: the first part in preorder that breaks one is the refusal, its number counted from 1.
/// The limits are tested before the rules.
pub fn well_formed(
    alloc: Global,
    scope: &Scope,
    heads: &[Head],
    formula: &Formula,
) -> Result<(), TermError>
    ensures formed { IfOk result (λ _. IsFormed scope.now heads.now formula.now) }
    ensures err { IfErr result (IsFormedRefusal scope.now heads.now formula.now) }
{
    let weight = measure::weight(formula);
    if weight > MOST_PARTS || measure::depth(formula) > MOST_DEPTH {
        return Err(TermError::TooLarge(weight));
    }
    check_formula(alloc, scope, heads, &[], formula, 1)?;
    Ok(())
}

fn check_formula(
    alloc: Global,
    scope: &Scope,
    heads: &[Head],
    binders: &[Sort],
    formula: &Formula,
    place: u32,
) -> Result<u32, TermError>
    requires { place + (formula_report scope.now heads.now formula.now).parts ≤ u32.MAX }
    ensures next { IfOk result (λ next. next ≡ place + (formula_report scope.now heads.now formula.now).parts) }
    ensures none { IfOk result (λ _. (formula_report scope.now heads.now formula.now).fault binders.now place ≡ None) }
    ensures fault { IfErr result (λ e. (e ≡ TermError.Memory) ⊎ ((formula_report scope.now heads.now formula.now).fault binders.now place ≡ Some e)) }
{
    match formula {
        Formula::True | Formula::False => Ok(place + 1),
        Formula::Eq(t, u) => check_equation(scope, binders, t, u, place),
        Formula::Less(t, u) | Formula::AtMost(t, u) => check_order(scope, binders, t, u, place),
        Formula::Not(f) => check_formula(alloc, scope, heads, binders, f.get(), place + 1),
        Formula::And(f, g) | Formula::Or(f, g) | Formula::Imp(f, g) => {
            let next = check_formula(alloc, scope, heads, binders, f.get(), place + 1)?;
            check_formula(alloc, scope, heads, binders, g.get(), next)
        }
        Formula::All(sort, f) | Formula::Any(sort, f) => {
            let next = holds(is_sort(*sort), place)?;
            let inner = bind(alloc, *sort, binders)?;
            check_formula(alloc, scope, heads, inner.as_slice(), f.get(), next)
        }
        Formula::App(p, args) => check_application(
            scope,
            find_head(heads, p),
            binders,
            p,
            args.as_slice(),
            place,
        ),
    }
}

fn check_equation(
    scope: &Scope,
    binders: &[Sort],
    t: &Term,
    u: &Term,
    place: u32,
) -> Result<u32, TermError>
    requires { place + (term_weight t.now + term_weight u.now + 1) ≤ u32.MAX }
    ensures next { IfOk result (λ next. next ≡ place + (term_weight t.now + term_weight u.now + 1)) }
    ensures none { IfOk result (λ _. equation (sort_report scope.now binders.now t.now) (sort_report scope.now binders.now u.now) place ≡ None) }
    ensures fault { IfErr result (λ e. equation (sort_report scope.now binders.now t.now) (sort_report scope.now binders.now u.now) place ≡ Some e) }
{
    let fits = may_equal(given_sort(scope, binders, t), given_sort(scope, binders, u));
    let next = holds(fits, place)?;
    let next = check_counted(scope, binders, t, next)?;
    check_counted(scope, binders, u, next)
}

/// Whether two terms can be equal as far as their sorts are known.
pub fn may_equal(one: Option<Sort>, other: Option<Sort>) -> bool
    ensures { result ≡ may_equal one other }
{
    match one {
        Some(sort) => may_be(sort, other),
        None => true,
    }
}

/// Whether a term can have this sort as far as its own is known.
pub fn may_be(sort: Sort, other: Option<Sort>) -> bool
    ensures { result ≡ may_be sort other }
{
    match other {
        Some(other) => same_sort(sort, other),
        None => true,
    }
}

/// Whether an array's length is 1 to 1024.
pub fn is_sort(sort: Sort) -> bool
    ensures { result ≡ is_sort sort }
{
    match sort {
        Sort::Int => true,
        Sort::Array(n) => 1 <= n && n <= 1024,
    }
}

/// The head of a predicate: the first one of its name.
pub fn find_head<'a>(heads: &'a [Head], name: &Name) -> Option<&'a Head>
    ensures { option_copied result ≡ find (is_head name.now) heads.now }
{
    for head in heads {
        if head.name.is(name) {
            return Some(head);
        }
    }
    None
}

fn check_order(
    scope: &Scope,
    binders: &[Sort],
    t: &Term,
    u: &Term,
    place: u32,
) -> Result<u32, TermError>
    requires { place + (term_weight t.now + term_weight u.now + 1) ≤ u32.MAX }
    ensures next { IfOk result (λ next. next ≡ place + (term_weight t.now + term_weight u.now + 1)) }
    ensures none { IfOk result (λ _. (binary (sort_report scope.now binders.now t.now) (sort_report scope.now binders.now u.now)).fault place ≡ None) }
    ensures fault { IfErr result (λ e. (binary (sort_report scope.now binders.now t.now) (sort_report scope.now binders.now u.now)).fault place ≡ Some e) }
{
    let ints = is_int(given_sort(scope, binders, t)) && is_int(given_sort(scope, binders, u));
    let next = holds(ints, place)?;
    let next = check_counted(scope, binders, t, next)?;
    check_counted(scope, binders, u, next)
}

fn check_application(
    scope: &Scope,
    head: Option<&Head>,
    binders: &[Sort],
    name: &Name,
    args: &[Term],
    place: u32,
) -> Result<u32, TermError>
    requires { place + terms_weight args.now + 1 ≤ u32.MAX }
    ensures next { IfOk result (λ next. next ≡ place + (terms_weight args.now + 1)) }
    ensures none { IfOk result (λ _. application (option_copied head.entry) name.now (map (sort_report scope.now binders.now) args.now) place ≡ None) }
    ensures fault { IfErr result (λ e. application (option_copied head.entry) name.now (map (sort_report scope.now binders.now) args.now) place ≡ Some e) }
{
    match head {
        Some(head) => {
            let next = holds(takes(scope, binders, head.sorts.as_slice(), args), place)?;
            check_terms(scope, binders, args, next)
        }
        None => Err(TermError::UnknownName(name.copy())),
    }
}

fn takes(scope: &Scope, binders: &[Sort], sorts: &[Sort], args: &[Term]) -> bool
    ensures { result ≡ takes sorts.now (map (sort_report scope.now binders.now) args.now) }
{
    if sorts.len() != args.len() {
        return false;
    }
    for i in 0..sorts.len() {
        if !may_be(sorts[i], given_sort(scope, binders, &args[i])) {
            return false;
        }
    }
    true
}

fn check_terms(scope: &Scope, binders: &[Sort], args: &[Term], place: u32) -> Result<u32, TermError>
    requires { place + terms_weight args.now ≤ u32.MAX }
    ensures next { IfOk result (λ next. next ≡ place + terms_weight args.now) }
    ensures none { IfOk result (λ _. first_fault (map (sort_report scope.now binders.now) args.now) place ≡ None) }
    ensures fault { IfErr result (λ e. first_fault (map (sort_report scope.now binders.now) args.now) place ≡ Some e) }
{
    let mut next = place;
    for arg in args {
        next = check_counted(scope, binders, arg, next)?;
    }
    Ok(next)
}

/// The binders with one more inside.
pub fn bind(alloc: Global, sort: Sort, binders: &[Sort]) -> Result<Items<Sort>, AllocError>
    ensures { IfOk result (λ inner. inner ≡ sort ∷ binders.now) }
{
    let mut inner = Items::new(alloc);
    inner.push(sort)?;
    for binder in binders {
        inner.push(*binder)?;
    }
    Ok(inner)
}
