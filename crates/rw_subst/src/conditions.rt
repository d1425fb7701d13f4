//! The conditions that say that a term is defined.

ghost use Rattle.std.specs.Prelude.{◌≡◌, ◌++◌, ◌<◌, length, IfOk, OnOk};
ghost use Rattle.rw_subst.specs.Conj.{conj, conj_with};
ghost use Rattle.rw_subst.specs.Definedness.{nonzero, not_negative, below, array_length, in_range, conditions, conditions_of, guard_conditions};

use rw_items::{Boxed, Items};
use rw_terms::scope::Scope;
use rw_terms::sorts::given_sort;
use rw_terms::term::{Formula, Sort, Term};
use std::alloc::{AllocError, Global};

/// Puts the conditions of a term behind those found.
#[cycle(ask_term)]
pub fn ask_term(
    alloc: Global,
    scope: &Scope,
    term: &Term,
    found: &mut Items<Formula>,
) -> Result<(), AllocError>
    ensures { OnOk result (found.new ≡ found.old ++ conditions scope.now term.now) }
{
    match term {
        Term::Lit(_) | Term::Var(_) | Term::Init(_) | Term::Const(_) | Term::Bound(_) => Ok(()),
        Term::Neg(a) => ask_term(alloc, scope, a.get(), found),
        Term::Add(a, b) | Term::Sub(a, b) | Term::Mul(a, b) => {
            ask_term(alloc, scope, a.get(), found)?;
            ask_term(alloc, scope, b.get(), found)
        }
        Term::Div(a, b) | Term::Mod(a, b) => {
            ask_term(alloc, scope, a.get(), found)?;
            ask_term(alloc, scope, b.get(), found)?;
            found.push(nonzero(alloc, b.get())?)
        }
        Term::Read(a, at) => {
            ask_term(alloc, scope, a.get(), found)?;
            ask_term(alloc, scope, at.get(), found)?;
            ask_range(alloc, scope, a.get(), at.get(), found)
        }
        Term::Put(a, i, e) => {
            ask_term(alloc, scope, a.get(), found)?;
            ask_term(alloc, scope, i.get(), found)?;
            ask_term(alloc, scope, e.get(), found)?;
            ask_range(alloc, scope, a.get(), i.get(), found)
        }
        Term::Fun(_, args) => ask_terms(alloc, scope, args.as_slice(), found),
    }
}

/// Puts the conditions of terms behind those found.
#[cycle(ask_term)]
pub fn ask_terms(
    alloc: Global,
    scope: &Scope,
    terms: &[Term],
    found: &mut Items<Formula>,
) -> Result<(), AllocError>
    ensures { OnOk result (found.new ≡ found.old ++ conditions_of scope.now terms.now) }
{
    for term in terms {
        ask_term(alloc, scope, term, found)?;
    }
    Ok(())
}

/// Puts the conditions of all terms of a guard behind those found.
pub fn ask_guard(
    alloc: Global,
    scope: &Scope,
    guard: &Formula,
    found: &mut Items<Formula>,
) -> Result<(), AllocError>
    ensures { OnOk result (found.new ≡ found.old ++ guard_conditions scope.now guard.now) }
{
    match guard {
        Formula::True | Formula::False => Ok(()),
        Formula::Eq(t, u) | Formula::Less(t, u) | Formula::AtMost(t, u) => {
            ask_term(alloc, scope, t, found)?;
            ask_term(alloc, scope, u, found)
        }
        Formula::Not(f) | Formula::All(_, f) | Formula::Any(_, f) => {
            ask_guard(alloc, scope, f.get(), found)
        }
        Formula::And(f, g) | Formula::Or(f, g) | Formula::Imp(f, g) => {
            ask_guard(alloc, scope, f.get(), found)?;
            ask_guard(alloc, scope, g.get(), found)
        }
        Formula::App(_, args) => ask_terms(alloc, scope, args.as_slice(), found),
    }
}

// Puts the conditions that an index is within an array behind those found.
fn ask_range(
    alloc: Global,
    scope: &Scope,
    array: &Term,
    index: &Term,
    found: &mut Items<Formula>,
) -> Result<(), AllocError>
    ensures { OnOk result (found.new ≡ found.old ++ in_range scope.now array.now index.now) }
{
    found.push(not_negative(alloc, index)?)?;
    let length = array_length(given_sort(scope, &[], array));
    found.push(below(alloc, index, length)?)
}

fn nonzero(alloc: Global, divisor: &Term) -> Result<Formula, AllocError>
    ensures { IfOk result (λ f. f ≡ nonzero divisor.now) }
{
    let zero = Formula::Eq(divisor.copy(alloc)?, Term::Lit(0));
    Ok(Formula::Not(Boxed::new(alloc, zero)?))
}

fn not_negative(alloc: Global, index: &Term) -> Result<Formula, AllocError>
    ensures { IfOk result (λ f. f ≡ not_negative index.now) }
{
    Ok(Formula::AtMost(Term::Lit(0), index.copy(alloc)?))
}

fn below(alloc: Global, index: &Term, length: u16) -> Result<Formula, AllocError>
    ensures { IfOk result (λ f. f ≡ below index.now length) }
{
    Ok(Formula::Less(index.copy(alloc)?, Term::Lit(i128::from(length))))
}

/// The length of an array by its sort.
pub fn array_length(sort: Option<Sort>) -> u16
    ensures { result ≡ array_length sort }
{
    match sort {
        Some(Sort::Array(length)) => length,
        _ => 0,
    }
}

/// The formulas joined from the left by `and`. Of none it is `true`.
pub fn join(alloc: Global, formulas: Items<Formula>) -> Result<Formula, AllocError>
    ensures { IfOk result (λ f. f ≡ conj formulas) }
{
    if formulas.is_empty() {
        return Ok(Formula::True);
    }
    join_behind(alloc, formulas)
}

// Joins formulas of which there is one at least.
fn join_behind(alloc: Global, formulas: Items<Formula>) -> Result<Formula, AllocError>
    requires { 0 < length formulas }
    ensures { IfOk result (λ f. f ≡ conj formulas) }
{
    let mut rest = formulas;
    let mut all = rest.remove(0);
    'more: while !rest.is_empty() {
        let next = rest.remove(0);
        all = both(alloc, all, next)?;
    }
    Ok(all)
}

fn both(alloc: Global, one: Formula, other: Formula) -> Result<Formula, AllocError>
    ensures { IfOk result (λ f. f ≡ Formula.And one other) }
{
    Ok(Formula::And(Boxed::new(alloc, one)?, Boxed::new(alloc, other)?))
}
