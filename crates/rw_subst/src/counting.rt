//! The size of joined conditions, reckoned without building them.

ghost use Rattle.std.specs.Prelude.{◌≡◌, ℕ, Some};
ghost use Rattle.rw_subst.specs.Conj.{formula_size, size_and_also, sizes_joined, IsCompared};
ghost use Rattle.rw_subst.specs.Definedness.{nonzero, not_negative, below, in_range, conditions, conditions_of, guard_conditions};

use crate::size::{ONE, Size, above, above_two, size_as_it_is};
use rw_terms::scope::Scope;
use rw_terms::term::{Formula, Term};

/// The size of the conditions of a term behind what is joined so far.
#[cycle(count_term)]
pub fn count_term(scope: &Scope, term: &Term, so_far: Option<Size>) -> Option<Size>
    ensures { result ≡ sizes_joined so_far (conditions scope.now term.now) }
{
    match term {
        Term::Lit(_) | Term::Var(_) | Term::Init(_) | Term::Const(_) | Term::Bound(_) => so_far,
        Term::Neg(a) => count_term(scope, a.get(), so_far),
        Term::Add(a, b) | Term::Sub(a, b) | Term::Mul(a, b) => {
            let so_far = count_term(scope, a.get(), so_far);
            count_term(scope, b.get(), so_far)
        }
        Term::Div(a, b) | Term::Mod(a, b) => {
            let so_far = count_term(scope, a.get(), so_far);
            let so_far = count_term(scope, b.get(), so_far);
            Some(count(so_far, size_of_nonzero(b.get())))
        }
        Term::Read(a, i) => {
            let so_far = count_term(scope, a.get(), so_far);
            let so_far = count_term(scope, i.get(), so_far);
            count_range(scope, a.get(), i.get(), so_far)
        }
        Term::Put(a, i, e) => {
            let so_far = count_term(scope, a.get(), so_far);
            let so_far = count_term(scope, i.get(), so_far);
            let so_far = count_term(scope, e.get(), so_far);
            count_range(scope, a.get(), i.get(), so_far)
        }
        Term::Fun(_, args) => count_terms(scope, args.as_slice(), so_far),
    }
}

/// The same of terms, one after another.
#[cycle(count_term)]
pub fn count_terms(scope: &Scope, terms: &[Term], so_far: Option<Size>) -> Option<Size>
    ensures { result ≡ sizes_joined so_far (conditions_of scope.now terms.now) }
{
    let mut all = so_far;
    for term in terms {
        all = count_term(scope, term, all);
    }
    all
}

/// The size of the conditions of all terms of a guard behind what is joined so far.
pub fn count_guard(scope: &Scope, guard: &Formula, so_far: Option<Size>) -> Option<Size>
    ensures { result ≡ sizes_joined so_far (guard_conditions scope.now guard.now) }
{
    match guard {
        Formula::True | Formula::False => so_far,
        Formula::Eq(t, u) | Formula::Less(t, u) | Formula::AtMost(t, u) => {
            let so_far = count_term(scope, t, so_far);
            count_term(scope, u, so_far)
        }
        Formula::Not(f) | Formula::All(_, f) | Formula::Any(_, f) => count_guard(
            scope,
            f.get(),
            so_far,
        ),
        Formula::And(f, g) | Formula::Or(f, g) | Formula::Imp(f, g) => {
            let so_far = count_guard(scope, f.get(), so_far);
            count_guard(scope, g.get(), so_far)
        }
        Formula::App(_, args) => count_terms(scope, args.as_slice(), so_far),
    }
}

// The size with the conditions that an index is within an array. The array's length is a number, whatever it is.
fn count_range(scope: &Scope, array: &Term, index: &Term, so_far: Option<Size>) -> Option<Size>
    ensures { result ≡ sizes_joined so_far (in_range scope.now array.now index.now) }
{
    let so_far = Some(count(so_far, size_of_comparison(index)));
    Some(count(so_far, size_of_comparison(index)))
}

/// The size of what is joined so far with one more formula of a size behind it.
pub fn count(so_far: Option<Size>, formula: Size) -> Size
    ensures { result ≡ size_and_also so_far formula }
{
    match so_far {
        Some(before) => above_two(before, formula),
        None => formula,
    }
}

fn size_of_nonzero(divisor: &Term) -> Size
    ensures { result ≡ formula_size (nonzero divisor.now) }
{
    above(size_of_comparison(divisor))
}

// The size of a term compared with a number.
fn size_of_comparison(term: &Term) -> Size
    ensures not_negative { result ≡ formula_size (not_negative term.now) }
    ensures below { (n : ℕ) → result ≡ formula_size (below term.now n) }
    ensures compared { IsCompared term.now result }
{
    above_two(size_as_it_is(term), ONE)
}
