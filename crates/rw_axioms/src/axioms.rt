//! The axioms of arrays and of division: a formula that holds wherever the names have values of their sorts goes to the left.

ghost use Rattle.std.specs.Prelude.{◌≡◌, IfOk, [], pos};
ghost use Rattle.rw_terms.specs.declared.term.Sort.TheVariants.{Int};
ghost use Rattle.rw_terms.specs.declared.term.Term.TheVariants as term;
ghost use Rattle.rw_terms.specs.Rules.{is_of};
ghost use Rattle.rw_goals.specs.Premises.{Gives, effect};
ghost use Rattle.rw_goals.specs.Sorting.{sort_of};
ghost use Rattle.rw_axioms.specs.Axioms.{put_same, put_same_axiom, put_other, put_other_axiom, extension, extension_axiom, division, division_axiom, axiom_parts, array_length, quotient_law, positive_law, negative_law};

use crate::building::{at_most, equal, implies, less, made_up, read, read_put, rest};
use rw_goals::added::{Added, Parts};
use rw_goals::causes::{SORT, TOO_LARGE};
use rw_goals::cut::is_large;
use rw_goals::outcome::{Outcome, put_premises};
use rw_goals::sorting::sort_of;
use rw_items::Boxed;
use rw_terms::joining::both;
use rw_terms::name::Name;
use rw_terms::sequent::Sequent;
use rw_terms::term::{Formula, Sort, Term};
use std::alloc::{AllocError, Global};

/// An index in range is read as what was put there.
pub fn put_same(
    alloc: Global,
    goal: &mut Sequent,
    a: &Term,
    i: &Term,
    e: &Term,
) -> Result<Outcome, AllocError>
    ensures { IfOk result (λ o. Gives o goal.new (effect (axiom_parts (put_same_axiom goal.old.names a.now i.now e.now)) goal.old)) }
{
    let found = put_same_axiom(alloc, goal.names.as_slice(), a, i, e)?;
    add_axiom(alloc, goal, found)
}

/// Another index is read as before.
pub fn put_other(
    alloc: Global,
    goal: &mut Sequent,
    a: &Term,
    i: &Term,
    e: &Term,
    j: &Term,
) -> Result<Outcome, AllocError>
    ensures { IfOk result (λ o. Gives o goal.new (effect (axiom_parts (put_other_axiom goal.old.names a.now i.now e.now j.now)) goal.old)) }
{
    let found = put_other_axiom(alloc, goal.names.as_slice(), a, i, e, j)?;
    add_axiom(alloc, goal, found)
}

/// Arrays of one length are equal where each index is read alike.
pub fn extension(
    alloc: Global,
    goal: &mut Sequent,
    a: &Term,
    b: &Term,
) -> Result<Outcome, AllocError>
    ensures { IfOk result (λ o. Gives o goal.new (effect (axiom_parts (extension_axiom goal.old.names a.now b.now)) goal.old)) }
{
    let found = extension_axiom(alloc, goal.names.as_slice(), a, b)?;
    add_axiom(alloc, goal, found)
}

/// What the quotient and the rest are.
pub fn division(
    alloc: Global,
    goal: &mut Sequent,
    t: &Term,
    u: &Term,
) -> Result<Outcome, AllocError>
    ensures { IfOk result (λ o. Gives o goal.new (effect (axiom_parts (division_axiom goal.old.names t.now u.now)) goal.old)) }
{
    let found = division_axiom(alloc, goal.names.as_slice(), t, u)?;
    add_axiom(alloc, goal, found)
}

fn add_axiom(
    alloc: Global,
    goal: &mut Sequent,
    found: Option<Boxed<Formula>>,
) -> Result<Outcome, AllocError>
    ensures { IfOk result (λ o. Gives o goal.new (effect (axiom_parts found) goal.old)) }
{
    match found {
        None => Ok(Outcome::Fails(0, SORT)),
        Some(formula) => {
            if is_large(formula.get()) {
                return Ok(Outcome::Fails(0, TOO_LARGE));
            }
            let mut added = Added::new(alloc);
            added.left.push(formula.into_inner())?;
            put_premises(alloc, goal, Parts::One(added))
        }
    }
}

/// Whether the term is an integer over the names.
pub fn is_int(names: &[(Name, Sort)], t: &Term) -> bool
    ensures { result ≡ is_of Int (sort_of names.now [] t.now) }
{
    matches!(sort_of(names, &[], t), Some(Sort::Int))
}

fn array_length(names: &[(Name, Sort)], t: &Term) -> Option<u16>
    ensures { result ≡ array_length (sort_of names.now [] t.now) }
{
    match sort_of(names, &[], t) {
        Some(Sort::Array(n)) => Some(n),
        _ => None,
    }
}

fn put_same_axiom(
    alloc: Global,
    names: &[(Name, Sort)],
    a: &Term,
    i: &Term,
    e: &Term,
) -> Result<Option<Boxed<Formula>>, AllocError>
    ensures { IfOk result (λ f. f ≡ put_same_axiom names.now a.now i.now e.now) }
{
    if !is_int(names, i) || !is_int(names, e) {
        return Ok(None);
    }
    match array_length(names, a) {
        Some(n) => Ok(Some(put_same_formula(alloc, a, i, e, n)?)),
        None => Ok(None),
    }
}

fn put_same_formula(
    alloc: Global,
    a: &Term,
    i: &Term,
    e: &Term,
    n: u16,
) -> Result<Boxed<Formula>, AllocError>
    ensures { IfOk result (λ f. f ≡ put_same a.now i.now e.now n) }
{
    let low = at_most(alloc, &Term::Lit(0), i)?;
    let high = less(alloc, i, &Term::Lit(n as i128))?;
    let range = both(alloc, low, high)?;
    let read = read_put(alloc, a, i, e, i)?;
    let same = equal(alloc, read.get(), e)?;
    implies(alloc, range, same)
}

fn put_other_axiom(
    alloc: Global,
    names: &[(Name, Sort)],
    a: &Term,
    i: &Term,
    e: &Term,
    j: &Term,
) -> Result<Option<Boxed<Formula>>, AllocError>
    ensures { IfOk result (λ f. f ≡ put_other_axiom names.now a.now i.now e.now j.now) }
{
    if !is_int(names, i) || !is_int(names, e) || !is_int(names, j) {
        return Ok(None);
    }
    match array_length(names, a) {
        Some(_) => Ok(Some(put_other_formula(alloc, a, i, e, j)?)),
        None => Ok(None),
    }
}

fn put_other_formula(
    alloc: Global,
    a: &Term,
    i: &Term,
    e: &Term,
    j: &Term,
) -> Result<Boxed<Formula>, AllocError>
    ensures { IfOk result (λ f. f ≡ put_other a.now i.now e.now j.now) }
{
    let same = equal(alloc, i, j)?;
    let other = Boxed::new(alloc, Formula::Not(same))?;
    let new = read_put(alloc, a, i, e, j)?;
    let old = read(alloc, a, j)?;
    let alike = equal(alloc, new.get(), old.get())?;
    implies(alloc, other, alike)
}

fn extension_axiom(
    alloc: Global,
    names: &[(Name, Sort)],
    a: &Term,
    b: &Term,
) -> Result<Option<Boxed<Formula>>, AllocError>
    ensures { IfOk result (λ f. f ≡ extension_axiom names.now a.now b.now) }
{
    match (array_length(names, a), array_length(names, b)) {
        (Some(m), Some(n)) => {
            if m != n {
                return Ok(None);
            }
            Ok(Some(extension_formula(alloc, a, b)?))
        }
        _ => Ok(None),
    }
}

fn extension_formula(alloc: Global, a: &Term, b: &Term) -> Result<Boxed<Formula>, AllocError>
    ensures { IfOk result (λ f. f ≡ extension a.now b.now) }
{
    let one = read(alloc, a, &Term::Bound(0))?;
    let other = read(alloc, b, &Term::Bound(0))?;
    let alike = equal(alloc, one.get(), other.get())?;
    let everywhere = Boxed::new(alloc, Formula::All(Sort::Int, alike))?;
    let same = equal(alloc, a, b)?;
    implies(alloc, everywhere, same)
}

fn division_axiom(
    alloc: Global,
    names: &[(Name, Sort)],
    t: &Term,
    u: &Term,
) -> Result<Option<Boxed<Formula>>, AllocError>
    ensures { IfOk result (λ f. f ≡ division_axiom names.now t.now u.now) }
{
    if !is_int(names, t) || !is_int(names, u) {
        return Ok(None);
    }
    let quotient = quotient_law(alloc, t, u)?;
    let positive = positive_law(alloc, t, u)?;
    let negative = negative_law(alloc, t, u)?;
    let front = both(alloc, quotient, positive)?;
    Ok(Some(both(alloc, front, negative)?))
}

fn quotient_law(alloc: Global, t: &Term, u: &Term) -> Result<Boxed<Formula>, AllocError>
    ensures { IfOk result (λ f. f ≡ quotient_law t.now u.now) }
{
    let zero = equal(alloc, u, &Term::Lit(0))?;
    let divides = Boxed::new(alloc, Formula::Not(zero))?;
    let sum = made_up(alloc, t, u)?;
    let same = equal(alloc, t, sum.get())?;
    implies(alloc, divides, same)
}

fn positive_law(alloc: Global, t: &Term, u: &Term) -> Result<Boxed<Formula>, AllocError>
    ensures { IfOk result (λ f. f ≡ positive_law t.now u.now) }
{
    let positive = less(alloc, &Term::Lit(0), u)?;
    let rest = rest(alloc, t, u)?;
    let low = at_most(alloc, &Term::Lit(0), rest.get())?;
    let high = less(alloc, rest.get(), u)?;
    let range = both(alloc, low, high)?;
    implies(alloc, positive, range)
}

fn negative_law(alloc: Global, t: &Term, u: &Term) -> Result<Boxed<Formula>, AllocError>
    ensures { IfOk result (λ f. f ≡ negative_law t.now u.now) }
{
    let negative = less(alloc, u, &Term::Lit(0))?;
    let rest = rest(alloc, t, u)?;
    let low = less(alloc, u, rest.get())?;
    let high = at_most(alloc, rest.get(), &Term::Lit(0))?;
    let range = both(alloc, low, high)?;
    implies(alloc, negative, range)
}
