//! What left and right formulas give to arithmetic lines.

ghost use Rattle.std.specs.Prelude.{◌≡◌, IfOk};
ghost use Rattle.rw_arith.specs.Given.{less_of, strictly_less_of, given_by_left, given_by_right, are_polynomials, left_allows, right_allows};

use crate::expand::{constant, expand, is_polynomial};
use crate::poly::Expansion;
use crate::sums::difference;
use rw_terms::term::{Formula, Term};
use std::alloc::{AllocError, Global};

/// The polynomial that is 0 where a left equation is true, and at least 0 where a left inequality is.
pub fn given_by_left(alloc: Global, formula: &Formula) -> Result<Expansion, AllocError>
    ensures { IfOk result (λ e. e ≡ given_by_left formula.now) }
{
    match formula {
        Formula::Eq(s, t) => less_of(alloc, s, t),
        Formula::Less(s, t) => strictly_less_of(alloc, t, s),
        Formula::AtMost(s, t) => less_of(alloc, t, s),
        _ => Ok(Expansion::Unfit),
    }
}

/// The polynomial that is at least 0 where a right inequality is false.
pub fn given_by_right(alloc: Global, formula: &Formula) -> Result<Expansion, AllocError>
    ensures { IfOk result (λ e. e ≡ given_by_right formula.now) }
{
    match formula {
        Formula::Less(s, t) => less_of(alloc, s, t),
        Formula::AtMost(s, t) => strictly_less_of(alloc, s, t),
        _ => Ok(Expansion::Unfit),
    }
}

/// Whether so many times what the left formula gives may be taken.
pub fn left_allows(times: i128, formula: &Formula) -> bool
    ensures { result ≡ left_allows times formula.now }
{
    match formula {
        Formula::Eq(s, t) => are_polynomials(s, t),
        Formula::Less(s, t) | Formula::AtMost(s, t) => 0 <= times && are_polynomials(s, t),
        _ => false,
    }
}

/// Whether so many times what the right formula gives may be taken.
pub fn right_allows(times: i128, formula: &Formula) -> bool
    ensures { result ≡ right_allows times formula.now }
{
    match formula {
        Formula::Less(s, t) | Formula::AtMost(s, t) => 0 <= times && are_polynomials(s, t),
        _ => false,
    }
}

fn are_polynomials(one: &Term, other: &Term) -> bool
    ensures { result ≡ are_polynomials one.now other.now }
{
    is_polynomial(one) && is_polynomial(other)
}

// The first without the second.
fn less_of(alloc: Global, one: &Term, other: &Term) -> Result<Expansion, AllocError>
    ensures { IfOk result (λ e. e ≡ less_of one.now other.now) }
{
    let left = expand(alloc, one)?;
    let right = expand(alloc, other)?;
    difference(alloc, left, right)
}

// The first without the second, and without 1.
fn strictly_less_of(alloc: Global, one: &Term, other: &Term) -> Result<Expansion, AllocError>
    ensures { IfOk result (λ e. e ≡ strictly_less_of one.now other.now) }
{
    let left = less_of(alloc, one, other)?;
    let right = constant(alloc, 1)?;
    difference(alloc, left, right)
}
