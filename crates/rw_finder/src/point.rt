//! The point that rows without a negative constant leave.

ghost use Rattle.std.specs.Prelude.{◌≡◌, ◌+◌, ◌<◌, length, IfOk};
ghost use Rattle.rw_arith.specs.Lines.{is_positive, is_negative};
ghost use Rattle.rw_elimination.specs.Elimination.{lead_by};
ghost use Rattle.rw_finder.specs.Fractions.{if_some, is_below};
ghost use Rattle.rw_finder.specs.Point.{with_term, with_terms, reckoned, lower_bound, upper_bound, better, with_bound, lower_in, greatest_lower, upper_in, least_upper, or_zero, or_upper, value_at, last_values};

use crate::fraction::Fraction;
use crate::numbers;
use rw_arith::poly::Summand;
use rw_elimination::coefficients::{coefficient, constant};
use rw_elimination::eliminate::lead_by;
use rw_elimination::row::Row;
use rw_items::Items;
use rw_terms::term::Term;
use std::alloc::{AllocError, Global};

/// The values of all atoms, in order, unless a number in their reckoning passes 128 bits.
pub fn values(
    alloc: Global,
    atoms: &[Term],
    rows: &[Row],
) -> Result<Option<Items<Fraction>>, AllocError>
    ensures { IfOk result (λ vs. vs ≡ last_values atoms.now rows.now (length atoms.now)) }
{
    let mut values = Items::new(alloc);
    for behind in 0..atoms.len() {
        let at = atoms.len() - behind - 1;
        match value_at(atoms, rows, at, values.as_slice()) {
            Some(value) => values.insert(0, value)?,
            None => return Ok(None),
        }
    }
    Ok(Some(values))
}

// An atom's value: its greatest lower bound, else its least upper bound, else 0.
fn value_at(atoms: &[Term], rows: &[Row], at: usize, values: &[Fraction]) -> Option<Fraction>
    requires { at < length atoms.now }
    ensures { result ≡ value_at atoms.now rows.now at values.now }
{
    match greatest_lower(atoms, rows, at, values)? {
        Some(bound) => Some(bound),
        None => Some(or_zero(least_upper(atoms, rows, at, values)?)),
    }
}

fn or_zero(bound: Option<Fraction>) -> Fraction
    ensures { result ≡ or_zero bound }
{
    match bound {
        Some(bound) => bound,
        None => Fraction { above: 0, below: 1 },
    }
}

fn greatest_lower(
    atoms: &[Term],
    rows: &[Row],
    at: usize,
    values: &[Fraction],
) -> Option<Option<Fraction>>
    requires { at < length atoms.now }
    ensures { result ≡ greatest_lower atoms.now at values.now None rows.now }
{
    let mut best = None;
    for row in rows {
        best = lower_in(atoms, at, values, best, row)?;
    }
    Some(best)
}

fn lower_in(
    atoms: &[Term],
    at: usize,
    values: &[Fraction],
    best: Option<Fraction>,
    row: &Row,
) -> Option<Option<Fraction>>
    requires { at < length atoms.now }
    ensures { result ≡ lower_in atoms.now at values.now best row.now }
{
    match row {
        Row::Fits(inequality) => {
            let times = lead_by(at, inequality.lead);
            if times <= 0 {
                return Some(best);
            }
            let sum = reckoned(atoms, at, values, inequality.summands.as_slice())?;
            let bound = sum.opposite()?.over(times)?;
            Some(greater(best, bound))
        }
        Row::Wide | Row::Long => Some(best),
    }
}

fn greater(best: Option<Fraction>, bound: Fraction) -> Option<Fraction>
    ensures { result ≡ better (λ f g. is_below g f) best bound }
{
    match best {
        Some(best) => {
            if best.is_below(bound) {
                Some(bound)
            } else {
                Some(best)
            }
        }
        None => Some(bound),
    }
}

fn least_upper(
    atoms: &[Term],
    rows: &[Row],
    at: usize,
    values: &[Fraction],
) -> Option<Option<Fraction>>
    requires { at < length atoms.now }
    ensures { result ≡ least_upper atoms.now at values.now None rows.now }
{
    let mut best = None;
    for row in rows {
        best = upper_in(atoms, at, values, best, row)?;
    }
    Some(best)
}

fn upper_in(
    atoms: &[Term],
    at: usize,
    values: &[Fraction],
    best: Option<Fraction>,
    row: &Row,
) -> Option<Option<Fraction>>
    requires { at < length atoms.now }
    ensures { result ≡ upper_in atoms.now at values.now best row.now }
{
    match row {
        Row::Fits(inequality) => {
            let times = lead_by(at, inequality.lead);
            if times >= 0 {
                return Some(best);
            }
            let sum = reckoned(atoms, at, values, inequality.summands.as_slice())?;
            let bound = sum.over(numbers::opposite(times)?)?;
            Some(less(best, bound))
        }
        Row::Wide | Row::Long => Some(best),
    }
}

fn less(best: Option<Fraction>, bound: Fraction) -> Option<Fraction>
    ensures { result ≡ better is_below best bound }
{
    match best {
        Some(best) => {
            if bound.is_below(best) {
                Some(bound)
            } else {
                Some(best)
            }
        }
        None => Some(bound),
    }
}

// The sum from the constant on, with the terms of the atoms behind a place, which have values.
fn reckoned(
    atoms: &[Term],
    at: usize,
    values: &[Fraction],
    summands: &[Summand],
) -> Option<Fraction>
    requires { at < length atoms.now }
    ensures { result ≡ reckoned atoms.now at values.now summands.now }
{
    let start = Fraction {
        above: constant(summands),
        below: 1,
    };
    with_terms(summands, &atoms[at + 1..], values, start)
}

fn with_terms(
    summands: &[Summand],
    atoms: &[Term],
    values: &[Fraction],
    start: Fraction,
) -> Option<Fraction>
    ensures { result ≡ with_terms summands.now atoms.now values.now start }
{
    let mut sum = start;
    for i in 0..atoms.len() {
        if i >= values.len() {
            return Some(sum);
        }
        sum = with_term(summands, &atoms[i], values[i], sum)?;
    }
    Some(sum)
}

fn with_term(summands: &[Summand], atom: &Term, value: Fraction, sum: Fraction) -> Option<Fraction>
    ensures { result ≡ with_term summands.now atom.now value sum }
{
    sum.plus(value.times(coefficient(atom, summands))?)
}
