//! The polynomials of arithmetic lines.

ghost use Rattle.std.specs.Prelude.{◌≡◌, pos, ◌<ℤ◌, [], ◌∷◌, ◌++◌, IfOk, OnOk, option_copied};
ghost use Rattle.std.specs.List.{list_all, filter};
ghost use Rattle.rw_arith.specs.Polynomials.{and_then, with_multiples};
ghost use Rattle.rw_arith.specs.Lines.{numbered, is_allowed, with_part, with_parts, sum_of, divides, divides_all, quotient_of, is_there, quotients, divided, line_expansion};

use crate::given::{given_by_left, given_by_right, left_allows, right_allows};
use crate::line::{LinLine, Part, Ref};
use crate::poly::{Expansion, Summand, is_product};
use crate::sums::add_multiples;
use rw_items::{Items, at};
use rw_terms::copying::copy_terms;
use rw_terms::division::{quotient, rest};
use rw_terms::term::Formula;
use std::alloc::{AllocError, Global};

/// The polynomial of a line, where those of the lines before it are given; or the first cause why it has none.
pub fn expand_line(
    alloc: Global,
    left: &[Formula],
    right: &[Formula],
    made: &[Items<Summand>],
    line: &LinLine,
) -> Result<Expansion, AllocError>
    ensures { IfOk result (λ e. e ≡ line_expansion left.now right.now made.now line.now) }
{
    match line {
        LinLine::Sum(parts) => sum_of(alloc, left, right, made, parts.as_slice()),
        LinLine::Divide(number, by) => match numbered(made, *number) {
            Some(summands) => divide(alloc, *by, summands.as_slice()),
            None => Ok(Expansion::Unfit),
        },
    }
}

/// What has this number, counted from 1.
pub fn numbered<T>(items: &[T], number: u32) -> Option<&T>
    ensures { option_copied result ≡ numbered items.now number }
{
    if number == 0 {
        return None;
    }
    at(items, (number - 1) as usize)
}

fn sum_of(
    alloc: Global,
    left: &[Formula],
    right: &[Formula],
    made: &[Items<Summand>],
    parts: &[Part],
) -> Result<Expansion, AllocError>
    ensures { IfOk result (λ e. e ≡ sum_of left.now right.now made.now parts.now) }
{
    if !are_allowed(left, right, made, parts) {
        return Ok(Expansion::Unfit);
    }
    add_parts(alloc, left, right, made, parts)
}

fn are_allowed(left: &[Formula], right: &[Formula], made: &[Items<Summand>], parts: &[Part]) -> bool
    ensures { result ≡ list_all (is_allowed left.now right.now made.now) parts.now }
{
    for part in parts {
        if !is_allowed(left, right, made, part) {
            return false;
        }
    }
    true
}

// Whether the part names what is there, and the multiple of it may be taken.
fn is_allowed(left: &[Formula], right: &[Formula], made: &[Items<Summand>], part: &Part) -> bool
    ensures { result ≡ is_allowed left.now right.now made.now part.now }
{
    match part.of {
        Ref::Left(number) => match numbered(left, number) {
            Some(formula) => left_allows(part.times, formula),
            None => false,
        },
        Ref::Right(number) => match numbered(right, number) {
            Some(formula) => right_allows(part.times, formula),
            None => false,
        },
        Ref::Line(number) => match numbered(made, number) {
            Some(_) => 0 <= part.times,
            None => false,
        },
    }
}

fn add_parts(
    alloc: Global,
    left: &[Formula],
    right: &[Formula],
    made: &[Items<Summand>],
    parts: &[Part],
) -> Result<Expansion, AllocError>
    ensures { IfOk result (λ e. e ≡ with_parts left.now right.now made.now parts.now (Expansion.Polynomial [])) }
{
    let mut sum = Expansion::Polynomial(Items::new(alloc));
    for part in parts {
        sum = go_on(alloc, left, right, made, sum, part)?;
    }
    Ok(sum)
}

fn go_on(
    alloc: Global,
    left: &[Formula],
    right: &[Formula],
    made: &[Items<Summand>],
    sum: Expansion,
    part: &Part,
) -> Result<Expansion, AllocError>
    ensures { IfOk result (λ e. e ≡ and_then sum (λ p. with_part left.now right.now made.now p part.now)) }
{
    match sum {
        Expansion::Polynomial(summands) => add_part(alloc, left, right, made, summands, part),
        Expansion::Unfit => Ok(Expansion::Unfit),
        Expansion::Wide => Ok(Expansion::Wide),
    }
}

fn add_part(
    alloc: Global,
    left: &[Formula],
    right: &[Formula],
    made: &[Items<Summand>],
    sum: Items<Summand>,
    part: &Part,
) -> Result<Expansion, AllocError>
    ensures { IfOk result (λ e. e ≡ with_part left.now right.now made.now sum part.now) }
{
    match part.of {
        Ref::Left(number) => match numbered(left, number) {
            Some(formula) => {
                let given = given_by_left(alloc, formula)?;
                add_given(alloc, sum, part.times, &given)
            }
            None => Ok(Expansion::Unfit),
        },
        Ref::Right(number) => match numbered(right, number) {
            Some(formula) => {
                let given = given_by_right(alloc, formula)?;
                add_given(alloc, sum, part.times, &given)
            }
            None => Ok(Expansion::Unfit),
        },
        Ref::Line(number) => match numbered(made, number) {
            Some(summands) => add_multiples(
                alloc,
                Expansion::Polynomial(sum),
                part.times,
                summands.as_slice(),
            ),
            None => Ok(Expansion::Unfit),
        },
    }
}

fn add_given(
    alloc: Global,
    sum: Items<Summand>,
    times: i128,
    given: &Expansion,
) -> Result<Expansion, AllocError>
    ensures { IfOk result (λ e. e ≡ and_then given.now (λ p. with_multiples times p (Expansion.Polynomial sum))) }
{
    match given {
        Expansion::Polynomial(summands) => {
            add_multiples(
                alloc,
                Expansion::Polynomial(sum),
                times,
                summands.as_slice(),
            )
        }
        Expansion::Unfit => Ok(Expansion::Unfit),
        Expansion::Wide => Ok(Expansion::Wide),
    }
}

// Each coefficient divided; the constant is rounded down, and each other one has to be a multiple.
fn divide(alloc: Global, by: i128, summands: &[Summand]) -> Result<Expansion, AllocError>
    ensures { IfOk result (λ e. e ≡ divided by summands.now) }
{
    if by < 1 || !divides_all(by, summands) {
        return Ok(Expansion::Unfit);
    }
    let quotients = quotients(alloc, by, summands)?;
    Ok(Expansion::Polynomial(quotients))
}

fn divides_all(by: i128, summands: &[Summand]) -> bool
    ensures { result ≡ divides_all by summands.now }
{
    if summands.is_empty() {
        return true;
    }
    if is_product(&summands[0]) && !divides(by, &summands[0]) {
        return false;
    }
    divides_each(by, &summands[1..])
}

fn divides_each(by: i128, summands: &[Summand]) -> bool
    ensures { result ≡ list_all (divides by) summands.now }
{
    for summand in summands {
        if !divides(by, summand) {
            return false;
        }
    }
    true
}

fn divides(by: i128, summand: &Summand) -> bool
    ensures { result ≡ divides by summand.now }
{
    rest(summand.times, by) == 0
}

fn quotients(alloc: Global, by: i128, summands: &[Summand]) -> Result<Items<Summand>, AllocError>
    requires { pos 0 <ℤ by }
    ensures { IfOk result (λ p. p ≡ quotients by summands.now) }
{
    let mut quotients = Items::new(alloc);
    for summand in summands {
        push_quotient(alloc, &mut quotients, by, summand)?;
    }
    Ok(quotients)
}

// Puts the quotient at the end, unless it is 0.
fn push_quotient(
    alloc: Global,
    quotients: &mut Items<Summand>,
    by: i128,
    summand: &Summand,
) -> Result<(), AllocError>
    requires { pos 0 <ℤ by }
    ensures { OnOk result (quotients.new ≡ quotients.old ++ filter is_there (quotient_of by summand.now ∷ [])) }
{
    match quotient(summand.times, by) {
        Some(times) => {
            if times != 0 {
                let atoms = copy_terms(alloc, summand.atoms.as_slice())?;
                quotients.push(Summand { times, atoms })?;
            }
            Ok(())
        }
        None => Ok(()),
    }
}
