//! Rows, and the sums of two of them.

ghost use Rattle.std.specs.Prelude.{◌≡◌, ◌+◌, ◌<◌, pos, ◌<ℤ◌, ◌+ℤ◌, ◌*ℤ◌, ◌&&◌, IfOk};
ghost use Rattle.std.specs.List.{list_all};
ghost use Rattle.rw_arith.specs.Polynomials.{is_narrow};
ghost use Rattle.rw_elimination.specs.Rows.{row_of, multiples_fit, fitting, sum_fits, summed, named, paired};

use crate::coefficients::{lead, like};
use crate::row::{Inequality, Parts, Row};
use rw_arith::line::{Part, Ref};
use rw_arith::poly::{Expansion, Summand};
use rw_arith::sums::add_multiples;
use rw_items::Items;
use rw_terms::term::Term;
use std::alloc::{AllocError, Global};

/// The row of these parts, whose sum is given.
pub fn row_of(atoms: &[Term], parts: Parts, sum: Expansion) -> Row
    ensures { result ≡ row_of atoms.now parts sum }
{
    match sum {
        Expansion::Polynomial(summands) => {
            let lead = lead(atoms, summands.as_slice());
            Row::Fits(Inequality {
                parts,
                summands,
                lead,
            })
        }
        Expansion::Unfit => Row::Long,
        Expansion::Wide => Row::Wide,
    }
}

/// The sum of multiples of two rows in which an atom cancels: `up` and `down` are its coefficients in the first row and
/// in the second, and `first` and `second` the numbers of these rows.
pub fn paired(
    alloc: Global,
    atoms: &[Term],
    first: u32,
    one: &Inequality,
    up: i128,
    second: u32,
    other: &Inequality,
    down: i128,
) -> Result<Row, AllocError>
    requires up { pos 0 <ℤ up }
    requires down { down <ℤ pos 0 }
    ensures { IfOk result (λ row. row ≡ paired atoms.now first one.now up second other.now down) }
{
    match down.checked_neg() {
        Some(times) => {
            let parts = Parts::Two(
                named(times, first, one.parts),
                named(up, second, other.parts),
            );
            let sum = summed(
                alloc,
                times,
                one.summands.as_slice(),
                up,
                other.summands.as_slice(),
            )?;
            Ok(row_of(atoms, parts, sum))
        }
        None => Ok(Row::Wide),
    }
}

// A multiple of the row of this number, as a part of a line.
fn named(times: i128, number: u32, parts: Parts) -> Part
    requires { pos 0 <ℤ times }
    ensures { result ≡ named times number parts }
{
    match parts {
        Parts::One(part) => Part {
            times: if part.times < 0 { -times } else { times },
            of: part.of,
        },
        Parts::Two(_, _) => Part {
            times,
            of: Ref::Line(number),
        },
    }
}

/// The polynomial of a hypothesis, unless a coefficient passes 128 bits.
pub fn fitting(sum: Expansion) -> Expansion
    ensures { result ≡ fitting sum }
{
    match sum {
        Expansion::Polynomial(summands) => {
            if multiples_fit(1, summands.as_slice()) {
                Expansion::Polynomial(summands)
            } else {
                Expansion::Wide
            }
        }
        Expansion::Unfit => Expansion::Unfit,
        Expansion::Wide => Expansion::Wide,
    }
}

// The sum of multiples of two polynomials, unless a coefficient passes 128 bits.
fn summed(
    alloc: Global,
    times: i128,
    ones: &[Summand],
    up: i128,
    others: &[Summand],
) -> Result<Expansion, AllocError>
    ensures { IfOk result (λ e. e ≡ summed times ones.now up others.now) }
{
    if !multiples_fit(times, ones) || !sums_fit(times, ones, up, others) {
        return Ok(Expansion::Wide);
    }
    let none = Expansion::Polynomial(Items::new(alloc));
    let multiple = add_multiples(alloc, none, times, ones)?;
    add_multiples(alloc, multiple, up, others)
}

fn multiples_fit(times: i128, summands: &[Summand]) -> bool
    ensures { result ≡ multiples_fit times summands.now }
{
    for summand in summands {
        if !is_product_narrow(summand.times, times) {
            return false;
        }
    }
    true
}

fn is_product_narrow(one: i128, other: i128) -> bool
    ensures { result ≡ is_narrow (one *ℤ other) }
{
    one.checked_mul(other).is_some()
}

fn sums_fit(times: i128, ones: &[Summand], up: i128, others: &[Summand]) -> bool
    ensures { result ≡ list_all (sum_fits times ones.now up) others.now }
{
    for summand in others {
        if !sum_fits(times, ones, up, summand) {
            return false;
        }
    }
    true
}

fn sum_fits(times: i128, ones: &[Summand], up: i128, summand: &Summand) -> bool
    ensures { result ≡ sum_fits times ones.now up summand.now }
{
    match like(summand.atoms.as_slice(), ones).checked_mul(times) {
        Some(before) => is_sum_narrow(before, summand.times, up),
        None => false,
    }
}

// Whether so many times a number is within 128 bits, and its sum with another.
fn is_sum_narrow(before: i128, one: i128, up: i128) -> bool
    ensures { result ≡ (is_narrow (one *ℤ up) && is_narrow (before +ℤ (one *ℤ up))) }
{
    match one.checked_mul(up) {
        Some(more) => before.checked_add(more).is_some(),
        None => false,
    }
}
