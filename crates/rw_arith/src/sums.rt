//! Sums, differences, negations and multiples of polynomials, in the order of their steps.

ghost use Rattle.std.specs.Prelude.{◌≡◌, IsTrue, IfOk};
ghost use Rattle.rw_arith.specs.Polynomials.{with_summand, and_then, for_each, sum, is_negatable, negated_summand, negated, negated_polynomial, difference, with_multiple, with_multiples};

use crate::poly::{Expansion, Summand, add};
use rw_items::Items;
use rw_terms::copying::copy_terms;
use std::alloc::{AllocError, Global};

/// The sum: the right one's summands are added, one after the other, to the left one's.
pub fn sum(alloc: Global, left: Expansion, right: &Expansion) -> Result<Expansion, AllocError>
    ensures { IfOk result (λ e. e ≡ sum left right.now) }
{
    match left {
        Expansion::Polynomial(summands) => match right {
            Expansion::Polynomial(more) => add_each(alloc, summands, more.as_slice()),
            Expansion::Unfit => Ok(Expansion::Unfit),
            Expansion::Wide => Ok(Expansion::Wide),
        },
        Expansion::Unfit => Ok(Expansion::Unfit),
        Expansion::Wide => Ok(Expansion::Wide),
    }
}

fn add_each(
    alloc: Global,
    summands: Items<Summand>,
    more: &[Summand],
) -> Result<Expansion, AllocError>
    ensures { IfOk result (λ e. e ≡ for_each with_summand more.now (Expansion.Polynomial summands)) }
{
    let mut sum = Expansion::Polynomial(summands);
    for summand in more {
        sum = add_one(alloc, sum, summand)?;
    }
    Ok(sum)
}

fn add_one(alloc: Global, sum: Expansion, summand: &Summand) -> Result<Expansion, AllocError>
    ensures { IfOk result (λ e. e ≡ and_then sum (λ p. with_summand p summand.now)) }
{
    match sum {
        Expansion::Polynomial(summands) => add(summands, summand.copy(alloc)?),
        Expansion::Unfit => Ok(Expansion::Unfit),
        Expansion::Wide => Ok(Expansion::Wide),
    }
}

/// The negation: each summand is negated.
pub fn negate(expansion: Expansion) -> Expansion
    ensures { result ≡ negated expansion }
{
    match expansion {
        Expansion::Polynomial(summands) => negate_each(summands),
        Expansion::Unfit => Expansion::Unfit,
        Expansion::Wide => Expansion::Wide,
    }
}

fn negate_each(summands: Items<Summand>) -> Expansion
    ensures { result ≡ negated_polynomial summands }
{
    let mut summands = summands;
    for i in 0..summands.len() {
        if !negate_one(summands.item_mut(i)) {
            return Expansion::Wide;
        }
    }
    Expansion::Polynomial(summands)
}

// Negates a summand, and tells whether it can be.
fn negate_one(summand: &mut Summand) -> bool
    ensures told { result ≡ is_negatable summand.old }
    ensures done { IsTrue result → summand.new ≡ negated_summand summand.old }
{
    match summand.times.checked_neg() {
        Some(times) => {
            summand.times = times;
            true
        }
        None => false,
    }
}

/// The difference: the right one is negated first and then added.
pub fn difference(alloc: Global, left: Expansion, right: Expansion) -> Result<Expansion, AllocError>
    ensures { IfOk result (λ e. e ≡ difference left right) }
{
    sum(alloc, left, &negate(right))
}

/// The sum so far with a multiple of each summand, one after the other.
pub fn add_multiples(
    alloc: Global,
    sum: Expansion,
    times: i128,
    more: &[Summand],
) -> Result<Expansion, AllocError>
    ensures { IfOk result (λ e. e ≡ with_multiples times more.now sum) }
{
    let mut sum = sum;
    for summand in more {
        sum = add_multiple(alloc, sum, times, summand)?;
    }
    Ok(sum)
}

fn add_multiple(
    alloc: Global,
    sum: Expansion,
    times: i128,
    summand: &Summand,
) -> Result<Expansion, AllocError>
    ensures { IfOk result (λ e. e ≡ and_then sum (λ p. with_multiple times p summand.now)) }
{
    let summands = match sum {
        Expansion::Polynomial(summands) => summands,
        other => return Ok(other),
    };
    match summand.times.checked_mul(times) {
        Some(product) => {
            let atoms = copy_terms(alloc, summand.atoms.as_slice())?;
            add(
                summands,
                Summand {
                    times: product,
                    atoms,
                },
            )
        }
        None => Ok(Expansion::Wide),
    }
}
