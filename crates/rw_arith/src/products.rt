//! Products of polynomials, in the order of their steps.

ghost use Rattle.std.specs.Prelude.{◌≡◌, ◌+◌, leb, [], ◌++◌, IfOk};
ghost use Rattle.rw_arith.specs.Polynomials.{and_then, for_each, with_product, with_products, product};

use crate::poly::{Expansion, Summand, add};
use rw_items::Items;
use rw_terms::copying::copy_terms;
use rw_terms::term::Term;
use std::alloc::{AllocError, Global};

const MOST_FACTORS: usize = 16;

/// The product: the left one's summands are taken in order, and for each of them the right one's in order.
pub fn product(alloc: Global, left: &Expansion, right: &Expansion) -> Result<Expansion, AllocError>
    ensures { IfOk result (λ e. e ≡ product left.now right.now) }
{
    match left {
        Expansion::Polynomial(ones) => match right {
            Expansion::Polynomial(others) => multiply(alloc, ones.as_slice(), others.as_slice()),
            Expansion::Unfit => Ok(Expansion::Unfit),
            Expansion::Wide => Ok(Expansion::Wide),
        },
        Expansion::Unfit => Ok(Expansion::Unfit),
        Expansion::Wide => Ok(Expansion::Wide),
    }
}

fn multiply(alloc: Global, ones: &[Summand], others: &[Summand]) -> Result<Expansion, AllocError>
    ensures { IfOk result (λ e. e ≡ for_each (with_products others.now) ones.now (Expansion.Polynomial [])) }
{
    let mut sum = Expansion::Polynomial(Items::new(alloc));
    for one in ones {
        sum = add_products(alloc, sum, one, others)?;
    }
    Ok(sum)
}

// The products of one summand with each of the others, added to the results before.
fn add_products(
    alloc: Global,
    sum: Expansion,
    one: &Summand,
    others: &[Summand],
) -> Result<Expansion, AllocError>
    ensures { IfOk result (λ e. e ≡ for_each (with_product one.now) others.now sum) }
{
    let mut sum = sum;
    for other in others {
        sum = add_product(alloc, sum, one, other)?;
    }
    Ok(sum)
}

fn add_product(
    alloc: Global,
    sum: Expansion,
    one: &Summand,
    other: &Summand,
) -> Result<Expansion, AllocError>
    ensures { IfOk result (λ e. e ≡ and_then sum (λ p. with_product one.now p other.now)) }
{
    let summands = match sum {
        Expansion::Polynomial(summands) => summands,
        other => return Ok(other),
    };
    if !has_room(one.atoms.len(), other.atoms.len()) {
        return Ok(Expansion::Unfit);
    }
    match one.times.checked_mul(other.times) {
        Some(times) => {
            let atoms = join_atoms(alloc, one, other)?;
            add(summands, Summand { times, atoms })
        }
        None => Ok(Expansion::Wide),
    }
}

// Whether a product may have so many factors together.
fn has_room(ones: usize, others: usize) -> bool
    ensures { result ≡ leb (ones + others) 16 }
{
    ones <= MOST_FACTORS && others <= MOST_FACTORS - ones
}

// The atoms of both.
fn join_atoms(alloc: Global, one: &Summand, other: &Summand) -> Result<Items<Term>, AllocError>
    ensures { IfOk result (λ atoms. atoms ≡ one.now.atoms ++ other.now.atoms) }
{
    let mut atoms = copy_terms(alloc, one.atoms.as_slice())?;
    atoms.append(copy_terms(alloc, other.atoms.as_slice())?)?;
    Ok(atoms)
}
