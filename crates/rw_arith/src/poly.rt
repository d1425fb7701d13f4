//! Polynomials: the sum of products of atoms, with coefficients of 128 bits.

ghost use Rattle.std.specs.Prelude.{◌≡◌, ◌<◌, length, count_by, IfSome, IfOk};
ghost use Rattle.rw_terms.specs.Same.{same_term};
ghost use Rattle.rw_arith.specs.Polynomials.{is_one_product, is_product, place, within_limit, put_in, times_set, joined, with_summand};

use rw_items::Items;
use rw_terms::copying::copy_terms;
use rw_terms::sameness;
use rw_terms::term::Term;
use std::alloc::{AllocError, Global};

const MOST_PRODUCTS: usize = 256;

/// A product of atoms with its coefficient; the constant has no atoms.
#[derive(Drop)]
pub struct Summand {
    pub times: i128,
    pub atoms: Items<Term>,
}

impl Summand {
    /// The same summand again.
    pub fn copy(&self, alloc: Global) -> Result<Summand, AllocError>
        ensures { IfOk result (λ s. s ≡ self.now) }
    {
        Ok(Summand {
            times: self.times,
            atoms: copy_terms(alloc, self.atoms.as_slice())?,
        })
    }
}

/// What an expansion gives.
#[derive(Drop)]
pub enum Expansion {
    /// The summands of a polynomial: the constant, left out where it is 0, and the products in the order in which they first came.
    Polynomial(Items<Summand>),
    /// A part that no polynomial has, or more products or factors than are allowed.
    Unfit,
    /// A coefficient passes 128 bits.
    Wide,
}

/// The polynomial with one more summand.
pub fn add(polynomial: Items<Summand>, new: Summand) -> Result<Expansion, AllocError>
    ensures { IfOk result (λ e. e ≡ with_summand polynomial new) }
{
    match place_of(new.atoms.as_slice(), polynomial.as_slice()) {
        Some((at, times)) => Ok(join(polynomial, at, times, new)),
        None => put(polynomial, new),
    }
}

// Adds the summand to the one in its place, whose coefficient is given.
fn join(polynomial: Items<Summand>, at: usize, times: i128, new: Summand) -> Expansion
    requires { at < length polynomial }
    ensures { result ≡ joined polynomial at times new }
{
    let mut polynomial = polynomial;
    match times.checked_add(new.times) {
        None => Expansion::Wide,
        Some(0) => {
            polynomial.remove(at);
            counted(polynomial)
        }
        Some(sum) => {
            set_times(&mut polynomial, at, sum);
            counted(polynomial)
        }
    }
}

// Gives the summand at a place another coefficient.
fn set_times(polynomial: &mut Items<Summand>, at: usize, times: i128)
    requires { at < length polynomial.old }
    ensures { polynomial.new ≡ times_set polynomial.old at times }
{
    polynomial.item_mut(at).times = times;
}

// Puts a summand whose product is not there behind the others, and a constant before them.
fn put(polynomial: Items<Summand>, new: Summand) -> Result<Expansion, AllocError>
    ensures { IfOk result (λ e. e ≡ put_in polynomial new) }
{
    let mut polynomial = polynomial;
    if new.times == 0 {
        return Ok(counted(polynomial));
    }
    if new.atoms.is_empty() {
        polynomial.insert(0, new)?;
    } else {
        polynomial.push(new)?;
    }
    Ok(counted(polynomial))
}

// The polynomial, unless it has too many products.
fn counted(polynomial: Items<Summand>) -> Expansion
    ensures { result ≡ within_limit polynomial }
{
    let products = polynomial
        .as_slice()
        .iter()
        .filter(|summand| is_product(summand))
        .count();
    if products > MOST_PRODUCTS {
        return Expansion::Unfit;
    }
    Expansion::Polynomial(polynomial)
}

/// Whether it is no constant.
pub fn is_product(summand: &Summand) -> bool
    ensures { result ≡ is_product summand.now }
{
    !summand.atoms.is_empty()
}

// Where the product of these atoms stands, with its coefficient.
fn place_of(atoms: &[Term], summands: &[Summand]) -> Option<(usize, i128)>
    ensures value { result ≡ place atoms.now summands.now }
    ensures within { IfSome result (λ found. found.0 < length summands.now) }
{
    for i in 0..summands.len() {
        if is_one_product(summands[i].atoms.as_slice(), atoms) {
            return Some((i, summands[i].times));
        }
    }
    None
}

// Whether the atoms are the same, each as often.
fn is_one_product(ones: &[Term], others: &[Term]) -> bool
    ensures { result ≡ is_one_product ones.now others.now }
{
    if ones.len() != others.len() {
        return false;
    }
    for atom in ones {
        if count_of(atom, ones) != count_of(atom, others) {
            return false;
        }
    }
    true
}

// How often an atom stands among others.
fn count_of(atom: &Term, atoms: &[Term]) -> usize
    ensures { result ≡ count_by (same_term atom.now) atoms.now }
{
    atoms.iter().filter(|other| is_same(atom, other)).count()
}

fn is_same(one: &Term, other: &Term) -> bool
    ensures { result ≡ same_term one.now other.now }
{
    sameness::same_term(one, other)
}
