//! The expansion of a term to a polynomial.

ghost use Rattle.std.specs.Prelude.{◌≡◌, IfOk};
ghost use Rattle.rw_arith.specs.Expanded.{constant, atom, is_polynomial, expanded};

use crate::poly::{Expansion, Summand};
use crate::products::product;
use crate::sums::{difference, negate, sum};
use rw_items::Items;
use rw_terms::term::Term;
use std::alloc::{AllocError, Global};

/// Whether no array is put and no binder is loose outside an atom.
pub fn is_polynomial(term: &Term) -> bool
    ensures { result ≡ is_polynomial term.now }
{
    match term {
        Term::Lit(_) | Term::Var(_) | Term::Init(_) | Term::Const(_) => true,
        Term::Bound(_) | Term::Put(_, _, _) => false,
        Term::Neg(a) => is_polynomial(a.get()),
        Term::Add(a, b) | Term::Sub(a, b) | Term::Mul(a, b) => {
            is_polynomial(a.get()) && is_polynomial(b.get())
        }
        Term::Div(_, _) | Term::Mod(_, _) | Term::Read(_, _) | Term::Fun(_, _) => true,
    }
}

/// The polynomial of a term, expanded from the inside, the left operand first; or the first cause, in the order of
/// the steps, why it has none.
pub fn expand(alloc: Global, term: &Term) -> Result<Expansion, AllocError>
    ensures { IfOk result (λ e. e ≡ expanded term.now) }
{
    match term {
        Term::Lit(n) => constant(alloc, *n),
        Term::Var(_) | Term::Init(_) | Term::Const(_) => atom(alloc, term),
        Term::Div(_, _) | Term::Mod(_, _) | Term::Read(_, _) | Term::Fun(_, _) => atom(alloc, term),
        Term::Bound(_) | Term::Put(_, _, _) => Ok(Expansion::Unfit),
        Term::Neg(a) => {
            let inner = expand(alloc, a.get())?;
            Ok(negate(inner))
        }
        Term::Add(a, b) => {
            let left = expand(alloc, a.get())?;
            let right = expand(alloc, b.get())?;
            sum(alloc, left, &right)
        }
        Term::Sub(a, b) => {
            let left = expand(alloc, a.get())?;
            let right = expand(alloc, b.get())?;
            difference(alloc, left, right)
        }
        Term::Mul(a, b) => {
            let left = expand(alloc, a.get())?;
            let right = expand(alloc, b.get())?;
            product(alloc, &left, &right)
        }
    }
}

/// A number as a polynomial.
pub fn constant(alloc: Global, number: i128) -> Result<Expansion, AllocError>
    ensures { IfOk result (λ e. e ≡ constant number) }
{
    let mut summands = Items::new(alloc);
    if number != 0 {
        let atoms = Items::new(alloc);
        summands.push(Summand {
            times: number,
            atoms,
        })?;
    }
    Ok(Expansion::Polynomial(summands))
}

// An atom as a polynomial.
fn atom(alloc: Global, term: &Term) -> Result<Expansion, AllocError>
    ensures { IfOk result (λ e. e ≡ atom term.now) }
{
    let mut atoms = Items::new(alloc);
    atoms.push(term.copy(alloc)?)?;
    let mut summands = Items::new(alloc);
    summands.push(Summand { times: 1, atoms })?;
    Ok(Expansion::Polynomial(summands))
}
