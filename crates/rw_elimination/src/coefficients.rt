//! The coefficients of atoms in polynomials each of whose products is an atom.

ghost use Rattle.std.specs.Prelude.{◌≡◌, ◌<◌, length, IfSome};
ghost use Rattle.rw_terms.specs.Same.{same_term};
ghost use Rattle.rw_elimination.specs.Rows.{is_multiple_of, coefficient, constant, like, lead};

use crate::row::Lead;
use rw_arith::poly::Summand;
use rw_terms::sameness;
use rw_terms::term::Term;

/// The coefficient of an atom, 0 where it does not stand there.
pub fn coefficient(atom: &Term, summands: &[Summand]) -> i128
    ensures { result ≡ coefficient atom.now summands.now }
{
    for summand in summands {
        if is_multiple_of(atom, summand.atoms.as_slice()) {
            return summand.times;
        }
    }
    0
}

// Whether the one factor is this atom.
fn is_multiple_of(atom: &Term, atoms: &[Term]) -> bool
    ensures { result ≡ is_multiple_of atom.now atoms.now }
{
    atoms.len() == 1 && is_same(atom, &atoms[0])
}

/// Whether two terms are one.
pub fn is_same(one: &Term, other: &Term) -> bool
    ensures { result ≡ same_term one.now other.now }
{
    sameness::same_term(one, other)
}

/// The constant.
pub fn constant(summands: &[Summand]) -> i128
    ensures { result ≡ constant summands.now }
{
    for summand in summands {
        if summand.atoms.is_empty() {
            return summand.times;
        }
    }
    0
}

/// The coefficient of the same product, of an atom or none.
pub fn like(atoms: &[Term], summands: &[Summand]) -> i128
    ensures { result ≡ like atoms.now summands.now }
{
    if atoms.is_empty() {
        return constant(summands);
    }
    coefficient(&atoms[0], summands)
}

/// The first atom with a coefficient other than 0.
pub fn lead(atoms: &[Term], summands: &[Summand]) -> Option<Lead>
    ensures value { result ≡ lead 0 atoms.now summands.now }
    ensures within { IfSome result (λ l. l.atom < length atoms.now) }
{
    for atom in 0..atoms.len() {
        let times = coefficient(&atoms[atom], summands);
        if times != 0 {
            return Some(Lead { atom, times });
        }
    }
    None
}
