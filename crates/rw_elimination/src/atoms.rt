//! The atoms that are eliminated, in their order.

ghost use Rattle.std.specs.Prelude.{◌≡◌, [], ◌++◌, IfOk, OnOk};
ghost use Rattle.std.specs.List.{list_any};
ghost use Rattle.rw_terms.specs.Same.{same_term};
ghost use Rattle.rw_elimination.specs.Elimination.{has_atom, with_atom, with_atoms, occurring, atoms_of};

use crate::coefficients::{coefficient, is_same};
use crate::hypotheses::Hypothesis;
use rw_items::Items;
use rw_terms::term::Term;
use std::alloc::{AllocError, Global};

/// The atoms of the used hypotheses, in order of their first occurrences in the text.
pub fn atoms_of(alloc: Global, used: &[Hypothesis]) -> Result<Items<Term>, AllocError>
    ensures { IfOk result (λ ts. ts ≡ atoms_of used.now) }
{
    let mut atoms = Items::new(alloc);
    for hypothesis in used {
        push_atoms(alloc, used, hypothesis.atoms.as_slice(), &mut atoms)?;
    }
    Ok(atoms)
}

fn push_atoms(
    alloc: Global,
    used: &[Hypothesis],
    more: &[Term],
    atoms: &mut Items<Term>,
) -> Result<(), AllocError>
    ensures { OnOk result (atoms.new ≡ with_atoms used.now atoms.old more.now) }
{
    for atom in more {
        push_atom(alloc, used, atom, atoms)?;
    }
    Ok(())
}

fn push_atom(
    alloc: Global,
    used: &[Hypothesis],
    atom: &Term,
    atoms: &mut Items<Term>,
) -> Result<(), AllocError>
    ensures { OnOk result (atoms.new ≡ with_atom used.now atoms.old atom.now) }
{
    if is_known(atom, atoms.as_slice()) || !is_used(atom, used) {
        return Ok(());
    }
    atoms.push(atom.copy(alloc)?)
}

fn is_known(atom: &Term, atoms: &[Term]) -> bool
    ensures { result ≡ list_any (same_term atom.now) atoms.now }
{
    for other in atoms {
        if is_same(atom, other) {
            return true;
        }
    }
    false
}

// Whether a used hypothesis has it with a coefficient other than 0.
fn is_used(atom: &Term, used: &[Hypothesis]) -> bool
    ensures { result ≡ list_any (has_atom atom.now) used.now }
{
    for hypothesis in used {
        if coefficient(atom, hypothesis.summands.as_slice()) != 0 {
            return true;
        }
    }
    false
}
