//! The hypotheses of a goal that an elimination uses.

ghost use Rattle.std.specs.Prelude.{◌≡◌, leb, length, ◌++◌, IfOk, OnOk};
ghost use Rattle.std.specs.List.{list_all};
ghost use Rattle.rw_arith.specs.Given.{given_by_left, given_by_right};
ghost use Rattle.rw_elimination.specs.Hypotheses.{is_single, is_linear, occurrences, atoms_in, is_equation, number_at, used_if, used_by, used_left, used_right, used};

use rw_arith::given::{given_by_left, given_by_right};
use rw_arith::line::Ref;
use rw_arith::poly::{Expansion, Summand};
use rw_items::Items;
use rw_terms::term::{Formula, Term};
use std::alloc::{AllocError, Global};

/// A hypothesis that is used.
#[derive(Drop)]
pub struct Hypothesis {
    pub of: Ref,
    /// Its polynomial is 0, and not just at least 0.
    pub is_equation: bool,
    pub summands: Items<Summand>,
    /// The atoms of its text, in order, each as often as it stands there.
    pub atoms: Items<Term>,
}

/// The hypotheses that are used: the left formulas, and then the right ones, that have a polynomial each of whose
/// products has at most one factor.
pub fn used(
    alloc: Global,
    left: &[Formula],
    right: &[Formula],
) -> Result<Items<Hypothesis>, AllocError>
    ensures { IfOk result (λ us. us ≡ used left.now right.now) }
{
    let mut used = Items::new(alloc);
    use_left(alloc, left, &mut used)?;
    use_right(alloc, right, &mut used)?;
    Ok(used)
}

fn use_left(alloc: Global, left: &[Formula], used: &mut Items<Hypothesis>) -> Result<(), AllocError>
    ensures { OnOk result (used.new ≡ used.old ++ used_left 0 left.now) }
{
    for at in 0..left.len() {
        push_left(alloc, used, at, &left[at])?;
    }
    Ok(())
}

fn push_left(
    alloc: Global,
    used: &mut Items<Hypothesis>,
    at: usize,
    formula: &Formula,
) -> Result<(), AllocError>
    ensures { OnOk result (used.new ≡ used.old ++ used_by Ref.Left (number_at at) formula.now (given_by_left formula.now)) }
{
    match number_at(at) {
        Some(number) => {
            let given = given_by_left(alloc, formula)?;
            push_used(alloc, used, Ref::Left(number), formula, given)
        }
        None => Ok(()),
    }
}

fn use_right(
    alloc: Global,
    right: &[Formula],
    used: &mut Items<Hypothesis>,
) -> Result<(), AllocError>
    ensures { OnOk result (used.new ≡ used.old ++ used_right 0 right.now) }
{
    for at in 0..right.len() {
        push_right(alloc, used, at, &right[at])?;
    }
    Ok(())
}

fn push_right(
    alloc: Global,
    used: &mut Items<Hypothesis>,
    at: usize,
    formula: &Formula,
) -> Result<(), AllocError>
    ensures { OnOk result (used.new ≡ used.old ++ used_by Ref.Right (number_at at) formula.now (given_by_right formula.now)) }
{
    match number_at(at) {
        Some(number) => {
            let given = given_by_right(alloc, formula)?;
            push_used(alloc, used, Ref::Right(number), formula, given)
        }
        None => Ok(()),
    }
}

// The number of the formula at a place, where arithmetic lines can name it.
fn number_at(at: usize) -> Option<u32>
    ensures { result ≡ number_at at }
{
    if at < 4_294_967_295 {
        return Some(at as u32 + 1);
    }
    None
}

// Puts the hypothesis at the end, if it is used.
fn push_used(
    alloc: Global,
    used: &mut Items<Hypothesis>,
    of: Ref,
    formula: &Formula,
    given: Expansion,
) -> Result<(), AllocError>
    ensures { OnOk result (used.new ≡ used.old ++ used_if of formula.now given) }
{
    match given {
        Expansion::Polynomial(summands) => {
            if is_linear(summands.as_slice()) {
                let is_equation = is_equation(formula);
                let atoms = atoms_in(alloc, formula)?;
                used.push(Hypothesis {
                    of,
                    is_equation,
                    summands,
                    atoms,
                })?;
            }
            Ok(())
        }
        Expansion::Unfit | Expansion::Wide => Ok(()),
    }
}

fn is_linear(summands: &[Summand]) -> bool
    ensures { result ≡ is_linear summands.now }
{
    for summand in summands {
        if summand.atoms.len() > 1 {
            return false;
        }
    }
    true
}

fn is_equation(formula: &Formula) -> bool
    ensures { result ≡ is_equation formula.now }
{
    match formula {
        Formula::Eq(_, _) => true,
        _ => false,
    }
}

fn atoms_in(alloc: Global, formula: &Formula) -> Result<Items<Term>, AllocError>
    ensures { IfOk result (λ ts. ts ≡ atoms_in formula.now) }
{
    let mut atoms = Items::new(alloc);
    match formula {
        Formula::Eq(s, t) | Formula::Less(s, t) | Formula::AtMost(s, t) => {
            push_occurrences(alloc, s, &mut atoms)?;
            push_occurrences(alloc, t, &mut atoms)?;
            Ok(atoms)
        }
        _ => Ok(atoms),
    }
}

// Puts the atoms of a term at the end, in order, without those within other atoms.
fn push_occurrences(alloc: Global, term: &Term, atoms: &mut Items<Term>) -> Result<(), AllocError>
    ensures { OnOk result (atoms.new ≡ atoms.old ++ occurrences term.now) }
{
    match term {
        Term::Lit(_) | Term::Bound(_) | Term::Put(_, _, _) => Ok(()),
        Term::Var(_) | Term::Init(_) | Term::Const(_) => atoms.push(term.copy(alloc)?),
        Term::Div(_, _) | Term::Mod(_, _) | Term::Read(_, _) | Term::Fun(_, _) => {
            atoms.push(term.copy(alloc)?)
        }
        Term::Neg(a) => push_occurrences(alloc, a.get(), atoms),
        Term::Add(a, b) | Term::Sub(a, b) | Term::Mul(a, b) => {
            push_occurrences(alloc, a.get(), atoms)?;
            push_occurrences(alloc, b.get(), atoms)
        }
    }
}
