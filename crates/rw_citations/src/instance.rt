//! Formulas over parameters, for given terms.

ghost use Rattle.std.specs.Prelude.{◌≡◌, ◌++◌, ◌∷◌, [], IfOk};
ghost use Rattle.rw_citations.specs.Cited.{changes_of, changes_for, cited, said_left, said_right};

use rw_goals::added::Parts;
use rw_goals::causes::SORT;
use rw_goals::sorting::are_of;
use rw_items::{Boxed, Items};
use rw_quantifiers::instances::{beside_left, beside_right};
use rw_subst::error::SubstError;
use rw_subst::replace::replace;
use rw_subst::slot::{Change, Slot};
use rw_terms::name::Name;
use rw_terms::term::{Formula, Sort, Term};
use std::alloc::{AllocError, Global};

/// The formula with the terms for the parameters on the left, where the terms are of their sorts.
pub fn said_left(
    alloc: Global,
    names: &[(Name, Sort)],
    params: &[(Name, Sort)],
    terms: &[Term],
    formula: &Formula,
) -> Result<Parts, AllocError>
    ensures { IfOk result (λ p. p ≡ said_left names.now params.now terms.now formula.now) }
{
    if !are_of(names, &[], params, terms) {
        return Ok(Parts::Fails(SORT));
    }
    let found = cited(alloc, params, terms, formula)?;
    beside_left(alloc, found)
}

/// The same on the right.
pub fn said_right(
    alloc: Global,
    names: &[(Name, Sort)],
    params: &[(Name, Sort)],
    terms: &[Term],
    formula: &Formula,
) -> Result<Parts, AllocError>
    ensures { IfOk result (λ p. p ≡ said_right names.now params.now terms.now formula.now) }
{
    if !are_of(names, &[], params, terms) {
        return Ok(Parts::Fails(SORT));
    }
    let found = cited(alloc, params, terms, formula)?;
    beside_right(alloc, found)
}

// The formula with the terms for the parameters, unless that is past a limit.
#[tactic(auto, using(rw_quantifiers::proofs::Small::instance_found, rw_quantifiers::proofs::Small::instance_large))]
fn cited(
    alloc: Global,
    params: &[(Name, Sort)],
    terms: &[Term],
    formula: &Formula,
) -> Result<Option<Boxed<Formula>>, AllocError>
    ensures { IfOk result (λ o. o ≡ cited params.now terms.now formula.now) }
{
    let changes = changes_for(alloc, params, terms)?;
    match replace(alloc, formula, changes.as_slice()) {
        Ok(formula) => Ok(Some(Boxed::new(alloc, formula)?)),
        Err(SubstError::TooLarge(_)) => Ok(None),
        Err(SubstError::Memory) => Err(AllocError),
    }
}

fn changes_for(
    alloc: Global,
    params: &[(Name, Sort)],
    terms: &[Term],
) -> Result<Items<Change>, AllocError>
    ensures { IfOk result (λ cs. cs ≡ changes_for params.now terms.now) }
{
    let mut changes = Items::new(alloc);
    for i in 0..params.len().min(terms.len()) {
        let (name, _) = &params[i];
        add_changes(alloc, &mut changes, name, &terms[i])?;
    }
    Ok(changes)
}

// The parameter, in each form in which its name may stand, is changed to the term.
fn add_changes(
    alloc: Global,
    changes: &mut Items<Change>,
    name: &Name,
    term: &Term,
) -> Result<(), AllocError>
    ensures { IfOk result (λ _. changes.new ≡ changes.old ++ changes_of name.now term.now) }
{
    add_change(alloc, changes, Slot::Var(name.copy()), term)?;
    add_change(alloc, changes, Slot::Init(name.copy()), term)?;
    add_change(alloc, changes, Slot::Const(name.copy()), term)
}

fn add_change(
    alloc: Global,
    changes: &mut Items<Change>,
    slot: Slot,
    term: &Term,
) -> Result<(), AllocError>
    ensures { IfOk result (λ _. changes.new ≡ changes.old ++ (record { slot = slot; term = term.now }) ∷ []) }
{
    let term = term.copy(alloc)?;
    changes.push(Change { slot, term })
}
