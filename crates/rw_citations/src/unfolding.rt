//! Unfolding a definition.

ghost use Rattle.std.specs.Prelude.{◌≡◌, IfOk, option_copied};
ghost use Rattle.rw_terms.specs.declared.term.Formula.TheViews.{out-Formula};
ghost use Rattle.rw_goals.specs.Premises.{Gives};
ghost use Rattle.rw_citations.specs.Cited.{unfolded_left, unfolded_right, unfold_left, unfold_right, unfold_at_left, unfold_at_right};

use crate::finding::definition_of;
use crate::instance::{said_left, said_right};
use rw_goals::added::Parts;
use rw_goals::causes::{NO_FORMULA, SHAPE, SORT};
use rw_goals::library::{Definition, Item, Library};
use rw_goals::outcome::{Outcome, numbered, put_premises};
use rw_terms::name::Name;
use rw_terms::sequent::Sequent;
use rw_terms::term::{Formula, Sort, Term};
use std::alloc::{AllocError, Global};

/// The definition's body for the terms of the left predicate of this number, which is taken out.
pub fn unfold_at_left(
    alloc: Global,
    library: &Library,
    goal: &mut Sequent,
    number: u32,
) -> Result<Outcome, AllocError>
    ensures { IfOk result (λ o. Gives o goal.new (unfold_at_left library.now goal.old number)) }
{
    let entries = library.entries.as_slice();
    let parts = match numbered(goal.left.as_slice(), number) {
        Some(formula) => unfold_left(alloc, goal.names.as_slice(), entries, formula)?,
        None => return Ok(Outcome::Fails(0, NO_FORMULA)),
    };
    goal.left.remove(number as usize - 1);
    put_premises(alloc, goal, parts)
}

/// The definition's body for the terms of the right predicate of this number, which is taken out.
pub fn unfold_at_right(
    alloc: Global,
    library: &Library,
    goal: &mut Sequent,
    number: u32,
) -> Result<Outcome, AllocError>
    ensures { IfOk result (λ o. Gives o goal.new (unfold_at_right library.now goal.old number)) }
{
    let entries = library.entries.as_slice();
    let parts = match numbered(goal.right.as_slice(), number) {
        Some(formula) => unfold_right(alloc, goal.names.as_slice(), entries, formula)?,
        None => return Ok(Outcome::Fails(0, NO_FORMULA)),
    };
    goal.right.remove(number as usize - 1);
    put_premises(alloc, goal, parts)
}

fn unfold_left(
    alloc: Global,
    names: &[(Name, Sort)],
    entries: &[Item],
    formula: &Formula,
) -> Result<Parts, AllocError>
    ensures { IfOk result (λ p. p ≡ unfold_left names.now entries.now (out-Formula formula.now)) }
{
    match formula {
        Formula::App(predicate, terms) => unfolded_left(
            alloc,
            names,
            definition_of(entries, predicate),
            terms.as_slice(),
        ),
        _ => Ok(Parts::Fails(SHAPE)),
    }
}

fn unfold_right(
    alloc: Global,
    names: &[(Name, Sort)],
    entries: &[Item],
    formula: &Formula,
) -> Result<Parts, AllocError>
    ensures { IfOk result (λ p. p ≡ unfold_right names.now entries.now (out-Formula formula.now)) }
{
    match formula {
        Formula::App(predicate, terms) => unfolded_right(
            alloc,
            names,
            definition_of(entries, predicate),
            terms.as_slice(),
        ),
        _ => Ok(Parts::Fails(SHAPE)),
    }
}

fn unfolded_left(
    alloc: Global,
    names: &[(Name, Sort)],
    found: Option<&Definition>,
    terms: &[Term],
) -> Result<Parts, AllocError>
    ensures { IfOk result (λ p. p ≡ unfolded_left names.now (option_copied found.entry) terms.now) }
{
    let definition = match found {
        Some(definition) => definition,
        None => return Ok(Parts::Fails(SORT)),
    };
    let params = definition.params.as_slice();
    let parts = said_left(alloc, names, params, terms, &definition.body)?;
    Ok(parts)
}

fn unfolded_right(
    alloc: Global,
    names: &[(Name, Sort)],
    found: Option<&Definition>,
    terms: &[Term],
) -> Result<Parts, AllocError>
    ensures { IfOk result (λ p. p ≡ unfolded_right names.now (option_copied found.entry) terms.now) }
{
    let definition = match found {
        Some(definition) => definition,
        None => return Ok(Parts::Fails(SORT)),
    };
    let params = definition.params.as_slice();
    let parts = said_right(alloc, names, params, terms, &definition.body)?;
    Ok(parts)
}
