//! Citing a lemma.

ghost use Rattle.std.specs.Prelude.{◌≡◌, take, map, [], None, IfOk, IsTrue, option_copied};
ghost use Rattle.rw_terms.specs.Rules.{are_of};
ghost use Rattle.rw_goals.specs.Premises.{Gives};
ghost use Rattle.rw_goals.specs.Sorting.{sort_of};
ghost use Rattle.rw_quantifiers.specs.Quantified.{typed_left};
ghost use Rattle.rw_citations.specs.Conj.{IsLong};
ghost use Rattle.rw_citations.specs.Cited.{lemma_of, lemma_left, cited_left, cite};

use crate::finding::lemma_of;
use crate::instance::said_left;
use crate::joining::statement;
use rw_goals::added::Parts;
use rw_goals::causes::{ORDER, SORT, TOO_LARGE};
use rw_goals::library::{Item, Lemma, Library};
use rw_goals::outcome::{Outcome, put_premises};
use rw_goals::sorting::are_of;
use rw_terms::name::Name;
use rw_terms::sequent::Sequent;
use rw_terms::term::{Sort, Term};
use std::alloc::{AllocError, Global};

/// How deep a formula may be.
const MOST_DEEP: usize = 64;

/// What the lemma of this name says of the terms, on the left. It is to stand before the table place, counted from 0.
pub fn cite(
    alloc: Global,
    library: &Library,
    before: u32,
    goal: &mut Sequent,
    name: &Name,
    terms: &[Term],
) -> Result<Outcome, AllocError>
    ensures { IfOk result (λ o. Gives o goal.new (cite library.now before goal.old name.now terms.now)) }
{
    let entries = library.entries.as_slice();
    let earlier = lemma_of(front(entries, before), name);
    let parts = cited_left(
        alloc,
        goal.names.as_slice(),
        earlier,
        lemma_of(entries, name),
        terms,
    )?;
    put_premises(alloc, goal, parts)
}

fn front(entries: &[Item], count: u32) -> &[Item]
    ensures { result.now ≡ take count entries.now }
{
    let count = (count as usize).min(entries.len());
    &entries[..count]
}

fn cited_left(
    alloc: Global,
    names: &[(Name, Sort)],
    earlier: Option<&Lemma>,
    any: Option<&Lemma>,
    terms: &[Term],
) -> Result<Parts, AllocError>
    ensures { IfOk result (λ p. p ≡ cited_left names.now (option_copied earlier.entry) (option_copied any.entry) terms.now) }
{
    match (earlier, any) {
        (Some(lemma), _) => lemma_left(alloc, names, lemma, terms),
        (None, Some(_)) => Ok(Parts::Fails(ORDER)),
        (None, None) => Ok(Parts::Fails(SORT)),
    }
}

fn lemma_left(
    alloc: Global,
    names: &[(Name, Sort)],
    lemma: &Lemma,
    terms: &[Term],
) -> Result<Parts, AllocError>
    ensures { IfOk result (λ p. p ≡ lemma_left names.now lemma.now terms.now) }
{
    if is_long(&lemma.sequent) {
        let params = lemma.params.as_slice();
        return Ok(past_limits(names, params, terms));
    }
    joined_left(alloc, names, lemma, terms)
}

// More formulas on a side than a formula may be deep: joined they would be past the limits, and are not built.
fn is_long(sequent: &Sequent) -> bool
    ensures { IsTrue result → IsLong sequent.now }
{
    sequent.left.len() > MOST_DEEP || sequent.right.len() > MOST_DEEP
}

// What a formula past the limits gives, where the terms are of the parameters' sorts.
fn past_limits(names: &[(Name, Sort)], params: &[(Name, Sort)], terms: &[Term]) -> Parts
    ensures { result ≡ typed_left (are_of (map (λ p. p.1) params.now) (map (sort_of names.now []) terms.now)) None }
{
    if are_of(names, &[], params, terms) {
        Parts::Fails(TOO_LARGE)
    } else {
        Parts::Fails(SORT)
    }
}

fn joined_left(
    alloc: Global,
    names: &[(Name, Sort)],
    lemma: &Lemma,
    terms: &[Term],
) -> Result<Parts, AllocError>
    ensures { IfOk result (λ p. p ≡ lemma_left names.now lemma.now terms.now) }
{
    let statement = statement(alloc, &lemma.sequent)?;
    let params = lemma.params.as_slice();
    let parts = said_left(alloc, names, params, terms, statement.get())?;
    Ok(parts)
}
