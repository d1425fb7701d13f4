//! The rules of quantifiers: an instance of the body by a term, or by a fresh name.

ghost use Rattle.std.specs.Prelude.{◌≡◌, [], IfOk};
ghost use Rattle.std.specs.List.{list_any};
ghost use Rattle.rw_terms.specs.declared.term.Formula.TheViews.{out-Formula};
ghost use Rattle.rw_terms.specs.declared.term.Term.TheVariants.{Var};
ghost use Rattle.rw_terms.specs.Mentions.{formulas_mention};
ghost use Rattle.rw_terms.specs.Named.{is_named};
ghost use Rattle.rw_terms.specs.Rules.{is_of};
ghost use Rattle.rw_goals.specs.Premises.{Gives};
ghost use Rattle.rw_goals.specs.Sorting.{sort_of};
ghost use Rattle.rw_quantifiers.specs.Quantified.{instance, all_left, any_right, all_at_left, any_at_right, is_known, new_left, new_right, all_right, any_left, all_at_right, any_at_left, beside_left, beside_right};

use rw_goals::added::{Added, Parts};
use rw_goals::causes::{NO_FORMULA, NOT_FRESH, SHAPE, SORT, TOO_LARGE};
use rw_goals::outcome::{Outcome, numbered, put_premises};
use rw_goals::sorting::sort_of;
use rw_items::Boxed;
use rw_subst::error::SubstError;
use rw_subst::replace::open;
use rw_terms::mention::free_in;
use rw_terms::name::Name;
use rw_terms::sameness::same_sort;
use rw_terms::sequent::Sequent;
use rw_terms::term::{Formula, Sort, Term};
use std::alloc::{AllocError, Global};

/// The instance by a term of the left universal formula of this number, which stays.
pub fn all_at_left(
    alloc: Global,
    goal: &mut Sequent,
    number: u32,
    term: &Term,
) -> Result<Outcome, AllocError>
    ensures { IfOk result (λ o. Gives o goal.new (all_at_left goal.old number term.now)) }
{
    let parts = match numbered(goal.left.as_slice(), number) {
        Some(formula) => all_left(alloc, goal.names.as_slice(), term, formula)?,
        None => return Ok(Outcome::Fails(0, NO_FORMULA)),
    };
    put_premises(alloc, goal, parts)
}

/// The instance by a term of the right existential formula of this number, which stays.
pub fn any_at_right(
    alloc: Global,
    goal: &mut Sequent,
    number: u32,
    term: &Term,
) -> Result<Outcome, AllocError>
    ensures { IfOk result (λ o. Gives o goal.new (any_at_right goal.old number term.now)) }
{
    let parts = match numbered(goal.right.as_slice(), number) {
        Some(formula) => any_right(alloc, goal.names.as_slice(), term, formula)?,
        None => return Ok(Outcome::Fails(0, NO_FORMULA)),
    };
    put_premises(alloc, goal, parts)
}

/// The instance by a fresh name of the right universal formula of this number, which is taken out.
pub fn all_at_right(
    alloc: Global,
    goal: &mut Sequent,
    number: u32,
    name: &Name,
) -> Result<Outcome, AllocError>
    ensures { IfOk result (λ o. Gives o goal.new (all_at_right goal.old number name.now)) }
{
    let known = is_known(name, goal);
    let parts = match numbered(goal.right.as_slice(), number) {
        Some(formula) => all_right(alloc, known, name, formula)?,
        None => return Ok(Outcome::Fails(0, NO_FORMULA)),
    };
    goal.right.remove(number as usize - 1);
    put_premises(alloc, goal, parts)
}

/// The instance by a fresh name of the left existential formula of this number, which is taken out.
pub fn any_at_left(
    alloc: Global,
    goal: &mut Sequent,
    number: u32,
    name: &Name,
) -> Result<Outcome, AllocError>
    ensures { IfOk result (λ o. Gives o goal.new (any_at_left goal.old number name.now)) }
{
    let known = is_known(name, goal);
    let parts = match numbered(goal.left.as_slice(), number) {
        Some(formula) => any_left(alloc, known, name, formula)?,
        None => return Ok(Outcome::Fails(0, NO_FORMULA)),
    };
    goal.left.remove(number as usize - 1);
    put_premises(alloc, goal, parts)
}

fn all_left(
    alloc: Global,
    names: &[(Name, Sort)],
    term: &Term,
    formula: &Formula,
) -> Result<Parts, AllocError>
    ensures { IfOk result (λ p. p ≡ all_left names.now term.now (out-Formula formula.now)) }
{
    match formula {
        Formula::All(sort, body) => {
            if !is_of(names, *sort, term) {
                return Ok(Parts::Fails(SORT));
            }
            beside_left(alloc, instance(alloc, body.get(), term)?)
        }
        _ => Ok(Parts::Fails(SHAPE)),
    }
}

fn any_right(
    alloc: Global,
    names: &[(Name, Sort)],
    term: &Term,
    formula: &Formula,
) -> Result<Parts, AllocError>
    ensures { IfOk result (λ p. p ≡ any_right names.now term.now (out-Formula formula.now)) }
{
    match formula {
        Formula::Any(sort, body) => {
            if !is_of(names, *sort, term) {
                return Ok(Parts::Fails(SORT));
            }
            beside_right(alloc, instance(alloc, body.get(), term)?)
        }
        _ => Ok(Parts::Fails(SHAPE)),
    }
}

fn all_right(
    alloc: Global,
    known: bool,
    name: &Name,
    formula: &Formula,
) -> Result<Parts, AllocError>
    ensures { IfOk result (λ p. p ≡ all_right known name.now (out-Formula formula.now)) }
{
    match formula {
        Formula::All(sort, body) => {
            if known {
                return Ok(Parts::Fails(NOT_FRESH));
            }
            new_right(alloc, name, *sort, instance_by(alloc, body.get(), name)?)
        }
        _ => Ok(Parts::Fails(SHAPE)),
    }
}

fn any_left(alloc: Global, known: bool, name: &Name, formula: &Formula) -> Result<Parts, AllocError>
    ensures { IfOk result (λ p. p ≡ any_left known name.now (out-Formula formula.now)) }
{
    match formula {
        Formula::Any(sort, body) => {
            if known {
                return Ok(Parts::Fails(NOT_FRESH));
            }
            new_left(alloc, name, *sort, instance_by(alloc, body.get(), name)?)
        }
        _ => Ok(Parts::Fails(SHAPE)),
    }
}

// The body with the term for the quantifier's binder, unless that is past a limit.
#[tactic(auto, using(crate::proofs::Small::instance_found, crate::proofs::Small::instance_large))]
fn instance(
    alloc: Global,
    body: &Formula,
    term: &Term,
) -> Result<Option<Boxed<Formula>>, AllocError>
    ensures { IfOk result (λ o. o ≡ instance body.now term.now) }
{
    match open(alloc, body, term) {
        Ok(formula) => Ok(Some(Boxed::new(alloc, formula)?)),
        Err(SubstError::TooLarge(_)) => Ok(None),
        Err(SubstError::Memory) => Err(AllocError),
    }
}

// The same by a name.
fn instance_by(
    alloc: Global,
    body: &Formula,
    name: &Name,
) -> Result<Option<Boxed<Formula>>, AllocError>
    ensures { IfOk result (λ o. o ≡ instance body.now (Var name.now)) }
{
    let variable = Term::Var(name.copy());
    instance(alloc, body, &variable)
}

/// The instance on the left, if there is one.
pub fn beside_left(alloc: Global, found: Option<Boxed<Formula>>) -> Result<Parts, AllocError>
    ensures { IfOk result (λ p. p ≡ beside_left found) }
{
    match found {
        None => Ok(Parts::Fails(TOO_LARGE)),
        Some(formula) => {
            let mut added = Added::new(alloc);
            added.left.push(formula.into_inner())?;
            Ok(Parts::One(added))
        }
    }
}

/// The instance on the right, if there is one.
pub fn beside_right(alloc: Global, found: Option<Boxed<Formula>>) -> Result<Parts, AllocError>
    ensures { IfOk result (λ p. p ≡ beside_right found) }
{
    match found {
        None => Ok(Parts::Fails(TOO_LARGE)),
        Some(formula) => {
            let mut added = Added::new(alloc);
            added.right.push(formula.into_inner())?;
            Ok(Parts::One(added))
        }
    }
}

fn new_left(
    alloc: Global,
    name: &Name,
    sort: Sort,
    found: Option<Boxed<Formula>>,
) -> Result<Parts, AllocError>
    ensures { IfOk result (λ p. p ≡ new_left name.now sort found) }
{
    match found {
        None => Ok(Parts::Fails(TOO_LARGE)),
        Some(formula) => {
            let mut added = Added::new(alloc);
            added.left.push(formula.into_inner())?;
            added.names.push((name.copy(), sort))?;
            Ok(Parts::One(added))
        }
    }
}

fn new_right(
    alloc: Global,
    name: &Name,
    sort: Sort,
    found: Option<Boxed<Formula>>,
) -> Result<Parts, AllocError>
    ensures { IfOk result (λ p. p ≡ new_right name.now sort found) }
{
    match found {
        None => Ok(Parts::Fails(TOO_LARGE)),
        Some(formula) => {
            let mut added = Added::new(alloc);
            added.right.push(formula.into_inner())?;
            added.names.push((name.copy(), sort))?;
            Ok(Parts::One(added))
        }
    }
}

fn is_of(names: &[(Name, Sort)], sort: Sort, term: &Term) -> bool
    ensures { result ≡ is_of sort (sort_of names.now [] term.now) }
{
    match sort_of(names, &[], term) {
        Some(found) => same_sort(sort, found),
        None => false,
    }
}

// Whether the name is one of the goal's, or free in it.
fn is_known(name: &Name, goal: &Sequent) -> bool
    ensures { result ≡ is_known name.now goal.now }
{
    has_name(name, goal.names.as_slice())
        || is_mentioned(name, goal.left.as_slice())
        || is_mentioned(name, goal.right.as_slice())
}

fn has_name(name: &Name, names: &[(Name, Sort)]) -> bool
    ensures { result ≡ list_any (is_named name.now) names.now }
{
    for (known, _) in names {
        if known.is(name) {
            return true;
        }
    }
    false
}

fn is_mentioned(name: &Name, formulas: &[Formula]) -> bool
    ensures { result ≡ formulas_mention name.now formulas.now }
{
    for formula in formulas {
        if free_in(name, formula) {
            return true;
        }
    }
    false
}
