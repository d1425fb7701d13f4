//! The rules of equality.

ghost use Rattle.std.specs.Prelude.{◌≡◌, ◌-◌, ◌∷◌, [], true, slice_set, is_some, Some, IfOk, option_copied};
ghost use Rattle.rw_goals.specs.Cut.{is_large};
ghost use Rattle.rw_goals.specs.Sorting.{sort_of};
ghost use Rattle.rw_terms.specs.declared.term.Formula.TheViews.{out-Formula};
ghost use Rattle.rw_goals.specs.Premises.{Gives, numbered};
ghost use Rattle.rw_goals.specs.Premises as effects;
ghost use Rattle.rw_equations.specs.Equality.{equal_right, equation_right, flipped, flip, sides, rewritten_by, rewriting, if_small, unless_itself, rewrite_left, rewrite_right};

use crate::rewriting::rewrite;
use rw_axioms::axioms::is_int;
use rw_axioms::building::at_most;
use rw_goals::added::{Added, Parts};
use rw_goals::causes::{NO_FORMULA, SHAPE, TOO_LARGE};
use rw_goals::cut::is_large;
use rw_goals::outcome::{Outcome, numbered, put_premises};
use rw_goals::sorting::sort_of;
use rw_items::{Boxed, Items};
use rw_terms::copying::boxed_term;
use rw_terms::name::Name;
use rw_terms::sequent::Sequent;
use rw_terms::term::{Formula, Sort, Term};
use std::alloc::{AllocError, Global};

/// The right equation of integers of this number by two orders.
pub fn split_equation(alloc: Global, goal: &mut Sequent, number: u32) -> Result<Outcome, AllocError>
    ensures { IfOk result (λ o. Gives o goal.new (equation_right goal.old number)) }
{
    let parts = match numbered(goal.right.as_slice(), number) {
        Some(formula) => two_orders(alloc, goal.names.as_slice(), formula)?,
        None => return Ok(Outcome::Fails(0, NO_FORMULA)),
    };
    goal.right.remove(number as usize - 1);
    put_premises(alloc, goal, parts)
}

fn two_orders(alloc: Global, names: &[(Name, Sort)], formula: &Formula) -> Result<Parts, AllocError>
    ensures { IfOk result (λ p. p ≡ equal_right names.now (out-Formula formula.now)) }
{
    match formula {
        Formula::Eq(s, t) => {
            if !is_int(names, s) || !is_int(names, t) {
                return Ok(Parts::Fails(SHAPE));
            }
            let first = ordered(alloc, s, t)?;
            Ok(Parts::Two(first, ordered(alloc, t, s)?))
        }
        _ => Ok(Parts::Fails(SHAPE)),
    }
}

fn ordered(alloc: Global, s: &Term, t: &Term) -> Result<Added, AllocError>
    ensures { IfOk result (λ a. a ≡ effects.on_right (Formula.AtMost s.now t.now ∷ [])) }
{
    let mut added = Added::new(alloc);
    added.right.push(at_most(alloc, s, t)?.into_inner())?;
    Ok(added)
}

/// The left equation of this number, with its sides exchanged, beside it.
pub fn exchange(alloc: Global, goal: &mut Sequent, number: u32) -> Result<Outcome, AllocError>
    ensures { IfOk result (λ o. Gives o goal.new (flip goal.old number)) }
{
    let parts = match numbered(goal.left.as_slice(), number) {
        Some(formula) => exchanged(alloc, formula)?,
        None => return Ok(Outcome::Fails(0, NO_FORMULA)),
    };
    put_premises(alloc, goal, parts)
}

fn exchanged(alloc: Global, formula: &Formula) -> Result<Parts, AllocError>
    ensures { IfOk result (λ p. p ≡ flipped (out-Formula formula.now)) }
{
    match formula {
        Formula::Eq(s, t) => {
            let mut added = Added::new(alloc);
            let first = boxed_term(alloc, t)?;
            let second = s.copy(alloc)?;
            added.left.push(Formula::Eq(first.into_inner(), second))?;
            Ok(Parts::One(added))
        }
        _ => Ok(Parts::Fails(SHAPE)),
    }
}

/// A formula rewritten.
#[derive(Drop)]
pub enum Rewritten {
    /// For this cause it is not.
    Fails(u8),
    To(Boxed<Formula>),
}

/// The left formula of number `place` rewritten by the left equation of number `by`, which stays.
pub fn rewrite_left(
    alloc: Global,
    goal: &mut Sequent,
    by: u32,
    place: u32,
) -> Result<Outcome, AllocError>
    ensures { IfOk result (λ o. Gives o goal.new (rewrite_left goal.old by place)) }
{
    if by == place {
        return Ok(Outcome::Fails(0, itself(goal.left.as_slice(), by)));
    }
    match rewritten_left(alloc, goal, by, place)? {
        Rewritten::Fails(cause) => Ok(Outcome::Fails(0, cause)),
        Rewritten::To(formula) => {
            put_in(&mut goal.left, place, formula.into_inner());
            put_premises(alloc, goal, Parts::One(Added::new(alloc)))
        }
    }
}

/// The right formula of number `place` rewritten by the left equation of number `by`, which stays.
pub fn rewrite_right(
    alloc: Global,
    goal: &mut Sequent,
    by: u32,
    place: u32,
) -> Result<Outcome, AllocError>
    ensures { IfOk result (λ o. Gives o goal.new (rewrite_right goal.old by place)) }
{
    match rewritten_right(alloc, goal, by, place)? {
        Rewritten::Fails(cause) => Ok(Outcome::Fails(0, cause)),
        Rewritten::To(formula) => {
            put_in(&mut goal.right, place, formula.into_inner());
            put_premises(alloc, goal, Parts::One(Added::new(alloc)))
        }
    }
}

// The cause for an equation that is to rewrite itself.
fn itself(formulas: &[Formula], number: u32) -> u8
    ensures { unless_itself true (numbered formulas.now number) (Rewritten.Fails 0) ≡ Rewritten.Fails result }
{
    match numbered(formulas, number) {
        Some(_) => SHAPE,
        None => NO_FORMULA,
    }
}

fn rewritten_left(
    alloc: Global,
    goal: &Sequent,
    by: u32,
    place: u32,
) -> Result<Rewritten, AllocError>
    ensures { IfOk result (λ r. r ≡ rewriting goal.now.names (numbered goal.now.left by) (numbered goal.now.left place)) }
{
    let equation = numbered(goal.left.as_slice(), by);
    let formula = numbered(goal.left.as_slice(), place);
    rewrite_found(alloc, goal.names.as_slice(), equation, formula)
}

fn rewritten_right(
    alloc: Global,
    goal: &Sequent,
    by: u32,
    place: u32,
) -> Result<Rewritten, AllocError>
    ensures { IfOk result (λ r. r ≡ rewriting goal.now.names (numbered goal.now.left by) (numbered goal.now.right place)) }
{
    let equation = numbered(goal.left.as_slice(), by);
    let formula = numbered(goal.right.as_slice(), place);
    rewrite_found(alloc, goal.names.as_slice(), equation, formula)
}

// Puts a formula in the place of the one of this number, if there is one.
fn put_in(formulas: &mut Items<Formula>, number: u32, formula: Formula)
    ensures { formulas.new ≡ slice_set formulas.old (number - 1) formula }
{
    let at = (number as usize).saturating_sub(1);
    if at < formulas.len() {
        formulas.set(at, formula);
    }
}

fn rewrite_found(
    alloc: Global,
    names: &[(Name, Sort)],
    equation: Option<&Formula>,
    formula: Option<&Formula>,
) -> Result<Rewritten, AllocError>
    ensures { IfOk result (λ r. r ≡ rewriting names.now (option_copied equation.entry) (option_copied formula.entry)) }
{
    match (equation, formula) {
        (Some(equation), Some(formula)) => rewritten_by(alloc, names, equation, formula),
        _ => Ok(Rewritten::Fails(NO_FORMULA)),
    }
}

fn rewritten_by(
    alloc: Global,
    names: &[(Name, Sort)],
    equation: &Formula,
    formula: &Formula,
) -> Result<Rewritten, AllocError>
    ensures { IfOk result (λ r. r ≡ rewritten_by (sides names.now (out-Formula equation.now)) formula.now) }
{
    match equation {
        Formula::Eq(s, t) => {
            if !is_sorted(names, s) || !is_sorted(names, t) {
                return Ok(Rewritten::Fails(SHAPE));
            }
            rewritten_with(alloc, s, t, formula)
        }
        _ => Ok(Rewritten::Fails(SHAPE)),
    }
}

fn is_sorted(names: &[(Name, Sort)], t: &Term) -> bool
    ensures { result ≡ is_some (sort_of names.now [] t.now) }
{
    sort_of(names, &[], t).is_some()
}

fn rewritten_with(
    alloc: Global,
    s: &Term,
    t: &Term,
    formula: &Formula,
) -> Result<Rewritten, AllocError>
    ensures { IfOk result (λ r. r ≡ rewritten_by (Some (s.now, t.now)) formula.now) }
{
    let changed = Boxed::new(alloc, rewrite(alloc, formula, s, t)?)?;
    Ok(if_small(changed))
}

fn if_small(formula: Boxed<Formula>) -> Rewritten
    ensures { result ≡ if_small (is_large formula) formula }
{
    if is_large(formula.get()) {
        return Rewritten::Fails(TOO_LARGE);
    }
    Rewritten::To(formula)
}
