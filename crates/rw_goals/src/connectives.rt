//! The rules of the connectives.

ghost use Rattle.std.specs.Prelude.{◌≡◌, IfOk};
ghost use Rattle.rw_terms.specs.declared.term.Formula.TheViews.{out-Formula};
ghost use Rattle.rw_goals.specs.Premises.{Gives, at_left, at_right};
ghost use Rattle.rw_goals.specs.Connectives.{left_rule, right_rule, not_left, not_right, and_left, and_right, or_left, or_right, imp_left, imp_right};

use crate::added::{Added, Parts, on_left, on_right};
use crate::causes::{NO_FORMULA, SHAPE};
use crate::outcome::{Outcome, numbered, put_premises};
use rw_terms::sequent::Sequent;
use rw_terms::term::Formula;
use std::alloc::{AllocError, Global};

/// A connective, by which a rule takes a formula apart.
#[derive(Clone, Copy, Debug, PartialEq, Eq)]
pub enum Connective {
    Not,
    And,
    Or,
    Imp,
}

/// The rule of the connective for the left formula of this number, which is taken out.
pub fn take_apart_left(
    alloc: Global,
    goal: &mut Sequent,
    connective: Connective,
    number: u32,
) -> Result<Outcome, AllocError>
    ensures { IfOk result (λ o. Gives o goal.new (at_left goal.old number (left_rule connective))) }
{
    let parts = match numbered(goal.left.as_slice(), number) {
        Some(formula) => left_parts(alloc, connective, formula)?,
        None => return Ok(Outcome::Fails(0, NO_FORMULA)),
    };
    goal.left.remove(number as usize - 1);
    put_premises(alloc, goal, parts)
}

/// The rule of the connective for the right formula of this number, which is taken out.
pub fn take_apart_right(
    alloc: Global,
    goal: &mut Sequent,
    connective: Connective,
    number: u32,
) -> Result<Outcome, AllocError>
    ensures { IfOk result (λ o. Gives o goal.new (at_right goal.old number (right_rule connective))) }
{
    let parts = match numbered(goal.right.as_slice(), number) {
        Some(formula) => right_parts(alloc, connective, formula)?,
        None => return Ok(Outcome::Fails(0, NO_FORMULA)),
    };
    goal.right.remove(number as usize - 1);
    put_premises(alloc, goal, parts)
}

fn left_parts(alloc: Global, connective: Connective, formula: &Formula) -> Result<Parts, AllocError>
    ensures { IfOk result (λ p. p ≡ left_rule connective formula.now) }
{
    match connective {
        Connective::Not => not_left(alloc, formula),
        Connective::And => and_left(alloc, formula),
        Connective::Or => or_left(alloc, formula),
        Connective::Imp => imp_left(alloc, formula),
    }
}

fn right_parts(
    alloc: Global,
    connective: Connective,
    formula: &Formula,
) -> Result<Parts, AllocError>
    ensures { IfOk result (λ p. p ≡ right_rule connective formula.now) }
{
    match connective {
        Connective::Not => not_right(alloc, formula),
        Connective::And => and_right(alloc, formula),
        Connective::Or => or_right(alloc, formula),
        Connective::Imp => imp_right(alloc, formula),
    }
}

fn not_left(alloc: Global, formula: &Formula) -> Result<Parts, AllocError>
    ensures { IfOk result (λ p. p ≡ not_left (out-Formula formula.now)) }
{
    match formula {
        Formula::Not(a) => Ok(Parts::One(on_right(alloc, a.get())?)),
        _ => Ok(Parts::Fails(SHAPE)),
    }
}

fn not_right(alloc: Global, formula: &Formula) -> Result<Parts, AllocError>
    ensures { IfOk result (λ p. p ≡ not_right (out-Formula formula.now)) }
{
    match formula {
        Formula::Not(a) => Ok(Parts::One(on_left(alloc, a.get())?)),
        _ => Ok(Parts::Fails(SHAPE)),
    }
}

fn and_left(alloc: Global, formula: &Formula) -> Result<Parts, AllocError>
    ensures { IfOk result (λ p. p ≡ and_left (out-Formula formula.now)) }
{
    match formula {
        Formula::And(a, b) => {
            let mut added = on_left(alloc, a.get())?;
            added.left.push(b.get().copy(alloc)?)?;
            Ok(Parts::One(added))
        }
        _ => Ok(Parts::Fails(SHAPE)),
    }
}

fn and_right(alloc: Global, formula: &Formula) -> Result<Parts, AllocError>
    ensures { IfOk result (λ p. p ≡ and_right (out-Formula formula.now)) }
{
    match formula {
        Formula::And(a, b) => {
            let first = on_right(alloc, a.get())?;
            Ok(Parts::Two(first, on_right(alloc, b.get())?))
        }
        _ => Ok(Parts::Fails(SHAPE)),
    }
}

fn or_left(alloc: Global, formula: &Formula) -> Result<Parts, AllocError>
    ensures { IfOk result (λ p. p ≡ or_left (out-Formula formula.now)) }
{
    match formula {
        Formula::Or(a, b) => {
            let first = on_left(alloc, a.get())?;
            Ok(Parts::Two(first, on_left(alloc, b.get())?))
        }
        _ => Ok(Parts::Fails(SHAPE)),
    }
}

fn or_right(alloc: Global, formula: &Formula) -> Result<Parts, AllocError>
    ensures { IfOk result (λ p. p ≡ or_right (out-Formula formula.now)) }
{
    match formula {
        Formula::Or(a, b) => {
            let mut added = on_right(alloc, a.get())?;
            added.right.push(b.get().copy(alloc)?)?;
            Ok(Parts::One(added))
        }
        _ => Ok(Parts::Fails(SHAPE)),
    }
}

fn imp_left(alloc: Global, formula: &Formula) -> Result<Parts, AllocError>
    ensures { IfOk result (λ p. p ≡ imp_left (out-Formula formula.now)) }
{
    match formula {
        Formula::Imp(a, b) => {
            let first = on_right(alloc, a.get())?;
            Ok(Parts::Two(first, on_left(alloc, b.get())?))
        }
        _ => Ok(Parts::Fails(SHAPE)),
    }
}

fn imp_right(alloc: Global, formula: &Formula) -> Result<Parts, AllocError>
    ensures { IfOk result (λ p. p ≡ imp_right (out-Formula formula.now)) }
{
    match formula {
        Formula::Imp(a, b) => {
            let mut added = on_left(alloc, a.get())?;
            added.right.push(b.get().copy(alloc)?)?;
            Ok(Parts::One(added))
        }
        _ => Ok(Parts::Fails(SHAPE)),
    }
}
