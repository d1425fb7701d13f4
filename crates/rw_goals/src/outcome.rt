//! What a line does to the goal on top: the goal is changed in place.

ghost use Rattle.std.specs.Prelude.{◌≡◌, IfOk, option_copied};
ghost use Rattle.rw_goals.specs.Premises.{Gives, effect, with_added, numbered};

use crate::added::{Added, Parts};
use crate::causes::TOO_LARGE;
use crate::room::has_room;
use rw_terms::sequent::Sequent;
use rw_terms::term::Formula;
use std::alloc::{AllocError, Global};

/// What a line does to a goal.
#[derive(Drop)]
pub enum Outcome {
    /// It fails, with the arithmetic line, or 0, and the cause. The goal is as it was, or without the principal formula.
    Fails(u32, u8),
    /// It closes the goal.
    Closes,
    /// The goal is now the premise.
    One,
    /// The goal is now the first premise, and this is the second.
    Two(Sequent),
}

/// The premises in place of the goal, of which the principal formula is taken out unless it stays. A premise past the limit is
/// not made.
pub fn put_premises(alloc: Global, goal: &mut Sequent, parts: Parts) -> Result<Outcome, AllocError>
    ensures { IfOk result (λ o. Gives o goal.new (effect parts goal.old)) }
{
    match parts {
        Parts::Fails(cause) => Ok(Outcome::Fails(0, cause)),
        Parts::One(added) => one(goal, added),
        Parts::Two(first, second) => two(alloc, goal, first, second),
    }
}

fn one(goal: &mut Sequent, added: Added) -> Result<Outcome, AllocError>
    ensures { IfOk result (λ o. Gives o goal.new (effect (Parts.One added) goal.old)) }
{
    if !has_room(goal, &added) {
        return Ok(Outcome::Fails(0, TOO_LARGE));
    }
    extend(goal, added)?;
    Ok(Outcome::One)
}

fn two(
    alloc: Global,
    goal: &mut Sequent,
    first: Added,
    second: Added,
) -> Result<Outcome, AllocError>
    ensures { IfOk result (λ o. Gives o goal.new (effect (Parts.Two first second) goal.old)) }
{
    if !has_room(goal, &first) || !has_room(goal, &second) {
        return Ok(Outcome::Fails(0, TOO_LARGE));
    }
    let mut other = goal.copy(alloc)?;
    extend(&mut other, second)?;
    extend(goal, first)?;
    Ok(Outcome::Two(other))
}

fn extend(goal: &mut Sequent, added: Added) -> Result<(), AllocError>
    ensures { IfOk result (λ _. goal.new ≡ with_added goal.old added) }
{
    let Added { names, left, right } = added;
    goal.names.append(names)?;
    goal.left.append(left)?;
    goal.right.append(right)
}

/// The formula of this number, counted from 1.
pub fn numbered(formulas: &[Formula], number: u32) -> Option<&Formula>
    ensures { option_copied result ≡ numbered formulas.now number }
{
    if number == 0 {
        return None;
    }
    rw_items::at(formulas, number as usize - 1)
}
