//! The rules that ask nothing of a formula's form.

ghost use Rattle.std.specs.Prelude.{◌≡◌, IfOk};
ghost use Rattle.rw_goals.specs.Premises.{Gives, nothing, at_left, at_right};
ghost use Rattle.rw_goals.specs.Cut.{cut, cut_parts, is_large, leave_out};

use crate::added::{Added, Parts, on_left, on_right};
use crate::causes::{NO_FORMULA, SORT, TOO_LARGE};
use crate::library::Library;
use crate::outcome::{Outcome, numbered, put_premises};
use crate::sorting::keeps_rules;
use rw_terms::measure::{depth, weight};
use rw_terms::sequent::Sequent;
use rw_terms::term::Formula;
use std::alloc::{AllocError, Global};

const MOST_PARTS: u32 = 1024;

const MOST_DEPTH: u32 = 64;

/// The goal with a formula to show, and then to use.
pub fn cut(
    alloc: Global,
    library: &Library,
    goal: &mut Sequent,
    formula: &Formula,
) -> Result<Outcome, AllocError>
    ensures { IfOk result (λ o. Gives o goal.new (cut library.now formula.now goal.old)) }
{
    if !keeps_rules(
        alloc,
        goal.names.as_slice(),
        library.entries.as_slice(),
        &[],
        formula,
    )? {
        return Ok(Outcome::Fails(0, SORT));
    }
    if is_large(formula) {
        return Ok(Outcome::Fails(0, TOO_LARGE));
    }
    let first = on_right(alloc, formula)?;
    let second = on_left(alloc, formula)?;
    put_premises(alloc, goal, Parts::Two(first, second))
}

/// Whether the formula is past a limit.
pub fn is_large(formula: &Formula) -> bool
    ensures { result ≡ is_large formula.now }
{
    weight(formula) > MOST_PARTS || depth(formula) > MOST_DEPTH
}

/// The goal without the left formula of this number.
pub fn drop_left(alloc: Global, goal: &mut Sequent, number: u32) -> Result<Outcome, AllocError>
    ensures { IfOk result (λ o. Gives o goal.new (at_left goal.old number leave_out)) }
{
    if numbered(goal.left.as_slice(), number).is_none() {
        return Ok(Outcome::Fails(0, NO_FORMULA));
    }
    goal.left.remove(number as usize - 1);
    put_premises(alloc, goal, Parts::One(Added::new(alloc)))
}

/// The goal without the right formula of this number.
pub fn drop_right(alloc: Global, goal: &mut Sequent, number: u32) -> Result<Outcome, AllocError>
    ensures { IfOk result (λ o. Gives o goal.new (at_right goal.old number leave_out)) }
{
    if numbered(goal.right.as_slice(), number).is_none() {
        return Ok(Outcome::Fails(0, NO_FORMULA));
    }
    goal.right.remove(number as usize - 1);
    put_premises(alloc, goal, Parts::One(Added::new(alloc)))
}
