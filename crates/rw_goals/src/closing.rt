//! The rules that close a goal.

ghost use Rattle.std.specs.Prelude.{◌≡◌};
ghost use Rattle.std.specs.List.{list_any};
ghost use Rattle.rw_terms.specs.declared.term.Formula.TheViews.{out-Formula};
ghost use Rattle.rw_terms.specs.Same.{same_term, same_formula};
ghost use Rattle.rw_goals.specs.Premises.{told};
ghost use Rattle.rw_goals.specs.Closing.{have_common, is_false, is_true, is_reflexive, closes_if, closed_by};

use crate::causes::SHAPE;
use crate::outcome::Outcome;
use rw_terms::sameness::{same, same_term};
use rw_terms::sequent::Sequent;
use rw_terms::term::{Formula, Term};

/// What may close a goal.
#[derive(Clone, Copy, Debug, PartialEq, Eq)]
pub enum Closing {
    /// Some left formula is the same as some right one.
    Common,
    /// `false` is on the left.
    False,
    /// `true` is on the right.
    True,
    /// Some equation of a term with itself is on the right.
    Reflexive,
}

/// Closes the goal where it has what the rule asks for.
pub fn close(goal: &Sequent, closing: Closing) -> Outcome
    ensures { told result goal.now ≡ closed_by closing goal.now }
{
    match closing {
        Closing::Common => closes_if(have_common(goal.left.as_slice(), goal.right.as_slice())),
        Closing::False => closes_if(any_false(goal.left.as_slice())),
        Closing::True => closes_if(any_true(goal.right.as_slice())),
        Closing::Reflexive => closes_if(any_reflexive(goal.right.as_slice())),
    }
}

fn closes_if(closes: bool) -> Outcome
    ensures { (q : Sequent) → told result q ≡ closes_if closes }
{
    if closes {
        Outcome::Closes
    } else {
        Outcome::Fails(0, SHAPE)
    }
}

fn have_common(left: &[Formula], right: &[Formula]) -> bool
    ensures { result ≡ have_common left.now right.now }
{
    for f in left {
        if is_among(f, right) {
            return true;
        }
    }
    false
}

fn is_among(formula: &Formula, formulas: &[Formula]) -> bool
    ensures { result ≡ list_any (same_formula formula.now) formulas.now }
{
    for g in formulas {
        if is_same(formula, g) {
            return true;
        }
    }
    false
}

fn is_same(one: &Formula, other: &Formula) -> bool
    ensures { result ≡ same_formula one.now other.now }
{
    same(one, other)
}

fn any_false(formulas: &[Formula]) -> bool
    ensures { result ≡ list_any (λ f. is_false (out-Formula f)) formulas.now }
{
    for f in formulas {
        if is_false(f) {
            return true;
        }
    }
    false
}

fn is_false(formula: &Formula) -> bool
    ensures { result ≡ is_false (out-Formula formula.now) }
{
    matches!(formula, Formula::False)
}

fn any_true(formulas: &[Formula]) -> bool
    ensures { result ≡ list_any (λ f. is_true (out-Formula f)) formulas.now }
{
    for f in formulas {
        if is_true(f) {
            return true;
        }
    }
    false
}

fn is_true(formula: &Formula) -> bool
    ensures { result ≡ is_true (out-Formula formula.now) }
{
    matches!(formula, Formula::True)
}

fn any_reflexive(formulas: &[Formula]) -> bool
    ensures { result ≡ list_any (λ f. is_reflexive (out-Formula f)) formulas.now }
{
    for f in formulas {
        if is_reflexive(f) {
            return true;
        }
    }
    false
}

fn is_reflexive(formula: &Formula) -> bool
    ensures { result ≡ is_reflexive (out-Formula formula.now) }
{
    match formula {
        Formula::Eq(s, t) => is_same_term(s, t),
        _ => false,
    }
}

/// Whether two terms are one.
pub fn is_same_term(one: &Term, other: &Term) -> bool
    ensures { result ≡ same_term one.now other.now }
{
    same_term(one, other)
}
