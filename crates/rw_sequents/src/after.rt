//! What a line does to the goal on top.

ghost use Rattle.std.specs.Prelude.{◌≡◌, ◌+◌, ◌<◌, ◌≤◌, [], ◌∷◌, length, IfOk};
ghost use Rattle.rw_arith.specs.Lines.{lines_fault, checked_of};
ghost use Rattle.rw_goals.specs.Premises.{Gives};
ghost use Rattle.rw_sequents.specs.Refuted.{refuted_by};
ghost use Rattle.rw_sequents.specs.Rules.{after_line};
ghost use Rattle.rw_sequents.specs.After.{arithmetic, IsShort};

use crate::line::CertLine;
use rw_arith::check::check_lines;
use rw_arith::error::LinError;
use rw_arith::line::LinLine;
use rw_axioms::axioms::{division, extension, put_other, put_same};
use rw_citations::citing::cite;
use rw_citations::unfolding::{unfold_at_left, unfold_at_right};
use rw_equations::equality::{exchange, rewrite_left, rewrite_right, split_equation};
use rw_goals::causes::{BAD_LINE, NO_CONTRADICTION, WIDE};
use rw_goals::closing::{Closing, close};
use rw_goals::connectives::{Connective, take_apart_left, take_apart_right};
use rw_goals::cut::{cut, drop_left, drop_right};
use rw_goals::library::Library;
use rw_goals::outcome::Outcome;
use rw_quantifiers::instances::{all_at_left, all_at_right, any_at_left, any_at_right};
use rw_steps::Steps;
use rw_terms::sequent::Sequent;
use std::alloc::{AllocError, Global};
use std::sync::ledger::Ledger;

/// Applies a line to a goal, which is changed in place. Lemmas may be cited below the table place `before`.
pub fn apply_line<L: Ledger>(
    alloc: Global,
    library: &Library,
    before: u32,
    goal: &mut Sequent,
    line: &CertLine,
    steps: &mut Steps<L>,
) -> Result<Outcome, AllocError>
    requires { IsShort line.now }
    ensures cost { IfOk result (λ _. steps.new ≡ steps.old + arithmetic (goal.old ∷ []) line.now) }
    ensures most { steps.new ≤ steps.old + arithmetic (goal.old ∷ []) line.now }
    ensures effect { IfOk result (λ o. Gives o goal.new (after_line library.now before goal.old line.now)) }
{
    match line {
        CertLine::Ax => Ok(close(goal, Closing::Common)),
        CertLine::FalseL => Ok(close(goal, Closing::False)),
        CertLine::TrueR => Ok(close(goal, Closing::True)),
        CertLine::Refl => Ok(close(goal, Closing::Reflexive)),
        CertLine::Cut(formula) => cut(alloc, library, goal, formula),
        CertLine::DropL(i) => drop_left(alloc, goal, *i),
        CertLine::DropR(j) => drop_right(alloc, goal, *j),
        CertLine::NotL(i) => take_apart_left(alloc, goal, Connective::Not, *i),
        CertLine::NotR(j) => take_apart_right(alloc, goal, Connective::Not, *j),
        CertLine::AndL(i) => take_apart_left(alloc, goal, Connective::And, *i),
        CertLine::AndR(j) => take_apart_right(alloc, goal, Connective::And, *j),
        CertLine::OrL(i) => take_apart_left(alloc, goal, Connective::Or, *i),
        CertLine::OrR(j) => take_apart_right(alloc, goal, Connective::Or, *j),
        CertLine::ImpL(i) => take_apart_left(alloc, goal, Connective::Imp, *i),
        CertLine::ImpR(j) => take_apart_right(alloc, goal, Connective::Imp, *j),
        CertLine::AllL(i, t) => all_at_left(alloc, goal, *i, t),
        CertLine::ExR(j, t) => any_at_right(alloc, goal, *j, t),
        CertLine::AllR(j, y) => all_at_right(alloc, goal, *j, y),
        CertLine::ExL(i, y) => any_at_left(alloc, goal, *i, y),
        CertLine::EqR(j) => split_equation(alloc, goal, *j),
        CertLine::Flip(i) => exchange(alloc, goal, *i),
        CertLine::RwL(i, m) => rewrite_left(alloc, goal, *i, *m),
        CertLine::RwR(i, j) => rewrite_right(alloc, goal, *i, *j),
        CertLine::PutSame(a, i, e) => put_same(alloc, goal, a, i, e),
        CertLine::PutOther(a, i, e, j) => put_other(alloc, goal, a, i, e, j),
        CertLine::ArrExt(a, b) => extension(alloc, goal, a, b),
        CertLine::DivMod(t, u) => division(alloc, goal, t, u),
        CertLine::UnfoldL(i) => unfold_at_left(alloc, library, goal, *i),
        CertLine::UnfoldR(j) => unfold_at_right(alloc, library, goal, *j),
        CertLine::Lemma(name, terms) => cite(alloc, library, before, goal, name, terms.as_slice()),
        CertLine::Lin(lines) => refute(alloc, goal, lines.as_slice(), steps),
    }
}

// Arithmetic lines: each that is checked counts one step.
fn refute<L: Ledger>(
    alloc: Global,
    goal: &Sequent,
    lines: &[LinLine],
    steps: &mut Steps<L>,
) -> Result<Outcome, AllocError>
    requires { length lines.now < 4294967295 }
    ensures effect { IfOk result (λ o. Gives o goal.now (refuted_by lines.now goal.now)) }
    ensures cost { IfOk result (λ _. steps.new ≡ steps.old + checked_of (length lines.now) (lines_fault goal.now.left goal.now.right lines.now)) }
    ensures most { steps.new ≤ steps.old + checked_of (length lines.now) (lines_fault goal.now.left goal.now.right lines.now) }
{
    match check_lines(
        alloc,
        goal.left.as_slice(),
        goal.right.as_slice(),
        lines,
        steps,
    ) {
        Ok(()) => Ok(Outcome::Closes),
        Err(LinError::BadLine(line)) => Ok(Outcome::Fails(line, BAD_LINE)),
        Err(LinError::Wide(line)) => Ok(Outcome::Fails(line, WIDE)),
        Err(LinError::NotContradiction(line)) => Ok(Outcome::Fails(line, NO_CONTRADICTION)),
        Err(LinError::Memory) => Err(AllocError),
    }
}
