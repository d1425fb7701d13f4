//! The limits of what a law makes.

ghost use Rattle.std.specs.Prelude.{◌≡◌, true, false, IfOk, IfErr};
ghost use Rattle.std.specs.List.{list_all};
ghost use Rattle.rw_faults.specs.Limits.{is_small};
ghost use Rattle.rw_programs.specs.declared.applied.Misfit.{Misfit};
ghost use Rattle.rw_loops.specs.Limits.{spec_within, child_within, sequent_within, are_within};

use rw_faults::limits::is_small;
use rw_laws::frames::MOST_NAMES;
use rw_laws::premises::Premises;
use rw_programs::applied::{ApplyError, Child, Misfit};
use rw_programs::prog::Spec;
use rw_terms::sequent::Sequent;
use rw_terms::term::Formula;

/// Refuses kids and obligations of which one passes a limit.
pub fn refuse_large(premises: &Premises) -> Result<(), ApplyError>
    ensures ok { IfOk result (λ _. are_within premises.now ≡ true) }
    ensures err { IfErr result (λ e. (are_within premises.now ≡ false) × (e ≡ ApplyError.Misfit Misfit.TooLarge)) }
{
    if are_within(premises) {
        Ok(())
    } else {
        Err(ApplyError::Misfit(Misfit::TooLarge))
    }
}

fn are_within(premises: &Premises) -> bool
    ensures { result ≡ are_within premises.now }
{
    sequents_within(premises.obligations.as_slice())
        && children_within(premises.children.as_slice())
}

fn children_within(children: &[Child]) -> bool
    ensures { result ≡ list_all child_within children.now }
{
    for child in children {
        if !spec_within(&child.spec) {
            return false;
        }
    }
    true
}

fn spec_within(spec: &Spec) -> bool
    ensures { result ≡ spec_within spec.now }
{
    spec.frame.len() <= MOST_NAMES && (is_small(&spec.pre) && is_small(&spec.post))
}

fn sequents_within(sequents: &[Sequent]) -> bool
    ensures { result ≡ list_all sequent_within sequents.now }
{
    for sequent in sequents {
        if !sequent_within(sequent) {
            return false;
        }
    }
    true
}

fn sequent_within(sequent: &Sequent) -> bool
    ensures { result ≡ sequent_within sequent.now }
{
    are_small(sequent.left.as_slice()) && are_small(sequent.right.as_slice())
}

fn are_small(formulas: &[Formula]) -> bool
    ensures { result ≡ list_all is_small formulas.now }
{
    for formula in formulas {
        if !is_small(formula) {
            return false;
        }
    }
    true
}
