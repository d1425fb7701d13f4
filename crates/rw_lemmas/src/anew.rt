//! Checking the certificate of a lemma.

ghost use Rattle.std.specs.Prelude.{◌≡◌, ◌+◌, ◌≤◌, IfOk, IfErr, Some, option_copied};
ghost use Rattle.rw_goals.specs.declared.library.Item.{Item};
ghost use Rattle.rw_citations.specs.Goal.{goal_of};
ghost use Rattle.rw_sequents.specs.After.{IsCounted, checked};
ghost use Rattle.rw_lemmas.specs.States.{proof_at, status_at};

use crate::error::LemmaError;
use crate::status::{LemmaStatus, by_verdict};
use rw_citations::goal::goal_of;
use rw_goals::library::{Lemma, Library};
use rw_items::at;
use rw_sequents::check::check;
use rw_sequents::line::Cert;
use rw_steps::Steps;
use std::alloc::Global;
use std::sync::ledger::Ledger;

/// The certificate in a place, counted from 0.
pub fn proof_at(proofs: &[Option<Cert>], place: usize) -> Option<&Cert>
    ensures { option_copied result ≡ proof_at proofs.now place }
{
    match at(proofs, place) {
        Some(proof) => proof.as_ref(),
        None => None,
    }
}

/// The status of a lemma in a place by checking its certificate.
pub fn checked<L: Ledger>(
    alloc: Global,
    library: &Library,
    place: u32,
    lemma: &Lemma,
    cert: &Cert,
    steps: &mut Steps<L>,
) -> Result<LemmaStatus, LemmaError>
    requires { IsCounted cert.now }
    ensures status { IfOk result (λ s. s ≡ status_at library.now place (Item.Lemma lemma.now) (Some cert.now)) }
    ensures err { IfErr result (λ e. e ≡ LemmaError.Memory) }
    ensures cost { IfOk result (λ _. steps.new ≡ steps.old + checked library.now place (goal_of lemma.now) cert.now) }
    ensures most { steps.new ≤ steps.old + checked library.now place (goal_of lemma.now) cert.now }
{
    let goal = goal_of(alloc, lemma)?;
    let verdict = check(alloc, library, place, &goal, cert, steps)?;
    Ok(by_verdict(verdict))
}
