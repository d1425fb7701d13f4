//! Checking a certificate.

ghost use Rattle.std.specs.Prelude.{◌≡◌, ℕ, ◌+◌, ◌<◌, ◌≤◌, ◌↔◌, length, reverse, ltb, IfOk, OnErr};
ghost use Rattle.rw_terms.specs.Validity.{Valid};
ghost use Rattle.rw_goals.specs.Library.{definitions_of};
ghost use Rattle.rw_citations.specs.WellMade.{WellMade};
ghost use Rattle.rw_sequents.specs.Cited.{CitedValid};
ghost use Rattle.rw_sequents.specs.After.{Open, step, progress, capped, Follows, verdict, checked, arithmetic, IsShort, IsCounted};

use crate::after::apply_line;
use crate::error::CheckError;
use crate::line::{Cert, CertLine, Verdict};
use rw_goals::causes::{NO_GOAL, TOO_LARGE, UNCLOSED};
use rw_goals::library::Library;
use rw_goals::outcome::Outcome;
use rw_items::Items;
use rw_steps::Steps;
use rw_terms::sequent::Sequent;
use std::alloc::{AllocError, Global};
use std::sync::ledger::Ledger;

const MOST_GOALS: usize = 64;

/// Why a line fails: the arithmetic line, or 0, and the cause.
#[derive(Clone, Copy, Debug)]
pub struct Fault {
    pub sub: u32,
    pub cause: u8,
}

/// Whether the certificate closes the goal, and else the first line that fails with its cause. One step is counted for each line
/// and each arithmetic line that is checked, the failing ones among them; for want of memory no more than a whole check would count. Lemmas of the library may be cited below the table place `before`, counted from 0.
/// In a library that is well made a good certificate shows the goal valid where the lemmas that it cites are.
pub fn check<L: Ledger>(
    alloc: Global,
    library: &Library,
    before: u32,
    goal: &Sequent,
    cert: &Cert,
    steps: &mut Steps<L>,
) -> Result<Verdict, CheckError>
    requires { IsCounted cert.now }
    ensures verdict { IfOk result (λ v. v ≡ verdict library.now before goal.now cert.now) }
    ensures good { IfOk result (λ v. (v ≡ Verdict.Good) ↔ Follows library.now before goal.now cert.now) }
    ensures valid { IfOk result (λ v. WellMade library.now → CitedValid library.now before cert.now → v ≡ Verdict.Good → Valid (definitions_of library.now) goal.now) }
    ensures cost { IfOk result (λ _. steps.new ≡ steps.old + checked library.now before goal.now cert.now) }
    ensures memory { OnErr result (steps.new ≤ steps.old + checked library.now before goal.now cert.now) }
{
    let mut goals = Items::new(alloc);
    goals.push(goal.copy(alloc)?)?;
    let mut line = 1;
    for rule in cert.lines.as_slice() {
        steps.tick();
        if let Some(fault) = advance(alloc, library, before, &mut goals, rule, steps)? {
            return Ok(Verdict::Bad {
                line,
                sub: fault.sub,
                cause: fault.cause,
            });
        }
        line += 1;
    }
    if goals.is_empty() {
        Ok(Verdict::Good)
    } else {
        Ok(Verdict::Bad {
            line,
            sub: 0,
            cause: UNCLOSED,
        })
    }
}

// Applies a line to the top goal, which is the last of the list.
fn advance<L: Ledger>(
    alloc: Global,
    library: &Library,
    before: u32,
    goals: &mut Items<Sequent>,
    rule: &CertLine,
    steps: &mut Steps<L>,
) -> Result<Option<Fault>, AllocError>
    requires { IsShort rule.now }
    ensures cost { IfOk result (λ _. steps.new ≡ steps.old + arithmetic (reverse goals.old) rule.now) }
    ensures most { steps.new ≤ steps.old + arithmetic (reverse goals.old) rule.now }
    ensures goals { IfOk result (λ fault. (n : ℕ) → step library.now before (Open (reverse goals.old)) rule.now n ≡ progress fault (reverse goals.new) n) }
{
    let mut top = match goals.pop() {
        Some(top) => top,
        None => return Ok(Some(Fault {
            sub: 0,
            cause: NO_GOAL,
        })),
    };
    match apply_line(alloc, library, before, &mut top, rule, steps)? {
        Outcome::Fails(sub, cause) => Ok(Some(Fault { sub, cause })),
        Outcome::Closes => Ok(too_many(goals)),
        Outcome::One => {
            goals.push(top)?;
            Ok(too_many(goals))
        }
        Outcome::Two(second) => {
            goals.push(second)?;
            goals.push(top)?;
            Ok(too_many(goals))
        }
    }
}

fn too_many(goals: &Items<Sequent>) -> Option<Fault>
    ensures { (n : ℕ) → capped (ltb 64 (length (reverse goals.now))) (reverse goals.now) n ≡ progress result (reverse goals.now) n }
{
    if goals.len() > MOST_GOALS {
        return Some(Fault {
            sub: 0,
            cause: TOO_LARGE,
        });
    }
    None
}
