//! The program that a step makes, with its kids left open.

ghost use Rattle.std.specs.Prelude.{◌≡◌, IfOk};
ghost use Rattle.rw_programs.specs.declared.prog.Prog.{Prog};
ghost use Rattle.rw_laws.specs.Skeletons.{skeleton_of, HasPins};

use crate::step::BasicStep;
use rw_derived::derived::{one_pin, pins_for};
use rw_items::Boxed;
use rw_programs::copying::copy_list;
use rw_programs::prog::{Prog, Spec};
use rw_terms::copying::copy_terms;
use rw_terms::name::Name;
use rw_terms::term::Term;
use std::alloc::{AllocError, Global};

/// The skeleton of a step whose law fits.
pub fn skeleton(alloc: Global, spec: &Spec, step: &BasicStep) -> Result<Prog, AllocError>
    requires { HasPins spec.now step.now }
    ensures { IfOk result (λ c. c ≡ skeleton_of spec.now step.now) }
{
    match step {
        BasicStep::Skip => Ok(Prog::Skip),
        BasicStep::Weaken(_)
        | BasicStep::Strengthen(_)
        | BasicStep::Contract(_)
        | BasicStep::Expand(_) => Ok(Prog::Kid(1)),
        BasicStep::Assign(names, terms) => assignment(alloc, names.as_slice(), terms.as_slice()),
        BasicStep::Follow(names, terms) => followed(alloc, names.as_slice(), terms.as_slice()),
        BasicStep::Seq(_) => two_kids(alloc),
        BasicStep::SeqCon(names, _) => {
            let pins = pins_for(alloc, spec.frame.as_slice(), names.as_slice())?;
            Ok(Prog::Con(pins, Boxed::new(alloc, two_kids(alloc)?)?))
        }
        BasicStep::Con(name, term) => {
            let pins = one_pin(alloc, name, term)?;
            Ok(Prog::Con(pins, Boxed::new(alloc, Prog::Kid(1))?))
        }
    }
}

fn assignment(alloc: Global, names: &[Name], terms: &[Term]) -> Result<Prog, AllocError>
    ensures { IfOk result (λ c. c ≡ Prog.Assign names.now terms.now) }
{
    Ok(Prog::Assign(copy_list(alloc, names)?, copy_terms(alloc, terms)?))
}

// The kid, and an assignment behind it.
fn followed(alloc: Global, names: &[Name], terms: &[Term]) -> Result<Prog, AllocError>
    ensures { IfOk result (λ c. c ≡ Prog.Seq (Prog.Kid 1) (Prog.Assign names.now terms.now)) }
{
    let first = Boxed::new(alloc, Prog::Kid(1))?;
    let then = Boxed::new(alloc, assignment(alloc, names, terms)?)?;
    Ok(Prog::Seq(first, then))
}

fn two_kids(alloc: Global) -> Result<Prog, AllocError>
    ensures { IfOk result (λ c. c ≡ Prog.Seq (Prog.Kid 1) (Prog.Kid 2)) }
{
    let first = Boxed::new(alloc, Prog::Kid(1))?;
    let second = Boxed::new(alloc, Prog::Kid(2))?;
    Ok(Prog::Seq(first, second))
}
