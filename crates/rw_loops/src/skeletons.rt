//! The program that a step makes, with its kids left open.

ghost use Rattle.std.specs.Prelude.{◌≡◌, ◌+◌, IfOk};
ghost use Rattle.rw_programs.specs.declared.prog.Prog.{Prog};
ghost use Rattle.rw_loops.specs.Laws.{arms_from};
ghost use Rattle.rw_loops.specs.Skeletons.{skeleton_of};

use crate::step::LoopStep;
use rw_items::{Boxed, Items};
use rw_programs::prog::{Arm, Prog};
use rw_terms::name::Name;
use rw_terms::term::{Formula, Sort, Term};
use std::alloc::{AllocError, Global};

/// The skeleton of a step. More kids than there are numbers want memory.
pub fn skeleton(alloc: Global, step: &LoopStep) -> Result<Prog, AllocError>
    ensures { IfOk result (λ c. c ≡ skeleton_of step.now) }
{
    match step {
        LoopStep::If(guards) => chosen(alloc, guards.as_slice()),
        LoopStep::Do(variant, guards) => repeated(alloc, variant, guards.as_slice()),
        LoopStep::Block(name, sort) => enclosed(alloc, name, *sort),
    }
}

fn chosen(alloc: Global, guards: &[Formula]) -> Result<Prog, AllocError>
    ensures { IfOk result (λ c. c ≡ Prog.If (arms_from 1 guards.now)) }
{
    let arms = arms(alloc, guards)?;
    Ok(Prog::If(arms))
}

fn repeated(alloc: Global, variant: &Term, guards: &[Formula]) -> Result<Prog, AllocError>
    ensures { IfOk result (λ c. c ≡ Prog.Do variant.now (arms_from 1 guards.now)) }
{
    let variant = Boxed::new(alloc, variant.copy(alloc)?)?;
    let arms = arms(alloc, guards)?;
    Ok(Prog::Do(variant.into_inner(), arms))
}

fn enclosed(alloc: Global, name: &Name, sort: Sort) -> Result<Prog, AllocError>
    ensures { IfOk result (λ c. c ≡ Prog.Block name.now sort (Prog.Kid 1)) }
{
    let body = Boxed::new(alloc, Prog::Kid(1))?;
    Ok(Prog::Block(name.copy(), sort, body))
}

// The guards with the kids behind them, which are numbered from 1 on.
fn arms(alloc: Global, guards: &[Formula]) -> Result<Items<Arm>, AllocError>
    ensures { IfOk result (λ arms. arms ≡ arms_from 1 guards.now) }
{
    let mut arms = Items::new(alloc);
    let mut number = 0;
    for guard in guards {
        number = next(number)?;
        arms.push(arm(alloc, guard, number)?)?;
    }
    Ok(arms)
}

fn next(number: u32) -> Result<u32, AllocError>
    ensures { IfOk result (λ n. n ≡ number + 1) }
{
    match number.checked_add(1) {
        Some(next) => Ok(next),
        None => Err(AllocError),
    }
}

fn arm(alloc: Global, guard: &Formula, number: u32) -> Result<Arm, AllocError>
    ensures { IfOk result (λ a. a ≡ record { guard = guard.now; body = Prog.Kid number }) }
{
    Ok(Arm {
        guard: guard.copy(alloc)?,
        body: Prog::Kid(number),
    })
}
