//! The code of a program, without its notes.

ghost use Rattle.std.specs.Prelude.{◌≡◌, IfOk, map};
ghost use Rattle.rw_programs.specs.declared.prog.Prog.{Prog};
ghost use Rattle.rw_noted.specs.Code.{code_of, code_of_arm};

use crate::noted::{Noted, NotedArm};
use rw_items::{Boxed, Items};
use rw_programs::copying::copy_list;
use rw_programs::prog::{Arm, Prog};
use rw_terms::copying::{boxed, boxed_term, copy_terms};
use rw_terms::term::Term;
use std::alloc::{AllocError, Global};

/// The program without the invariants of its loops.
#[cycle(code_of)]
#[tactic(auto, using(crate::proofs::CodeParts::seq_code, crate::proofs::CodeParts::if_code, crate::proofs::CodeParts::do_code, crate::proofs::CodeParts::block_code))]
pub fn code_of(alloc: Global, noted: &Noted) -> Result<Prog, AllocError>
    ensures { IfOk result (λ c. c ≡ code_of noted.now) }
{
    match noted {
        Noted::Skip => Ok(Prog::Skip),
        Noted::Assign(names, terms) => Ok(Prog::Assign(
            copy_list(alloc, names.as_slice())?,
            copy_terms(alloc, terms.as_slice())?,
        )),
        Noted::Seq(first, second) => Ok(Prog::Seq(
            boxed_code(alloc, first.get())?,
            boxed_code(alloc, second.get())?,
        )),
        Noted::If(arms) => Ok(Prog::If(code_of_arms(alloc, arms.as_slice())?)),
        Noted::Do(variant, _, arms) => {
            let arms = code_of_arms(alloc, arms.as_slice())?;
            loop_of(alloc, variant, arms)
        }
        Noted::Block(name, sort, body) => Ok(Prog::Block(
            name.copy(),
            *sort,
            boxed_code(alloc, body.get())?,
        )),
    }
}

#[cycle(code_of)]
fn boxed_code(alloc: Global, noted: &Noted) -> Result<Boxed<Prog>, AllocError>
    ensures { IfOk result (λ c. c ≡ code_of noted.now) }
{
    Boxed::new(alloc, code_of(alloc, noted)?)
}

fn loop_of(alloc: Global, variant: &Term, arms: Items<Arm>) -> Result<Prog, AllocError>
    ensures { IfOk result (λ c. c ≡ Prog.Do variant.now arms) }
{
    let variant = boxed_term(alloc, variant)?;
    Ok(Prog::Do(variant.into_inner(), arms))
}

#[cycle(code_of)]
fn code_of_arms(alloc: Global, arms: &[NotedArm]) -> Result<Items<Arm>, AllocError>
    ensures { IfOk result (λ made. made ≡ map code_of_arm arms.now) }
{
    let mut code = Items::new(alloc);
    for arm in arms {
        let guard = boxed(alloc, &arm.guard)?;
        let body = code_of(alloc, &arm.body)?;
        code.push(Arm {
            guard: guard.into_inner(),
            body,
        })?;
    }
    Ok(code)
}
