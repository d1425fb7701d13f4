//! Whether a test holds of some part of a program.

ghost use Rattle.std.specs.Prelude.{◌≡◌, ◌||◌, IfOk};
ghost use Rattle.rw_wpview.specs.Misfits.{Variant, Invariant, holds_of, of_some};
ghost use Rattle.rw_wpview.specs.Arms.{of_some_arm};

use crate::loops::{next, number_behind, with_local, with_turn};
use crate::parts::{of_guard, of_invariant, of_local, of_set, of_variant};
use crate::test::Test;
use rw_noted::noted::{Noted, NotedArm};
use rw_terms::name::Name;
use rw_terms::scope::{Head, Scope};
use rw_terms::term::{Formula, Term};
use std::alloc::{AllocError, Global};

/// Whether the test holds of some part, where the loops are numbered from a number on.
#[cycle(of_some)]
pub fn of_some(
    alloc: Global,
    test: Test,
    heads: &[Head],
    frame: &[Name],
    scope: &Scope,
    number: u32,
    noted: &Noted,
) -> Result<bool, AllocError>
    ensures { IfOk result (λ b. b ≡ of_some (holds_of heads.now frame.now test) scope.now number noted.now) }
{
    match noted {
        Noted::Skip => Ok(false),
        Noted::Assign(names, terms) => Ok(of_set(
            test,
            frame,
            scope,
            names.as_slice(),
            terms.as_slice(),
        )),
        Noted::Seq(first, second) => {
            if of_some(alloc, test, heads, frame, scope, number, first.get())? {
                return Ok(true);
            }
            let middle = number_behind(number, first.get())?;
            of_some(alloc, test, heads, frame, scope, middle, second.get())
        }
        Noted::If(arms) => of_arms(alloc, test, heads, frame, scope, number, arms.as_slice()),
        Noted::Do(variant, invariant, arms) => {
            if of_notes(alloc, test, heads, frame, scope, variant, invariant)? {
                return Ok(true);
            }
            let inner = with_turn(alloc, scope, number)?;
            of_arms(
                alloc,
                test,
                heads,
                frame,
                &inner,
                next(number)?,
                arms.as_slice(),
            )
        }
        Noted::Block(name, sort, body) => {
            if of_local(test, scope, name, *sort) {
                return Ok(true);
            }
            let inner = with_local(alloc, scope, name, *sort)?;
            of_some(alloc, test, heads, frame, &inner, number, body.get())
        }
    }
}

#[cycle(of_some)]
fn of_arms(
    alloc: Global,
    test: Test,
    heads: &[Head],
    frame: &[Name],
    scope: &Scope,
    number: u32,
    arms: &[NotedArm],
) -> Result<bool, AllocError>
    ensures { IfOk result (λ b. b ≡ of_some_arm (holds_of heads.now frame.now test) scope.now number arms.now) }
{
    let mut number = number;
    for arm in arms {
        if of_guard(alloc, test, heads, scope, &arm.guard)? {
            return Ok(true);
        }
        if of_some(alloc, test, heads, frame, scope, number, &arm.body)? {
            return Ok(true);
        }
        number = number_behind(number, &arm.body)?;
    }
    Ok(false)
}

// Whether it holds of the variant or the invariant of a loop.
fn of_notes(
    alloc: Global,
    test: Test,
    heads: &[Head],
    frame: &[Name],
    scope: &Scope,
    variant: &Term,
    invariant: &Formula,
) -> Result<bool, AllocError>
    ensures { IfOk result (λ b. b ≡ (holds_of heads.now frame.now test scope.now (Variant variant.now) || holds_of heads.now frame.now test scope.now (Invariant invariant.now))) }
{
    if of_variant(test, scope, variant) {
        return Ok(true);
    }
    of_invariant(alloc, test, heads, frame, scope, invariant)
}
