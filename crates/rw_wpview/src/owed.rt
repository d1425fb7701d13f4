//! The conditions of the loops of a program.

ghost use Rattle.std.specs.Prelude.{◌≡◌, [], ◌∷◌, ◌++◌, map, List, IfOk, IfErr};
ghost use Rattle.rw_terms.specs.declared.term.Formula.{Formula};
ghost use Rattle.rw_terms.specs.declared.sequent.Sequent.{Sequent};
ghost use Rattle.rw_subst.specs.Conj.{disj};
ghost use Rattle.rw_wpview.specs.Conditions.{condition, turned, turning, loop_rests, of_loops};
ghost use Rattle.rw_wpview.specs.Kept.{kept, Answers};
ghost use Rattle.rw_wpview.specs.Arms.{guards, turn_of, of_arms};

use crate::before::before;
use crate::kept::{again, both, guards_defined, kept, kept_copy};
use crate::loops::{guards, next, number_behind, turn_constant, with_local, with_turn};
use rw_derived::making::{alone, owed};
use rw_items::{Boxed, Items};
use rw_loops::causes::not_below_0;
use rw_loops::guards::any_guard;
use rw_noted::noted::{Noted, NotedArm};
use rw_programs::applied::{ApplyError, Misfit};
use rw_terms::scope::Scope;
use rw_terms::sequent::Sequent;
use rw_terms::term::{Formula, Term};
use std::alloc::{AllocError, Global};

/// The condition that one formula gives another. A formula that passes a limit is refused.
pub fn condition(
    alloc: Global,
    scope: &Scope,
    left: Option<Boxed<Formula>>,
    right: Option<Boxed<Formula>>,
) -> Result<Items<Sequent>, ApplyError>
    ensures { (f g : Formula) → left ≡ kept f → right ≡ kept g → Answers (condition scope.now f g ∷ []) result }
{
    match left {
        None => Err(ApplyError::Misfit(Misfit::TooLarge)),
        Some(left) => match right {
            None => Err(ApplyError::Misfit(Misfit::TooLarge)),
            Some(right) => owed_one(alloc, scope, left, right),
        },
    }
}

fn owed_one(
    alloc: Global,
    scope: &Scope,
    left: Boxed<Formula>,
    right: Boxed<Formula>,
) -> Result<Items<Sequent>, ApplyError>
    ensures ok { IfOk result (λ qs. qs ≡ condition scope.now left right ∷ []) }
    ensures err { IfErr result (λ e. e ≡ ApplyError.Memory) }
{
    Ok(owed(alloc, scope, alone(alloc, left)?, alone(alloc, right)?)?)
}

/// Conditions, and others behind them.
#[tactic(auto, using(crate::proofs::Owing::owes_both, crate::proofs::Owing::not_first, crate::proofs::Owing::not_second))]
pub fn joined(
    one: Result<Items<Sequent>, ApplyError>,
    other: Result<Items<Sequent>, ApplyError>,
) -> Result<Items<Sequent>, ApplyError>
    ensures { (v w : List Sequent) → Answers v one → Answers w other → Answers (v ++ w) result }
{
    match one {
        Err(error) => Err(error),
        Ok(mut owed) => match other {
            Err(error) => Err(error),
            Ok(more) => {
                owed.append(more)?;
                Ok(owed)
            }
        },
    }
}

/// Those of the loops, which are numbered from a number on, where the formula is to hold after the program.
#[cycle(of_loops)]
pub fn of_loops(
    alloc: Global,
    scope: &Scope,
    number: u32,
    noted: &Noted,
    after: &Option<Boxed<Formula>>,
) -> Result<Items<Sequent>, ApplyError>
    ensures { (f : Formula) → after.now ≡ kept f → Answers (of_loops scope.now number noted.now f) result }
{
    match noted {
        Noted::Skip | Noted::Assign(_, _) => Ok(Items::new(alloc)),
        Noted::Seq(first, second) => {
            let middle = before(alloc, scope, second.get(), after)?;
            let behind = number_behind(number, first.get())?;
            joined(
                of_loops(alloc, scope, number, first.get(), &middle),
                of_loops(alloc, scope, behind, second.get(), after),
            )
        }
        Noted::If(arms) => of_arms(alloc, scope, number, arms.as_slice(), after),
        Noted::Do(variant, invariant, arms) => {
            let inner = with_turn(alloc, scope, number)?;
            let turned = turned(alloc, number, variant, invariant)?;
            let rests = loop_rests(alloc, scope, invariant, arms.as_slice(), after);
            let turns = turns(
                alloc,
                &inner,
                number,
                variant,
                invariant,
                arms.as_slice(),
                &turned,
            );
            let inside = of_arms(alloc, &inner, next(number)?, arms.as_slice(), &turned);
            joined(rests, joined(turns, inside))
        }
        Noted::Block(name, sort, body) => {
            let inner = with_local(alloc, scope, name, *sort)?;
            of_loops(alloc, &inner, number, body.get(), after)
        }
    }
}

#[cycle(of_loops)]
fn of_arms(
    alloc: Global,
    scope: &Scope,
    number: u32,
    arms: &[NotedArm],
    after: &Option<Boxed<Formula>>,
) -> Result<Items<Sequent>, ApplyError>
    ensures { (f : Formula) → after.now ≡ kept f → Answers (of_arms scope.now number arms.now f) result }
{
    let mut number = number;
    let mut owed = Ok(Items::new(alloc));
    for arm in arms {
        owed = joined(owed, of_loops(alloc, scope, number, &arm.body, after));
        number = number_behind(number, &arm.body)?;
    }
    owed
}

// The guards are defined, and the loop's end has what stands behind it.
fn loop_rests(
    alloc: Global,
    scope: &Scope,
    invariant: &Formula,
    arms: &[NotedArm],
    after: &Option<Boxed<Formula>>,
) -> Result<Items<Sequent>, ApplyError>
    ensures { (f : Formula) → after.now ≡ kept f → Answers (loop_rests scope.now invariant.now (guards arms.now) f) result }
{
    let guards = guards(alloc, arms)?;
    let defined = guards_defined(alloc, scope, guards.as_slice())?;
    let end = at_end(alloc, invariant, guards.as_slice())?;
    joined(
        condition(alloc, scope, kept_copy(alloc, invariant)?, defined),
        condition(alloc, scope, end, again(alloc, after)?),
    )
}

// Each turn keeps the invariant and makes the variant less.
fn turns(
    alloc: Global,
    inner: &Scope,
    number: u32,
    variant: &Term,
    invariant: &Formula,
    arms: &[NotedArm],
    after: &Option<Boxed<Formula>>,
) -> Result<Items<Sequent>, ApplyError>
    requires { after.now ≡ kept (turned number variant.now invariant.now) }
    ensures { Answers (map (turn_of inner.now number variant.now invariant.now) arms.now) result }
{
    let mut owed = Ok(Items::new(alloc));
    for arm in arms {
        let start = turning(alloc, number, variant, invariant, &arm.guard)?;
        let end = before(alloc, inner, &arm.body, after)?;
        owed = joined(owed, condition(alloc, inner, start, end));
    }
    owed
}

// The invariant holds, and no guard does.
fn at_end(
    alloc: Global,
    invariant: &Formula,
    guards: &[Formula],
) -> Result<Option<Boxed<Formula>>, AllocError>
    ensures { IfOk result (λ o. o ≡ kept (Formula.And invariant.now (Formula.Not (disj guards.now)))) }
{
    let none = Boxed::new(alloc, Formula::Not(any_guard(alloc, guards)?))?;
    both(alloc, kept_copy(alloc, invariant)?, kept(none))
}

// Before a turn the invariant and a guard hold, and the constant has the value of the variant.
fn turning(
    alloc: Global,
    number: u32,
    variant: &Term,
    invariant: &Formula,
    guard: &Formula,
) -> Result<Option<Boxed<Formula>>, AllocError>
    ensures { IfOk result (λ o. o ≡ kept (turning number variant.now invariant.now guard.now)) }
{
    let known = both(
        alloc,
        kept_copy(alloc, invariant)?,
        kept_copy(alloc, guard)?,
    )?;
    let same = Formula::Eq(
        variant.copy(alloc)?,
        Term::Const(turn_constant(alloc, number)?),
    );
    both(alloc, known, kept(Boxed::new(alloc, same)?))
}

// After a turn the invariant holds, and the variant is not below 0 and less than it was.
fn turned(
    alloc: Global,
    number: u32,
    variant: &Term,
    invariant: &Formula,
) -> Result<Option<Boxed<Formula>>, AllocError>
    ensures { IfOk result (λ o. o ≡ kept (turned number variant.now invariant.now)) }
{
    let bound = kept(not_below_0(alloc, variant)?);
    let known = both(alloc, kept_copy(alloc, invariant)?, bound)?;
    let less = Formula::Less(
        variant.copy(alloc)?,
        Term::Const(turn_constant(alloc, number)?),
    );
    both(alloc, known, kept(Boxed::new(alloc, less)?))
}
