//! The numbers of loops, and the scopes inside loops and blocks.

ghost use Rattle.std.specs.Prelude.{◌≡◌, ◌+◌, [], ◌∷◌, ◌++◌, IfOk, map};
ghost use Rattle.rw_wpview.specs.Loops.{loops, turn_constant, with_turn, with_local};
ghost use Rattle.rw_wpview.specs.Arms.{arm_loops, guards};

use rw_items::Items;
use rw_noted::noted::{Noted, NotedArm};
use rw_terms::name::Name;
use rw_terms::scope::{Entry, Kind, Scope};
use rw_terms::term::{Formula, Sort};
use rw_terms::text::Text;
use std::alloc::{AllocError, Global};

/// The number behind the loops of a program, which are numbered from a number on. Past the last number it is want of memory.
#[cycle(number_behind)]
#[tactic(auto, using(crate::proofs::Rows::seq_loops, crate::proofs::Rows::if_loops, crate::proofs::Rows::do_loops, crate::proofs::Rows::block_loops))]
pub fn number_behind(number: u32, noted: &Noted) -> Result<u32, AllocError>
    ensures { IfOk result (λ n. n ≡ number + loops noted.now) }
{
    match noted {
        Noted::Skip | Noted::Assign(_, _) => Ok(number),
        Noted::Seq(first, second) => {
            let middle = number_behind(number, first.get())?;
            number_behind(middle, second.get())
        }
        Noted::If(arms) => number_behind_arms(number, arms.as_slice()),
        Noted::Do(_, _, arms) => number_behind_arms(next(number)?, arms.as_slice()),
        Noted::Block(_, _, body) => number_behind(number, body.get()),
    }
}

/// The same of programs behind guards.
#[cycle(number_behind)]
pub fn number_behind_arms(number: u32, arms: &[NotedArm]) -> Result<u32, AllocError>
    ensures { IfOk result (λ n. n ≡ number + arm_loops arms.now) }
{
    let mut number = number;
    for arm in arms {
        number = number_behind(number, &arm.body)?;
    }
    Ok(number)
}

/// The next number.
pub fn next(number: u32) -> Result<u32, AllocError>
    ensures { IfOk result (λ n. n ≡ number + 1) }
{
    match number.checked_add(1) {
        Some(next) => Ok(next),
        None => Err(AllocError),
    }
}

/// The scope inside the loop of a number.
pub fn with_turn(alloc: Global, scope: &Scope, number: u32) -> Result<Scope, AllocError>
    ensures { IfOk result (λ inner. inner ≡ with_turn scope.now number) }
{
    let name = turn_constant(alloc, number)?;
    entered(
        alloc,
        scope,
        Entry {
            name,
            sort: Sort::Int,
            kind: Kind::Constant,
        },
    )
}

/// The scope inside a block.
pub fn with_local(
    alloc: Global,
    scope: &Scope,
    name: &Name,
    sort: Sort,
) -> Result<Scope, AllocError>
    ensures { IfOk result (λ inner. inner ≡ with_local scope.now name.now sort) }
{
    entered(
        alloc,
        scope,
        Entry {
            name: name.copy(),
            sort,
            kind: Kind::Local,
        },
    )
}

// The scope with one more entry.
fn entered(alloc: Global, scope: &Scope, entry: Entry) -> Result<Scope, AllocError>
    ensures { IfOk result (λ inner. inner ≡ scope.now ++ entry ∷ []) }
{
    let mut entries = Items::new(alloc);
    for known in scope.entries() {
        entries.push(known.copy())?;
    }
    entries.push(entry)?;
    Ok(Scope::of_entries(entries))
}

/// The constant of the loop of a number.
pub fn turn_constant(alloc: Global, number: u32) -> Result<Name, AllocError>
    ensures { IfOk result (λ x. x ≡ turn_constant number) }
{
    let mut text = Text::new(alloc);
    text.push_str("V")?;
    text.push_number(number as u64)?;
    text.push_str("_")?;
    match Name::read(text.bytes()) {
        Ok(name) => Ok(name),
        Err(_) => Err(AllocError),
    }
}

/// The guards of some programs.
pub fn guards(alloc: Global, arms: &[NotedArm]) -> Result<Items<Formula>, AllocError>
    ensures { IfOk result (λ gs. gs ≡ guards arms.now) }
{
    let mut guards = Items::new(alloc);
    for arm in arms {
        guards.push(arm.guard.copy(alloc)?)?;
    }
    Ok(guards)
}
