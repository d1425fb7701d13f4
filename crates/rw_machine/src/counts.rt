//! The counts of loops, and what a step does to them.

ghost use Rattle.std.specs.Prelude.{◌≡◌, ◌+◌, ◌≤◌, ℕ, slice_get, Some, IfOk, replicate};
ghost use Rattle.rw_machine.specs.Counts.{Few, RoomFor, with_turn, one_entry, entry_in, doing_at, doing, counted_here, change_at, count_in};
ghost use Rattle.rw_machine.specs.Kept.{shown, commands_of};
ghost use Rattle.rw_machine.specs.Outcome.{no_count};

use crate::machine::{Command, Machine};
use crate::outcome::LoopCount;
use rw_items::{Items, at};
use rw_programs::prog::Prog;
use std::alloc::{AllocError, Global};

/// What a step does with loops: nothing, or it enters the loop of a number, or it stands before the next turn of one, so many of whose
/// turns were begun since it was entered.
#[derive(Clone, Copy, Debug, PartialEq, Eq)]
pub enum Doing {
    Other,
    Enters(u64),
    Turns(u64, u32),
}

// What the step of a program does, whose first loop has the number.
fn entry_in(n: u64, prog: &Prog) -> Doing
    ensures { result ≡ entry_in n prog.now }
{
    match prog {
        Prog::Do(_, _) => Doing::Enters(n),
        Prog::Spec(_) => Doing::Other,
        Prog::Kid(_) => Doing::Other,
        Prog::Skip => Doing::Other,
        Prog::Assign(_, _) => Doing::Other,
        Prog::Seq(_, _) => Doing::Other,
        Prog::If(_) => Doing::Other,
        Prog::Block(_, _, _) => Doing::Other,
        Prog::Con(_, _) => Doing::Other,
        Prog::Call(_, _, _) => Doing::Other,
        Prog::OpCall(_, _, _, _) => Doing::Other,
        Prog::ModBlock(_, _) => Doing::Other,
    }
}

fn doing_at(command: &Command) -> Doing
    ensures { result ≡ doing_at (shown command.now) }
{
    match command {
        Command::Run(n, part) => entry_in(*n, part.prog()),
        Command::Again(n, turns, _) => Doing::Turns(*n, *turns),
        Command::Begin(_, n, body) => entry_in(*n, body.prog()),
        Command::Leave(_) => Doing::Other,
        Command::Return(_, _) => Doing::Other,
        Command::GiveBack(_, _, _) => Doing::Other,
        Command::Close(_) => Doing::Other,
    }
}

/// What the next step does.
pub fn next_doing(machine: &Machine) -> Doing
    ensures { result ≡ doing (commands_of machine.now) }
{
    let n = machine.commands.len();
    if n == 0 {
        return Doing::Other;
    }
    match at(machine.commands.as_slice(), n - 1) {
        Some(command) => doing_at(command),
        None => Doing::Other,
    }
}

fn with_turn(turns: u32, count: LoopCount) -> LoopCount
    requires { count.turns + 1 ≤ u32.MAX }
    ensures { result ≡ with_turn turns count }
{
    LoopCount {
        entries: count.entries,
        turns: count.turns + 1,
        most: turns.max(count.most),
    }
}

fn one_entry(count: LoopCount) -> LoopCount
    requires { count.entries + 1 ≤ u32.MAX }
    ensures { result ≡ one_entry count }
{
    LoopCount {
        entries: count.entries + 1,
        turns: count.turns,
        most: count.most,
    }
}

// The count of the loop after such a step; `more` says whether a turn was begun.
fn counted_here(doing: Doing, more: bool, count: LoopCount) -> LoopCount
    requires few { Few count }
    requires room { RoomFor doing }
    ensures { result ≡ counted_here doing more count }
{
    match doing {
        Doing::Other => count,
        Doing::Enters(_) => {
            let entered = one_entry(count);
            if more { with_turn(1, entered) } else { entered }
        }
        Doing::Turns(_, turns) => {
            if more {
                with_turn(turns + 1, count)
            } else {
                count
            }
        }
    }
}

/// Counts such a step; `more` says whether a turn was begun.
pub fn count(counts: &mut Items<LoopCount>, doing: Doing, more: bool)
    requires few { (i : ℕ) (l : LoopCount) → slice_get counts.old i ≡ Some l → Few l }
    requires room { RoomFor doing }
    ensures { counts.new ≡ count_in doing more counts.old }
{
    match doing {
        Doing::Other => {}
        Doing::Enters(n) => count_at(counts, n as usize, doing, more),
        Doing::Turns(n, _) => count_at(counts, n as usize, doing, more),
    }
}

fn count_at(counts: &mut Items<LoopCount>, n: usize, doing: Doing, more: bool)
    requires few { (i : ℕ) (l : LoopCount) → slice_get counts.old i ≡ Some l → Few l }
    requires room { RoomFor doing }
    ensures { counts.new ≡ change_at n (counted_here doing more) counts.old }
{
    match counts.get(n) {
        None => {}
        Some(old) => {
            let new = counted_here(doing, more, *old);
            counts.set(n, new);
        }
    }
}

/// So many counts of loops that were not entered.
pub fn no_counts(alloc: Global, n: u64) -> Result<Items<LoopCount>, AllocError>
    ensures { IfOk result (λ counts. counts ≡ replicate n no_count) }
{
    let mut counts = Items::new(alloc);
    for _ in 0..n {
        counts.push(LoopCount {
            entries: 0,
            turns: 0,
            most: 0,
        })?;
    }
    Ok(counts)
}
