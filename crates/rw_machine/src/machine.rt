//! The machine: its commands, of which the first stands last, and its states, of which that of the running body stands last.

ghost use Rattle.std.specs.Prelude.{◌≡◌, ◌∷◌, ◌+◌, ◌≤◌, OnOk, IfOk, Some, None, Ok};
ghost use Rattle.rw_programs.specs.State.{put, put_all, with_own};
ghost use Rattle.rw_evaluation.specs.Evaluation.{all_seen, one};
ghost use Rattle.rw_evaluation.specs.Stored.{map_of};
ghost use Rattle.rw_numbering.specs.Loops.{arms_loops, loops};
ghost use Rattle.rw_numbering.specs.Tallies.{arm_tallies};
ghost use Rattle.rw_machine.specs.Machine.{Run, Leave};
ghost use Rattle.rw_frames.specs.Bodies.{zero_of};
ghost use Rattle.rw_machine.specs.Kept.{shown, commands_of, stack_of, kept_of, kept_step, pick_of, choice_of, loop_of};
ghost use Rattle.rw_frames.specs.Frames.{state_of};

use crate::picking::pick;
use rw_evaluation::stop::{AbortCause, Stop};
use rw_frames::frame::{Frame, zero_of};
use rw_items::Items;
use rw_numbering::part::Part;
use rw_numbering::tally::Tally;
use rw_programs::prog::Arm;
use rw_terms::name::Name;
use rw_terms::term::{Sort, Term};
use std::alloc::{AllocError, Global};

/// A command, as the definition of the machine has it. A loop that was entered has its number and the turns begun.
#[derive(Drop)]
pub enum Command<'a> {
    Run(u64, Part<'a>),
    Again(u64, u32, Part<'a>),
    Leave(&'a Name),
    Return(&'a Name, &'a [Name]),
    GiveBack(&'a Name, &'a Name, &'a [Name]),
    Begin(&'a Name, u64, Part<'a>),
    Close(&'a Name),
}

/// The machine.
#[derive(Drop)]
pub struct Machine<'a> {
    pub commands: Items<Command<'a>>,
    pub stack: Items<Frame>,
}

/// Puts a command in front.
pub fn put_first<'a>(machine: &mut Machine<'a>, command: Command<'a>) -> Result<(), AllocError>
    ensures commands { OnOk result (commands_of machine.new ≡ shown command.entry ∷ commands_of machine.old) }
    ensures stack { machine.new.stack ≡ machine.old.stack }
{
    machine.commands.push(command)
}

/// Puts a state on top.
pub fn put_frame<'a>(machine: &mut Machine<'a>, frame: Frame) -> Result<(), AllocError>
    ensures stack { OnOk result (stack_of machine.new ≡ state_of frame ∷ stack_of machine.old) }
    ensures commands { machine.new.commands ≡ machine.old.commands }
{
    machine.stack.push(frame)
}

/// One program after another.
pub fn run_sequence<'a>(
    machine: &mut Machine<'a>,
    frame: Frame,
    n: u64,
    first: Part<'a>,
    second: Part<'a>,
) -> Result<(), AllocError>
    requires { n + loops first ≤ u64.MAX }
    ensures { OnOk result (kept_of machine.new ≡ (Run n first.entry ∷ Run (n + loops first.entry) second.entry ∷ commands_of machine.old, state_of frame ∷ stack_of machine.old)) }
{
    put_first(machine, Command::Run(n + first.loops(), second))?;
    put_first(machine, Command::Run(n, first))?;
    put_frame(machine, frame)
}

/// A block, which adds its local as 0.
pub fn run_block<'a>(
    alloc: Global,
    machine: &mut Machine<'a>,
    frame: Frame,
    n: u64,
    local: &'a Name,
    sort: Sort,
    body: Part<'a>,
) -> Result<(), AllocError>
    ensures { OnOk result (kept_of machine.new ≡ (Run n body.entry ∷ Leave local.now ∷ commands_of machine.old, with_own (state_of frame) (put local.now (Some (zero_of sort)) (map_of frame.own)) ∷ stack_of machine.old)) }
{
    let mut state = frame;
    let zero = zero_of(alloc, sort)?;
    state.set_own(local, Some(zero))?;
    put_first(machine, Command::Leave(local))?;
    put_first(machine, Command::Run(n, body))?;
    put_frame(machine, state)
}

/// An assignment.
pub fn run_assignment<'a>(
    alloc: Global,
    machine: &mut Machine<'a>,
    frame: Frame,
    names: &Items<Name>,
    terms: &Items<Term>,
) -> Result<Result<(), Stop>, AllocError>
    ensures { IfOk result (λ r. kept_step r machine.new ≡ one (all_seen (map_of frame.own) terms.now) (λ vs. Ok (commands_of machine.old, with_own (state_of frame) (put_all names.now vs (map_of frame.own)) ∷ stack_of machine.old))) }
{
    let mut state = frame;
    match state.assign(alloc, names.as_slice(), terms.as_slice())? {
        Err(stop) => Ok(Err(stop)),
        Ok(()) => {
            put_frame(machine, state)?;
            Ok(Ok(()))
        }
    }
}

/// An alternation: the body behind the first true guard goes in front.
pub fn run_choice<'a>(
    alloc: Global,
    machine: &mut Machine<'a>,
    frame: Frame,
    n: u64,
    arms: &'a [Arm],
    tallies: &'a [Tally],
) -> Result<Result<(), Stop>, AllocError>
    requires tallied { tallies.now ≡ arm_tallies arms.now }
    requires room { n + arms_loops arms.now ≤ u64.MAX }
    ensures { IfOk result (λ r. kept_step r machine.new ≡ choice_of (pick_of n arms.now (map_of frame.own)) (commands_of machine.old) (state_of frame ∷ stack_of machine.old)) }
{
    match pick(alloc, frame.own.as_slice(), n, arms, tallies)? {
        Err(stop) => Ok(Err(stop)),
        Ok(None) => Ok(Err(Stop::Aborted(AbortCause::NoGuard))),
        Ok(Some((number, body))) => {
            put_first(machine, Command::Run(number, body))?;
            put_frame(machine, frame)?;
            Ok(Ok(()))
        }
    }
}

/// A turn of a loop, which is then behind the body, or its end; `repeated` is the whole program, and so many turns were begun.
pub fn run_loop<'a>(
    alloc: Global,
    machine: &mut Machine<'a>,
    frame: Frame,
    n: u64,
    turns: u32,
    repeated: Part<'a>,
    arms: &'a [Arm],
    tallies: &'a [Tally],
) -> Result<Result<(), Stop>, AllocError>
    requires tallied { tallies.now ≡ arm_tallies arms.now }
    requires room { n + 1 + arms_loops arms.now ≤ u64.MAX }
    requires few { turns + 1 ≤ u32.MAX }
    ensures { IfOk result (λ r. kept_step r machine.new ≡ loop_of (pick_of (n + 1) arms.now (map_of frame.own)) n turns repeated.entry (commands_of machine.old) (state_of frame ∷ stack_of machine.old)) }
{
    match pick(alloc, frame.own.as_slice(), n + 1, arms, tallies)? {
        Err(stop) => Ok(Err(stop)),
        Ok(None) => {
            put_frame(machine, frame)?;
            Ok(Ok(()))
        }
        Ok(Some((number, body))) => {
            put_first(machine, Command::Again(n, turns + 1, repeated))?;
            put_first(machine, Command::Run(number, body))?;
            put_frame(machine, frame)?;
            Ok(Ok(()))
        }
    }
}

/// The end of the block of a local.
pub fn leave<'a>(machine: &mut Machine<'a>, frame: Frame, local: &Name) -> Result<(), AllocError>
    ensures { OnOk result (kept_of machine.new ≡ (commands_of machine.old, with_own (state_of frame) (put local.now None (map_of frame.own)) ∷ stack_of machine.old)) }
{
    let mut state = frame;
    state.set_own(local, None)?;
    put_frame(machine, state)
}
