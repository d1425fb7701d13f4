//! The step of a program.

ghost use Rattle.std.specs.Prelude.{◌≡◌, ◌∷◌, ◌+◌, ◌≤◌, IfOk, []};
ghost use Rattle.rw_numbering.specs.Loops.{loops, all_loops};
ghost use Rattle.rw_machine.specs.Machine.{step_run, step_again, step_on, step_by};
ghost use Rattle.rw_machine.specs.Kept.{commands_of, stack_of, kept_step, bare_step, counted, shown, CommandFits, FirstFits};
ghost use Rattle.rw_frames.specs.Frames.{state_of};

use crate::calls::{close, enter_block, give_back, go_back, run_call, run_module, run_operation};
use crate::machine::{
    Command, Machine, leave, put_frame, run_assignment, run_block, run_choice, run_loop,
    run_sequence,
};
use rw_evaluation::stop::{AbortCause, Stop};
use rw_frames::frame::Frame;
use rw_numbering::numbered::Numbered;
use rw_numbering::part::Part;
use rw_programs::prog::Prog;
use std::alloc::{AllocError, Global};

/// The step of a program whose first loop has the number `n`, in the state that stood on top.
pub fn run_step<'a>(
    alloc: Global,
    code: &Numbered<'a>,
    machine: &mut Machine<'a>,
    frame: Frame,
    n: u64,
    part: Part<'a>,
) -> Result<Result<(), Stop>, AllocError>
    requires room { n + loops part ≤ u64.MAX }
    requires few { all_loops code.now ≤ u64.MAX }
    ensures { IfOk result (λ r. kept_step r machine.new ≡ bare_step (step_run code.now n part.entry (commands_of machine.old) (state_of frame) (stack_of machine.old) [])) }
{
    match part.prog() {
        Prog::Spec(_) => Ok(Err(Stop::Aborted(AbortCause::NoGuard))),
        Prog::Kid(_) => Ok(Err(Stop::Aborted(AbortCause::NoGuard))),
        Prog::Con(_, _) => Ok(Err(Stop::Aborted(AbortCause::NoGuard))),
        Prog::Skip => {
            put_frame(machine, frame)?;
            Ok(Ok(()))
        }
        Prog::Assign(names, terms) => run_assignment(alloc, machine, frame, names, terms),
        Prog::Seq(first, second) => {
            let left = part.part(0, first.get());
            let right = part.part(1, second.get());
            run_sequence(machine, frame, n, left, right)?;
            Ok(Ok(()))
        }
        Prog::If(arms) => run_choice(alloc, machine, frame, n, arms.as_slice(), part.tallies()),
        Prog::Do(_, arms) => {
            let tallies = part.tallies();
            run_loop(alloc, machine, frame, n, 0, part, arms.as_slice(), tallies)
        }
        Prog::Block(local, sort, body) => {
            let inner = part.part(0, body.get());
            run_block(alloc, machine, frame, n, local, *sort, inner)?;
            Ok(Ok(()))
        }
        Prog::Call(name, args, names) => run_call(alloc, code, machine, frame, name, args, names),
        Prog::OpCall(owner, name, args, names) => {
            run_operation(alloc, code, machine, frame, owner, name, args, names)
        }
        Prog::ModBlock(name, body) => {
            let within = part.part(0, body.get());
            run_module(alloc, code, machine, frame, n, name, within)
        }
    }
}

// The next turn of a loop that was entered, or its end.
fn run_again<'a>(
    alloc: Global,
    code: &Numbered<'a>,
    machine: &mut Machine<'a>,
    frame: Frame,
    n: u64,
    turns: u32,
    part: Part<'a>,
) -> Result<Result<(), Stop>, AllocError>
    requires room { n + loops part ≤ u64.MAX }
    requires few { turns + 1 ≤ u32.MAX }
    ensures { IfOk result (λ r. kept_step r machine.new ≡ bare_step (step_again code.now (counted n turns) part.entry (commands_of machine.old) (state_of frame) (stack_of machine.old) [])) }
{
    match part.prog() {
        Prog::Do(_, arms) => {
            let tallies = part.tallies();
            run_loop(
                alloc,
                machine,
                frame,
                n,
                turns,
                part,
                arms.as_slice(),
                tallies,
            )
        }
        Prog::Spec(_) => Ok(Err(Stop::Aborted(AbortCause::NoGuard))),
        Prog::Kid(_) => Ok(Err(Stop::Aborted(AbortCause::NoGuard))),
        Prog::Skip => Ok(Err(Stop::Aborted(AbortCause::NoGuard))),
        Prog::Assign(_, _) => Ok(Err(Stop::Aborted(AbortCause::NoGuard))),
        Prog::Seq(_, _) => Ok(Err(Stop::Aborted(AbortCause::NoGuard))),
        Prog::If(_) => Ok(Err(Stop::Aborted(AbortCause::NoGuard))),
        Prog::Block(_, _, _) => Ok(Err(Stop::Aborted(AbortCause::NoGuard))),
        Prog::Con(_, _) => Ok(Err(Stop::Aborted(AbortCause::NoGuard))),
        Prog::Call(_, _, _) => Ok(Err(Stop::Aborted(AbortCause::NoGuard))),
        Prog::OpCall(_, _, _, _) => Ok(Err(Stop::Aborted(AbortCause::NoGuard))),
        Prog::ModBlock(_, _) => Ok(Err(Stop::Aborted(AbortCause::NoGuard))),
    }
}

// The step of a command in the state that stood on top.
fn step_with<'a>(
    alloc: Global,
    code: &Numbered<'a>,
    machine: &mut Machine<'a>,
    frame: Frame,
    command: Command<'a>,
) -> Result<Result<(), Stop>, AllocError>
    requires room { CommandFits code.now (shown command) }
    requires few { all_loops code.now ≤ u64.MAX }
    ensures { IfOk result (λ r. kept_step r machine.new ≡ bare_step (step_on code.now (shown command.entry) (commands_of machine.old) (state_of frame ∷ stack_of machine.old) [])) }
{
    match command {
        Command::Run(n, part) => run_step(alloc, code, machine, frame, n, part),
        Command::Again(n, turns, part) => run_again(alloc, code, machine, frame, n, turns, part),
        Command::Leave(local) => {
            leave(machine, frame, local)?;
            Ok(Ok(()))
        }
        Command::Return(name, names) => go_back(alloc, code, machine, frame, name, names),
        Command::GiveBack(owner, name, names) => {
            give_back(alloc, code, machine, frame, owner, name, names)
        }
        Command::Begin(name, n, body) => match enter_block(alloc, code, machine, frame, name)? {
            Err(stop) => Ok(Err(stop)),
            Ok(state) => run_step(alloc, code, machine, state, n, body),
        },
        Command::Close(name) => close(alloc, code, machine, frame, name),
    }
}

/// The step of the first command; where there is none, nothing changes.
pub fn step<'a>(
    alloc: Global,
    code: &Numbered<'a>,
    machine: &mut Machine<'a>,
) -> Result<Result<(), Stop>, AllocError>
    requires room { FirstFits code.now (commands_of machine.old) }
    requires few { all_loops code.now ≤ u64.MAX }
    ensures { IfOk result (λ r. kept_step r machine.new ≡ bare_step (step_by code.now (commands_of machine.old) (stack_of machine.old) [])) }
{
    let command = match machine.commands.pop() {
        None => return Ok(Ok(())),
        Some(command) => command,
    };
    let frame = match machine.stack.pop() {
        None => return Ok(Err(Stop::Aborted(AbortCause::NoGuard))),
        Some(frame) => frame,
    };
    step_with(alloc, code, machine, frame, command)
}
