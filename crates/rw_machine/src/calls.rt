//! Steps that enter and leave bodies.

ghost use Rattle.std.specs.Prelude.{◌≡◌, ◌∷◌, true, IfOk, Ok, Some};
ghost use Rattle.rw_programs.specs.State.{empty};
ghost use Rattle.rw_programs.specs.Tables.{find_proc, find_module, returned, held, hold};
ghost use Rattle.rw_evaluation.specs.Evaluation.{all_seen, one};
ghost use Rattle.rw_machine.specs.Machine.{Run, Return, Give_back, Begin, Close};
ghost use Rattle.rw_frames.specs.Bodies.{begun, started};
ghost use Rattle.rw_numbering.specs.Loops.{first_in_proc, first_in_start, first_in_operation};
ghost use Rattle.rw_evaluation.specs.Stored.{map_of};
ghost use Rattle.rw_machine.specs.Kept.{commands_of, stack_of, kept_step, kept_some, kept_below, opened_of, opened_below, opened_some};
ghost use Rattle.rw_frames.specs.Frames.{state_of};

use crate::machine::{Command, Machine, put_first, put_frame};
use rw_evaluation::evaluation::see_all;
use rw_evaluation::stop::{AbortCause, Stop};
use rw_frames::calling::{begin, finish};
use rw_frames::frame::{Frame, set_zeros};
use rw_frames::modules::{find_module, find_proc, held, hold};
use rw_items::Items;
use rw_numbering::numbered::Numbered;
use rw_numbering::part::Part;
use rw_terms::name::Name;
use rw_terms::term::Term;
use std::alloc::{AllocError, Global};

/// A call of a procedure.
pub fn run_call<'a>(
    alloc: Global,
    code: &Numbered<'a>,
    machine: &mut Machine<'a>,
    frame: Frame,
    name: &'a Name,
    args: &Items<Term>,
    names: &'a Items<Name>,
) -> Result<Result<(), Stop>, AllocError>
    ensures { IfOk result (λ r. kept_step r machine.new ≡ one (all_seen (map_of frame.own) args.now) (λ vs. kept_some (find_proc name.now code.now.procs) (λ e. Ok (Run (first_in_proc code.now name.now) e.body ∷ Return name.now names.now ∷ commands_of machine.old, begun empty e vs ∷ state_of frame ∷ stack_of machine.old)))) }
{
    let values = match see_all(alloc, frame.own.as_slice(), args.as_slice())? {
        Err(stop) => return Ok(Err(stop)),
        Ok(values) => values,
    };
    let callee = match code.procedure(name) {
        None => return Ok(Err(Stop::Aborted(AbortCause::NoGuard))),
        Some(callee) => callee,
    };
    let begun = begin(alloc, callee.entry, Items::new(alloc), values)?;
    put_first(machine, Command::Return(name, names.as_slice()))?;
    put_first(machine, Command::Run(callee.first, callee.body))?;
    put_frame(machine, frame)?;
    put_frame(machine, begun)?;
    Ok(Ok(()))
}

/// A call of an operation.
pub fn run_operation<'a>(
    alloc: Global,
    code: &Numbered<'a>,
    machine: &mut Machine<'a>,
    frame: Frame,
    owner: &'a Name,
    name: &'a Name,
    args: &Items<Term>,
    names: &'a Items<Name>,
) -> Result<Result<(), Stop>, AllocError>
    ensures { IfOk result (λ r. kept_step r machine.new ≡ one (all_seen (map_of frame.own) args.now) (λ vs. kept_some (find_module owner.now code.now.modules) (λ d. kept_some (find_proc name.now d.operations) (λ e. Ok (Run (first_in_operation code.now owner.now d name.now) e.body ∷ Give_back owner.now name.now names.now ∷ commands_of machine.old, begun (held true d (state_of frame)) e vs ∷ state_of frame ∷ stack_of machine.old))))) }
{
    let values = match see_all(alloc, frame.own.as_slice(), args.as_slice())? {
        Err(stop) => return Ok(Err(stop)),
        Ok(values) => values,
    };
    let opened = match code.module(owner) {
        None => return Ok(Err(Stop::Aborted(AbortCause::NoGuard))),
        Some(opened) => opened,
    };
    let callee = match opened.operation(name) {
        None => return Ok(Err(Stop::Aborted(AbortCause::NoGuard))),
        Some(callee) => callee,
    };
    let own = held(alloc, &frame, opened.entry)?;
    let begun = begin(alloc, callee.entry, own, values)?;
    put_first(machine, Command::GiveBack(owner, name, names.as_slice()))?;
    put_first(machine, Command::Run(callee.first, callee.body))?;
    put_frame(machine, frame)?;
    put_frame(machine, begun)?;
    Ok(Ok(()))
}

/// The block of a module, whose start runs on a state of its own.
pub fn run_module<'a>(
    alloc: Global,
    code: &Numbered<'a>,
    machine: &mut Machine<'a>,
    frame: Frame,
    n: u64,
    name: &'a Name,
    body: Part<'a>,
) -> Result<Result<(), Stop>, AllocError>
    ensures { IfOk result (λ r. kept_step r machine.new ≡ kept_some (find_module name.now code.now.modules) (λ d. Ok (Run (first_in_start code.now name.now) d.start ∷ Begin name.now n body.entry ∷ Close name.now ∷ commands_of machine.old, started d ∷ state_of frame ∷ stack_of machine.old))) }
{
    let opened = match code.module(name) {
        None => return Ok(Err(Stop::Aborted(AbortCause::NoGuard))),
        Some(opened) => opened,
    };
    let mut own = Items::new(alloc);
    set_zeros(alloc, &mut own, opened.entry.state.as_slice())?;
    let started = Frame {
        own,
        parts: Items::new(alloc),
    };
    put_first(machine, Command::Close(name))?;
    put_first(machine, Command::Begin(name, n, body))?;
    put_first(machine, Command::Run(opened.first, opened.start))?;
    put_frame(machine, frame)?;
    put_frame(machine, started)?;
    Ok(Ok(()))
}

/// The return from a procedure that ended in a state.
pub fn go_back<'a>(
    alloc: Global,
    code: &Numbered<'a>,
    machine: &mut Machine<'a>,
    ended: Frame,
    name: &Name,
    names: &[Name],
) -> Result<Result<(), Stop>, AllocError>
    ensures { IfOk result (λ r. kept_step r machine.new ≡ kept_below (stack_of machine.old) (λ s ss. kept_some (find_proc name.now code.now.procs) (λ e. Ok (commands_of machine.old, returned e names.now (state_of ended) s ∷ ss)))) }
{
    let mut below = match machine.stack.pop() {
        None => return Ok(Err(Stop::Aborted(AbortCause::NoGuard))),
        Some(below) => below,
    };
    let callee = match find_proc(code.code().procs.as_slice(), name) {
        None => return Ok(Err(Stop::Aborted(AbortCause::NoGuard))),
        Some(callee) => callee,
    };
    finish(alloc, callee, names, &ended, &mut below)?;
    put_frame(machine, below)?;
    Ok(Ok(()))
}

/// The end of the block of a module.
pub fn close<'a>(
    alloc: Global,
    code: &Numbered<'a>,
    machine: &mut Machine<'a>,
    frame: Frame,
    name: &Name,
) -> Result<Result<(), Stop>, AllocError>
    ensures { IfOk result (λ r. kept_step r machine.new ≡ kept_some (find_module name.now code.now.modules) (λ d. Ok (commands_of machine.old, hold true d empty (state_of frame) ∷ stack_of machine.old))) }
{
    let opened = match find_module(code.code().modules.as_slice(), name) {
        None => return Ok(Err(Stop::Aborted(AbortCause::NoGuard))),
        Some(opened) => opened,
    };
    let mut state = frame;
    hold(alloc, &mut state, opened, &[])?;
    put_frame(machine, state)?;
    Ok(Ok(()))
}

/// The return from an operation that ended in a state: the state of the module is written back, too.
pub fn give_back<'a>(
    alloc: Global,
    code: &Numbered<'a>,
    machine: &mut Machine<'a>,
    ended: Frame,
    owner: &Name,
    name: &Name,
    names: &[Name],
) -> Result<Result<(), Stop>, AllocError>
    ensures { IfOk result (λ r. kept_step r machine.new ≡ kept_below (stack_of machine.old) (λ s ss. kept_some (find_module owner.now code.now.modules) (λ d. kept_some (find_proc name.now d.operations) (λ e. Ok (commands_of machine.old, hold true d (map_of ended.own) (returned e names.now (state_of ended) s) ∷ ss))))) }
{
    let mut below = match machine.stack.pop() {
        None => return Ok(Err(Stop::Aborted(AbortCause::NoGuard))),
        Some(below) => below,
    };
    let opened = match find_module(code.code().modules.as_slice(), owner) {
        None => return Ok(Err(Stop::Aborted(AbortCause::NoGuard))),
        Some(opened) => opened,
    };
    let callee = match find_proc(opened.operations.as_slice(), name) {
        None => return Ok(Err(Stop::Aborted(AbortCause::NoGuard))),
        Some(callee) => callee,
    };
    finish(alloc, callee, names, &ended, &mut below)?;
    hold(alloc, &mut below, opened, ended.own.as_slice())?;
    put_frame(machine, below)?;
    Ok(Ok(()))
}

/// The state in which the body of a module's block begins: that below the start's, with what the start ended in as the module's part.
pub fn enter_block<'a>(
    alloc: Global,
    code: &Numbered<'a>,
    machine: &mut Machine<'a>,
    ended: Frame,
    name: &Name,
) -> Result<Result<Frame, Stop>, AllocError>
    ensures state { IfOk result (λ r. opened_of r machine.new ≡ opened_below (stack_of machine.old) (λ s ss. opened_some (find_module name.now code.now.modules) (λ d. Ok (hold true d (map_of ended.own) s, ss)))) }
    ensures commands { machine.new.commands ≡ machine.old.commands }
{
    let mut below = match machine.stack.pop() {
        None => return Ok(Err(Stop::Aborted(AbortCause::NoGuard))),
        Some(below) => below,
    };
    let opened = match find_module(code.code().modules.as_slice(), name) {
        None => return Ok(Err(Stop::Aborted(AbortCause::NoGuard))),
        Some(opened) => opened,
    };
    hold(alloc, &mut below, opened, ended.own.as_slice())?;
    Ok(Ok(below))
}
