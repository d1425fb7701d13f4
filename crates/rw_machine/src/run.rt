//! The run of collected code.

ghost use Rattle.std.specs.Prelude.{◌≡◌, ◌∷◌, ◌≤◌, ℕ, [], length, nat_lt, slice_get, reverse, Some, IfOk, OnOk};
ghost use Rattle.rw_terms.specs.State.{value_in};
ghost use Rattle.rw_evaluation.specs.Stored.{meant, all_meant, map_of};
ghost use Rattle.rw_machine.specs.CodeFits.{CodeFits, StartFits};
ghost use Rattle.rw_machine.specs.Counts.{Few, doing, count_in};
ghost use Rattle.rw_machine.specs.Kept.{commands_of, stack_of, kept_step, bare_step, FirstFits, values_in, ToldEnd, told_halt};
ghost use Rattle.rw_machine.specs.Machine.{Run, step_by};
ghost use Rattle.rw_numbering.specs.Loops.{all_loops};
ghost use Rattle.rw_machine.specs.Outcome.{outcome, start_of, Tells};

use crate::counts::{count, next_doing, no_counts};
use crate::machine::{Command, Machine, put_first, put_frame};
use crate::outcome::{LoopCount, RunEnd, State};
use crate::running::step;
use rw_evaluation::stop::Stop;
use rw_evaluation::store::{Binding, value_of};
use rw_evaluation::value::Value;
use rw_frames::calling::set_params;
use rw_frames::frame::Frame;
use rw_items::Items;
use rw_numbering::numbered::Numbered;
use rw_numbering::tables::number;
use rw_programs::prog::{Code, Param};
use rw_terms::name::Name;
use std::alloc::{AllocError, Global};

// The values again, the first one last.
fn copy_back(alloc: Global, values: &[Value]) -> Result<Items<Value>, AllocError>
    ensures { IfOk result (λ copies. reverse copies ≡ values.now) }
{
    let mut copies = Items::new(alloc);
    for back in 0..values.len() {
        let at = values.len() - 1 - back;
        let value = &values[at];
        copies.push(value.copy(alloc)?)?;
    }
    Ok(copies)
}

// The machine before the first step of main.
fn begin_run<'a>(
    alloc: Global,
    code: &Numbered<'a>,
    globals: &[Param],
    start: &State,
) -> Result<Machine<'a>, AllocError>
    ensures commands { IfOk result (λ m. commands_of m ≡ Run 0 code.now.main ∷ []) }
    ensures stack { IfOk result (λ m. stack_of m ≡ start_of globals.now start.now.values ∷ []) }
{
    let values = copy_back(alloc, start.values.as_slice())?;
    let mut own = Items::new(alloc);
    set_params(&mut own, globals, 0, values)?;
    let mut machine = Machine {
        commands: Items::new(alloc),
        stack: Items::new(alloc),
    };
    put_first(&mut machine, Command::Run(0, code.main()))?;
    put_frame(
        &mut machine,
        Frame {
            own,
            parts: Items::new(alloc),
        },
    )?;
    Ok(machine)
}

// The step of the first command, with the counts of the loops.
fn counted_step<'a>(
    alloc: Global,
    code: &Numbered<'a>,
    machine: &mut Machine<'a>,
    counts: &mut Items<LoopCount>,
) -> Result<Result<(), Stop>, AllocError>
    requires room { FirstFits code.now (commands_of machine.old) }
    requires few { all_loops code.now ≤ u64.MAX }
    requires countable { (i : ℕ) (l : LoopCount) → slice_get counts.old i ≡ Some l → Few l }
    ensures step { IfOk result (λ r. kept_step r machine.new ≡ bare_step (step_by code.now (commands_of machine.old) (stack_of machine.old) [])) }
    ensures counts { IfOk result (λ r. OnOk r (counts.new ≡ count_in (doing (commands_of machine.old)) (nat_lt (length (commands_of machine.old)) (length (commands_of machine.new))) counts.old)) }
{
    let doing = next_doing(machine);
    let before = machine.commands.len();
    match step(alloc, code, machine)? {
        Err(stop) => Ok(Err(stop)),
        Ok(()) => {
            let more = before < machine.commands.len();
            count(counts, doing, more);
            Ok(Ok(()))
        }
    }
}

// The value of a name, and 0 where it has none.
fn value_or_zero(alloc: Global, store: &[Binding], name: &Name) -> Result<Value, AllocError>
    ensures { IfOk result (λ v. meant v ≡ value_in (map_of store.now) name.now) }
{
    match value_of(store, name) {
        Some(value) => value.copy(alloc),
        None => Ok(Value::Int(0)),
    }
}

fn read_values(
    alloc: Global,
    globals: &[Param],
    store: &[Binding],
) -> Result<Items<Value>, AllocError>
    ensures { IfOk result (λ vs. all_meant vs ≡ values_in (map_of store.now) globals.now) }
{
    let mut values = Items::new(alloc);
    for global in globals {
        values.push(value_or_zero(alloc, store, &global.name)?)?;
    }
    Ok(values)
}

// The end of a run that has no command left.
fn ended(
    alloc: Global,
    globals: &[Param],
    machine: &mut Machine,
    steps: u32,
    loops: Items<LoopCount>,
) -> Result<RunEnd, AllocError>
    ensures { IfOk result (λ r. ToldEnd globals.now (stack_of machine.old) steps loops r) }
{
    let own = match machine.stack.pop() {
        Some(frame) => frame.own,
        None => Items::new(alloc),
    };
    let values = read_values(alloc, globals, own.as_slice())?;
    Ok(RunEnd::Ended {
        state: State { values },
        steps,
        loops,
    })
}

// The end of a run whose next step is not made.
fn halted(stop: Stop, steps: u32) -> RunEnd
    ensures { result ≡ told_halt stop steps }
{
    match stop {
        Stop::TooWide => RunEnd::TooWide(steps),
        Stop::Aborted(cause) => RunEnd::Aborted(cause, steps),
    }
}

// The run of code whose loops are counted.
fn run_numbered(
    alloc: Global,
    code: &Numbered,
    globals: &[Param],
    start: &State,
    limit: u32,
) -> Result<RunEnd, AllocError>
    requires code { CodeFits code.now globals.now }
    requires start { StartFits globals.now start.now.values }
    requires most { limit ≤ 100000000 }
    ensures { IfOk result (λ r. Tells code.now globals.now limit (outcome code.now (start_of globals.now start.now.values) limit) r) }
{
    let mut counts = no_counts(alloc, code.loops())?;
    let mut machine = begin_run(alloc, code, globals, start)?;
    for done in 0..limit {
        if machine.commands.is_empty() {
            return ended(alloc, globals, &mut machine, done, counts);
        }
        match counted_step(alloc, code, &mut machine, &mut counts)? {
            Err(stop) => return Ok(halted(stop, done)),
            Ok(()) => {}
        }
    }
    if machine.commands.is_empty() {
        return ended(alloc, globals, &mut machine, limit, counts);
    }
    Ok(RunEnd::StepLimit(limit))
}

/// Runs collected code from a state, as many steps as the limit allows. It tells the outcome of the machine: the values of the globals
/// at the end with the counts of the loops, or why and after how many steps the run stopped, or that the limit was met.
pub fn run(
    alloc: Global,
    code: &Code,
    globals: &[Param],
    start: &State,
    limit: u32,
) -> Result<RunEnd, AllocError>
    requires code { CodeFits code.now globals.now }
    requires start { StartFits globals.now start.now.values }
    requires limit { 1 ≤ limit }
    requires most { limit ≤ 100000000 }
    ensures { IfOk result (λ r. Tells code.now globals.now limit (outcome code.now (start_of globals.now start.now.values) limit) r) }
{
    let tallies = number(alloc, code)?;
    let numbered = Numbered::new(code, &tallies);
    run_numbered(alloc, &numbered, globals, start, limit)
}
