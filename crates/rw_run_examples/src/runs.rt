//! Runs of small programs, worked out by hand.

ghost use Rattle.std.specs.Prelude.{◌≤◌};

use rw_evaluation::stop::AbortCause;
use rw_evaluation::value::Value;
use rw_fits::fitting::fits;
use rw_fits::starts::starts;
use rw_items::{Boxed, Items};
use rw_machine::outcome::{LoopCount, RunEnd, State};
use rw_machine::run::run;
use rw_program_reader::read_program;
use rw_programs::prog::{Code, Param, ProcCode, Prog};
use rw_terms::name::Name;
use rw_terms::term::Sort;
use std::alloc::Global;
use std::process::Abort;
use std::test::Fail;

fn ints(alloc: Global, texts: &[&str]) -> Result<Items<Param>, Fail> {
    let mut params = Items::new(alloc);
    for text in texts {
        params.push(Param {
            name: Name::read(text.as_bytes())?,
            sort: Sort::Int,
        })?;
    }
    Ok(params)
}

// The program that a text spells.
fn program(rt: &impl Abort, alloc: Global, text: &str) -> Result<Boxed<Prog>, Fail> {
    let text = text.as_bytes();
    assert!(rt; text.len() <= 65536);
    Ok(Boxed::new(alloc, read_program(alloc, text)?)?)
}

// Code without procedures and modules.
fn code(rt: &impl Abort, alloc: Global, text: &str) -> Result<Code, Fail> {
    let main = program(rt, alloc, text)?;
    Ok(Code {
        main: main.into_inner(),
        procs: Items::new(alloc),
        modules: Items::new(alloc),
    })
}

fn state(alloc: Global, numbers: &[i128]) -> Result<State, Fail> {
    let mut values = Items::new(alloc);
    for n in numbers {
        values.push(Value::Int(*n))?;
    }
    Ok(State { values })
}

// The code and the start are found to fit, and then run.
fn run_from(
    rt: &impl Abort,
    alloc: Global,
    code: &Code,
    globals: &[Param],
    start: &State,
    limit: u32,
) -> Result<RunEnd, Fail>
    requires some { 1 ≤ limit }
    requires most { limit ≤ 100000000 }
{
    let fitting = fits(alloc, code, globals)?;
    assert!(rt; fitting);
    assert!(rt; starts(globals, start));
    Ok(run(alloc, code, globals, start, limit)?)
}

fn are_ints(values: &[Value], numbers: &[i128]) -> bool {
    if values.len() != numbers.len() {
        return false;
    }
    for i in 0..values.len() {
        match &values[i] {
            Value::Int(n) => {
                if *n != numbers[i] {
                    return false;
                }
            }
            Value::List(_) => return false,
        }
    }
    true
}

fn is_ended(end: &RunEnd, steps: u32, numbers: &[i128]) -> bool {
    match end {
        RunEnd::Ended {
            state,
            steps: told,
            loops: _,
        } => *told == steps && are_ints(state.values.as_slice(), numbers),
        _ => false,
    }
}

fn counts(end: &RunEnd) -> &[LoopCount] {
    match end {
        RunEnd::Ended {
            state: _,
            steps: _,
            loops,
        } => loops.as_slice(),
        _ => &[],
    }
}

fn is_aborted(end: &RunEnd, cause: AbortCause, steps: u32) -> bool {
    match end {
        RunEnd::Aborted(told, done) => *told == cause && *done == steps,
        _ => false,
    }
}

fn count(entries: u32, turns: u32, most: u32) -> LoopCount {
    LoopCount {
        entries,
        turns,
        most,
    }
}

// The run of a program over integers alone.
fn ran(
    rt: &impl Abort,
    alloc: Global,
    text: &str,
    globals: &[&str],
    start: &[i128],
    limit: u32,
) -> Result<RunEnd, Fail>
    requires some { 1 ≤ limit }
    requires most { limit ≤ 100000000 }
{
    let code = code(rt, alloc, text)?;
    let globals = ints(alloc, globals)?;
    let start = state(alloc, start)?;
    run_from(rt, alloc, &code, globals.as_slice(), &start, limit)
}

const DIVISION: &str = "q, r := 0, n ; do {r} d <= r -> q, r := q + 1, r - d od";

fn divided(rt: &impl Abort, alloc: Global, limit: u32) -> Result<RunEnd, Fail>
    requires some { 1 ≤ limit }
    requires most { limit ≤ 100000000 }
{
    ran(
        rt,
        alloc,
        DIVISION,
        &["n", "d", "q", "r"],
        &[17, 5, 0, 0],
        limit,
    )
}

#[test]
fn division_runs(rt: HostRuntime) -> Result<(), Fail> {
    let end = divided(&rt, rt.alloc(), 9)?;
    assert!(rt; is_ended(&end, 9, &[17, 5, 3, 2]));
    assert!(rt; counts(&end) == [count(1, 3, 3)].as_slice());
    Ok(())
}

#[test]
fn a_run_stops_at_its_limit(rt: HostRuntime) -> Result<(), Fail> {
    let end = divided(&rt, rt.alloc(), 8)?;
    assert!(rt; matches!(end, RunEnd::StepLimit(8)));
    Ok(())
}

#[test]
fn sums_end_where_they_are_too_wide(rt: HostRuntime) -> Result<(), Fail> {
    let end = ran(&rt, rt.alloc(), "x := x + x", &["x"], &[1 << 126], 10)?;
    assert!(rt; matches!(end, RunEnd::TooWide(0)));
    let end = ran(&rt, rt.alloc(), "x := x + x", &["x"], &[-(1 << 126)], 10)?;
    assert!(rt; is_ended(&end, 1, &[i128::MIN]));
    Ok(())
}

#[test]
fn quotients_are_rounded_down_or_abort(rt: HostRuntime) -> Result<(), Fail> {
    let end = ran(&rt, rt.alloc(), "x := 10 div y", &["x", "y"], &[0, -3], 10)?;
    assert!(rt; is_ended(&end, 1, &[-4, -3]));
    let end = ran(&rt, rt.alloc(), "x := 10 div y", &["x", "y"], &[0, 0], 10)?;
    assert!(rt; is_aborted(&end, AbortCause::Division, 0));
    Ok(())
}

#[test]
fn an_alternation_without_a_true_guard_aborts(rt: HostRuntime) -> Result<(), Fail> {
    let end = ran(&rt, rt.alloc(), "if x = 1 -> skip fi", &["x"], &[0], 10)?;
    assert!(rt; is_aborted(&end, AbortCause::NoGuard, 0));
    Ok(())
}

// `Next` gives the number after its value.
fn next(rt: &impl Abort, alloc: Global) -> Result<ProcCode, Fail> {
    let body = program(rt, alloc, "g := f + 1")?;
    Ok(ProcCode {
        name: Name::read(b"Next")?,
        place: 0,
        values: ints(alloc, &["f"])?,
        results: ints(alloc, &["g"])?,
        body: body.into_inner(),
    })
}

#[test]
fn a_call_takes_three_steps(rt: HostRuntime) -> Result<(), Fail> {
    let alloc = rt.alloc();
    let mut code = code(&rt, alloc, "call Next(x; x)")?;
    code.procs.push(next(&rt, alloc)?)?;
    let globals = ints(alloc, &["x"])?;
    let start = state(alloc, &[4])?;
    let end = run_from(&rt, alloc, &code, globals.as_slice(), &start, 10)?;
    assert!(rt; is_ended(&end, 3, &[5]));
    Ok(())
}

// For each i up to 3 the inner loop takes j from 0 to i; the last loop has no turn.
const NESTED: &str =
    "do {0} i < 3 -> i := i + 1 ; j := 0 ; do {0} j < i -> j := j + 1 od od ; do {0} 5 < j -> skip od";

fn nested(rt: &impl Abort, alloc: Global) -> Result<RunEnd, Fail> {
    ran(rt, alloc, NESTED, &["i", "j"], &[0, 0], 100)
}

#[test]
fn nested_loops_end(rt: HostRuntime) -> Result<(), Fail> {
    let end = nested(&rt, rt.alloc())?;
    assert!(rt; is_ended(&end, 33, &[3, 3]));
    Ok(())
}

#[test]
fn loops_are_counted_by_their_numbers(rt: HostRuntime) -> Result<(), Fail> {
    let end = nested(&rt, rt.alloc())?;
    let want = [count(1, 3, 3), count(3, 6, 3), count(1, 0, 0)];
    assert!(rt; counts(&end) == want.as_slice());
    Ok(())
}

// `a` is the array of 1, 2 and 3, and `i` this index.
fn indexed(alloc: Global, i: i128) -> Result<State, Fail> {
    let mut values = Items::new(alloc);
    values.push(Value::List(Items::from_slice(alloc, &[1, 2, 3])?))?;
    values.push(Value::Int(i))?;
    Ok(State { values })
}

// The first value at the end, where it is an array.
fn first_cells(end: &RunEnd) -> &[i128] {
    match end {
        RunEnd::Ended {
            state,
            steps: _,
            loops: _,
        } => match state.values.as_slice().first() {
            Some(Value::List(cells)) => cells.as_slice(),
            _ => &[],
        },
        _ => &[],
    }
}

// `put(a, i, 9)`.
fn put_at(rt: &impl Abort, alloc: Global, i: i128) -> Result<RunEnd, Fail> {
    let code = code(rt, alloc, "a := put(a, i, 9)")?;
    let mut globals = Items::new(alloc);
    globals.push(Param {
        name: Name::read(b"a")?,
        sort: Sort::Array(3),
    })?;
    globals.append(ints(alloc, &["i"])?)?;
    let start = indexed(alloc, i)?;
    run_from(rt, alloc, &code, globals.as_slice(), &start, 10)
}

#[test]
fn cells_of_arrays_are_set(rt: HostRuntime) -> Result<(), Fail> {
    let end = put_at(&rt, rt.alloc(), 1)?;
    assert!(rt; first_cells(&end) == [1, 9, 3].as_slice());
    let end = put_at(&rt, rt.alloc(), 3)?;
    assert!(rt; is_aborted(&end, AbortCause::Index, 0));
    Ok(())
}
