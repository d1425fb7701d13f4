//! What a run makes of terms and guards, worked out by hand.

use rw_evaluation::evaluation::{see, test};
use rw_evaluation::guards::Tested;
use rw_evaluation::operators::Seen;
use rw_evaluation::stop::{AbortCause, Stop};
use rw_evaluation::store::Binding;
use rw_evaluation::value::Value;
use rw_example_texts::{formula, term};
use rw_items::Items;
use rw_terms::name::Name;
use std::alloc::Global;
use std::test::Fail;

// What comes of a term: an integer, an array of some length, or why there is neither.
#[derive(Clone, Copy, Debug, PartialEq, Eq)]
enum Told {
    Int(i128),
    Array(usize),
    Stopped(Stop),
}

fn told_of(seen: &Seen) -> Told {
    match seen {
        Ok(Value::Int(n)) => Told::Int(*n),
        Ok(Value::List(cells)) => Told::Array(cells.len()),
        Err(stop) => Told::Stopped(*stop),
    }
}

// `y` has this value, and `a` is the array of 1, 2 and 3.
fn store(alloc: Global, y: i128) -> Result<Items<Binding>, Fail> {
    let mut store = Items::new(alloc);
    store.push(Binding {
        name: Name::read(b"y")?,
        value: Some(Value::Int(y)),
    })?;
    let cells = Items::from_slice(alloc, &[1, 2, 3])?;
    store.push(Binding {
        name: Name::read(b"a")?,
        value: Some(Value::List(cells)),
    })?;
    Ok(store)
}

fn seen(alloc: Global, y: i128, text: &str) -> Result<Told, Fail> {
    let store = store(alloc, y)?;
    let term = term(alloc, text)?;
    let seen = see(alloc, store.as_slice(), term.get())?;
    Ok(told_of(&seen))
}

fn tested(alloc: Global, y: i128, text: &str) -> Result<Tested, Fail> {
    let store = store(alloc, y)?;
    let guard = formula(alloc, text)?;
    Ok(test(alloc, store.as_slice(), guard.get())?)
}

const DIVISION: Stop = Stop::Aborted(AbortCause::Division);

const INDEX: Stop = Stop::Aborted(AbortCause::Index);

#[test]
fn sums_and_quotients_stay_within_128_bits(rt: HostRuntime) -> Result<(), Fail> {
    let alloc = rt.alloc();
    let cases = [
        (1 << 126, "y + y", Told::Stopped(Stop::TooWide)),
        (1 << 126, "y + (y - 1)", Told::Int(i128::MAX)),
        (-i128::MAX, "y - 1", Told::Int(i128::MIN)),
        (-i128::MAX, "y - 2", Told::Stopped(Stop::TooWide)),
        (i128::MIN, "y div -1", Told::Stopped(Stop::TooWide)),
        (-3, "10 div y", Told::Int(-4)),
        (-3, "10 mod y", Told::Int(-2)),
        (0, "10 div y", Told::Stopped(DIVISION)),
    ];
    for (y, text, want) in &cases {
        let found = seen(alloc, *y, text)?;
        assert_eq!(rt; found, *want, "at {text}");
    }
    Ok(())
}

#[test]
fn the_left_operand_decides_first(rt: HostRuntime) -> Result<(), Fail> {
    let alloc = rt.alloc();
    let cases = [
        (0, "a[3] + 1 div y", Told::Stopped(INDEX)),
        (0, "1 div y + a[3]", Told::Stopped(DIVISION)),
        (3, "put(a, y, 1 div 0)", Told::Stopped(DIVISION)),
        (3, "put(a, y, 9)", Told::Stopped(INDEX)),
        (-1, "a[y]", Told::Stopped(INDEX)),
        (2, "put(a, y, 9)", Told::Array(3)),
        (2, "put(a, y, 9)[2]", Told::Int(9)),
        (2, "put(a, y, 9)[0]", Told::Int(1)),
    ];
    for (y, text, want) in &cases {
        let found = seen(alloc, *y, text)?;
        assert_eq!(rt; found, *want, "at {text}");
    }
    Ok(())
}

#[test]
fn guards_are_evaluated_wholly(rt: HostRuntime) -> Result<(), Fail> {
    let alloc = rt.alloc();
    let cases = [
        (5, "true or 10 div y = 1", Ok(true)),
        (0, "true or 10 div y = 1", Err(DIVISION)),
        (0, "y = 1 and a[3] = 1", Err(INDEX)),
    ];
    for (y, text, want) in &cases {
        let found = tested(alloc, *y, text)?;
        assert_eq!(rt; found, *want, "at {text}");
    }
    Ok(())
}
