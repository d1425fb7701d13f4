//! Goals about as large as the finder answers.

use rw_example_texts::formula;
use rw_finder::find::find;
use rw_found_texts::{found_lines, found_text};
use rw_items::Items;
use rw_terms::sequent::Sequent;
use rw_terms::term::Formula;
use std::alloc::Global;
use std::process::Abort;
use std::test::Fail;

fn push_copies(
    alloc: Global,
    formulas: &mut Items<Formula>,
    count: u32,
    text: &str,
) -> Result<(), Fail> {
    let read = formula(alloc, text)?;
    for _ in 0..count {
        formulas.push(read.get().copy(alloc)?)?;
    }
    Ok(())
}

// A goal with so many times each of these formulas to the left, and none to the right.
fn goal(alloc: Global, groups: &[(u32, &str)]) -> Result<Sequent, Fail> {
    let mut left = Items::new(alloc);
    for (count, text) in groups {
        push_copies(alloc, &mut left, *count, text)?;
    }
    Ok(Sequent {
        names: Items::new(alloc),
        left,
        right: Items::new(alloc),
    })
}

// The goal gets this line, or none, and its reply ends so.
fn found_is(
    rt: &impl Abort,
    alloc: Global,
    groups: &[(u32, &str)],
    line: &str,
    end: &str,
) -> Result<(), Fail> {
    let found = find(alloc, &goal(alloc, groups)?)?;
    let lines = found_lines(alloc, &found)?;
    let first: &[u8] = match lines.as_slice().first() {
        Some(text) => text.bytes(),
        None => b"",
    };
    assert_eq!(rt; first, line.as_bytes());
    let told = found_text(alloc, &found)?;
    assert_eq!(rt; told.bytes(), end.as_bytes());
    Ok(())
}

// 16 and 240 hypotheses, and 16 * 240 pairs of them, are 4096 rows.
#[test]
fn rows_up_to_4096_give_a_point(rt: HostRuntime) -> Result<(), Fail> {
    let groups = [(16, "0 <= x"), (240, "x <= 5")];
    found_is(&rt, rt.alloc(), &groups, "", "ok point x = 0/1")
}

#[test]
fn more_rows_are_many(rt: HostRuntime) -> Result<(), Fail> {
    let alloc = rt.alloc();
    found_is(
        &rt,
        alloc,
        &[(16, "0 <= x"), (241, "x <= 5")],
        "",
        "ok many",
    )?;
    found_is(&rt, alloc, &[(4097, "7 <= 2 * x")], "", "ok many")
}

// The last pair is the only one that refutes.
#[test]
fn the_4096th_row_may_refute(rt: HostRuntime) -> Result<(), Fail> {
    let alloc = rt.alloc();
    let few = [
        (15, "0 <= x"),
        (1, "3 <= x"),
        (239, "x <= 5"),
        (1, "x <= 2"),
    ];
    found_is(&rt, alloc, &few, "lin [1*L16 + 1*L256]", "ok found")?;
    let more = [
        (16, "0 <= x"),
        (1, "3 <= x"),
        (239, "x <= 5"),
        (1, "x <= 2"),
    ];
    found_is(&rt, alloc, &more, "", "ok many")
}
