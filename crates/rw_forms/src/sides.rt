//! The sides of the sequent that a lemma states.

ghost use Rattle.rw_forms.specs.Phrases.{left_side, right_side};
ghost use Rattle.rw_forms.specs.Progress.{IsPlace, Took, TookLast};

use crate::request::ReadError;
use crate::taking::{accept, expect};
use crate::value::formulas;
use rw_items::Items;
use rw_terms::term::Formula;
use std::alloc::Global;

/// Reads the formulas before `|-`, if there are some, and it.
pub fn left_side(alloc: Global, line: &[u8], at: &mut usize) -> Result<Items<Formula>, ReadError>
    requires { IsPlace line.now at.old }
    ensures { Took left_side line.now at.old at.new result }
{
    if accept(line, at, b"|-") {
        return Ok(Items::new(alloc));
    }
    let formulas = formulas(alloc, 512, b",", line, at)?;
    expect(line, at, b"|-")?;
    Ok(formulas)
}

/// Reads the formulas up to the line's end, or none.
pub fn right_side(alloc: Global, line: &[u8], at: &mut usize) -> Result<Items<Formula>, ReadError>
    requires { IsPlace line.now at.old }
    ensures { TookLast right_side line.now at.old at.new result }
{
    if *at >= line.len() {
        return Ok(Items::new(alloc));
    }
    formulas(alloc, 512, b",", line, at)
}
