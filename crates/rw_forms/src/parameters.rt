//! The parameters of definitions and lemmas.

ghost use Rattle.std.specs.Prelude.{◌≤◌};
ghost use Rattle.rw_forms.specs.Phrases.{parameter, parameters, closed_parameters, some_parameters};
ghost use Rattle.rw_forms.specs.Progress.{IsPlace, Took};

use crate::request::ReadError;
use crate::taking::{accept, expect, sort, variable};
use rw_items::Items;
use rw_terms::name::Name;
use rw_terms::term::Sort;
use std::alloc::Global;

/// Reads parameters and a closing bracket, or that bracket alone.
pub fn some_parameters(
    alloc: Global,
    line: &[u8],
    at: &mut usize,
) -> Result<Items<(Name, Sort)>, ReadError>
    requires { IsPlace line.now at.old }
    ensures { Took some_parameters line.now at.old at.new result }
{
    if accept(line, at, b")") {
        return Ok(Items::new(alloc));
    }
    closed_parameters(alloc, line, at)
}

/// Reads parameters and a closing bracket.
pub fn closed_parameters(
    alloc: Global,
    line: &[u8],
    at: &mut usize,
) -> Result<Items<(Name, Sort)>, ReadError>
    requires { IsPlace line.now at.old }
    ensures { Took closed_parameters line.now at.old at.new result }
{
    let params = parameters(alloc, line, at)?;
    expect(line, at, b")")?;
    Ok(params)
}

// Parameters with commas between them.
fn parameters(alloc: Global, line: &[u8], at: &mut usize) -> Result<Items<(Name, Sort)>, ReadError>
    requires { IsPlace line.now at.old }
    ensures { Took parameters line.now at.old at.new result }
{
    let mut params = Items::new(alloc);
    let first = parameter(line, at)?;
    params.push(first)?;
    'parameters: while accept(line, at, b",") {
        let next = parameter(line, at)?;
        params.push(next)?;
    }
    Ok(params)
}

// `NAME : SORT`
fn parameter(line: &[u8], at: &mut usize) -> Result<(Name, Sort), ReadError>
    requires { IsPlace line.now at.old }
    ensures took { Took parameter line.now at.old at.new result }
    ensures on { at.old ≤ at.new }
{
    let name = variable(line, at)?;
    expect(line, at, b":")?;
    let sort = sort(line, at)?;
    Ok((name, sort))
}
