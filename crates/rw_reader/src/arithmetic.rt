//! Arithmetic lines.

ghost use Rattle.std.specs.Prelude.{◌≡◌, ◌≤◌, pos};
ghost use Rattle.rw_arith.specs.declared.line.LinLine.TheVariants as sums;
ghost use Rattle.rw_forms.specs.Certificates.{signed, times, sum_part, sum_of, sum_or_quotient, lin_line, closed_line, closed_lines, lin};
ghost use Rattle.rw_forms.specs.Progress.{IsPlace, Took};

use rw_arith::line::{LinLine, Part, Ref};
use rw_forms::request::ReadError;
use rw_forms::taking::{accept, any_number, expect, reference};
use rw_items::Items;
use std::alloc::Global;

/// Reads arithmetic lines, each in brackets.
pub fn lin(alloc: Global, line: &[u8], at: &mut usize) -> Result<Items<LinLine>, ReadError>
    requires { IsPlace line.now at.old }
    ensures took { Took lin line.now at.old at.new result }
    ensures on { at.old ≤ at.new }
{
    expect(line, at, b"[")?;
    closed_lines(alloc, line, at)
}

// Arithmetic lines behind the first bracket.
fn closed_lines(alloc: Global, line: &[u8], at: &mut usize) -> Result<Items<LinLine>, ReadError>
    requires { IsPlace line.now at.old }
    ensures took { Took closed_lines line.now at.old at.new result }
    ensures on { at.old ≤ at.new }
{
    let mut lines = Items::new(alloc);
    let first = closed_line(alloc, line, at)?;
    lines.push(first)?;
    'lines: while accept(line, at, b"[") {
        let next = closed_line(alloc, line, at)?;
        lines.push(next)?;
    }
    Ok(lines)
}

// An arithmetic line and its closing bracket.
fn closed_line(alloc: Global, line: &[u8], at: &mut usize) -> Result<LinLine, ReadError>
    requires { IsPlace line.now at.old }
    ensures took { Took closed_line line.now at.old at.new result }
    ensures on { at.old ≤ at.new }
{
    let made = lin_line(alloc, line, at)?;
    expect(line, at, b"]")?;
    Ok(made)
}

fn lin_line(alloc: Global, line: &[u8], at: &mut usize) -> Result<LinLine, ReadError>
    requires { IsPlace line.now at.old }
    ensures took { Took lin_line line.now at.old at.new result }
    ensures on { at.old ≤ at.new }
{
    if accept(line, at, b"-") {
        let number = any_number(line, at)?;
        return sum(alloc, true, number, line, at);
    }
    let number = any_number(line, at)?;
    sum_or_quotient(alloc, number, line, at)
}

// A line's number and what it is divided by, or a sum with this multiplier in front.
fn sum_or_quotient(
    alloc: Global,
    number: u128,
    line: &[u8],
    at: &mut usize,
) -> Result<LinLine, ReadError>
    requires place { IsPlace line.now at.old }
    requires size { number ≤ 170141183460469231731687303715884105727 }
    ensures took { Took (sum_or_quotient number) line.now at.old at.new result }
    ensures on { at.old ≤ at.new }
{
    if number > 4294967295 {
        return sum(alloc, false, number, line, at);
    }
    if accept(line, at, b"/") {
        let by = any_number(line, at)?;
        return Ok(quotient(number as u32, by));
    }
    sum(alloc, false, number, line, at)
}

// The parts of a sum behind the first multiplier.
fn sum(
    alloc: Global,
    minus: bool,
    number: u128,
    line: &[u8],
    at: &mut usize,
) -> Result<LinLine, ReadError>
    requires place { IsPlace line.now at.old }
    requires size { number ≤ 170141183460469231731687303715884105727 }
    ensures took { Took (sum_of minus number) line.now at.old at.new result }
    ensures on { at.old ≤ at.new }
{
    let mut parts = Items::new(alloc);
    let first = times(minus, number, line, at)?;
    parts.push(first)?;
    'parts: while accept(line, at, b"+") {
        let next = sum_part(line, at)?;
        parts.push(next)?;
    }
    Ok(LinLine::Sum(parts))
}

fn sum_part(line: &[u8], at: &mut usize) -> Result<Part, ReadError>
    requires { IsPlace line.now at.old }
    ensures took { Took sum_part line.now at.old at.new result }
    ensures on { at.old ≤ at.new }
{
    if accept(line, at, b"-") {
        let number = any_number(line, at)?;
        return times(true, number, line, at);
    }
    let number = any_number(line, at)?;
    times(false, number, line, at)
}

// What a multiplier multiplies, behind `*`.
fn times(minus: bool, number: u128, line: &[u8], at: &mut usize) -> Result<Part, ReadError>
    requires place { IsPlace line.now at.old }
    requires size { number ≤ 170141183460469231731687303715884105727 }
    ensures took { Took (times minus number) line.now at.old at.new result }
    ensures on { at.old ≤ at.new }
{
    expect(line, at, b"*")?;
    let of = reference(line, at)?;
    Ok(multiple(minus, number, of))
}

fn multiple(minus: bool, number: u128, of: Ref) -> Part
    requires { number ≤ 170141183460469231731687303715884105727 }
    ensures { result ≡ record { times = signed minus number; of = of } }
{
    let times = number as i128;
    if minus {
        Part { times: -times, of }
    } else {
        Part { times, of }
    }
}

fn quotient(line: u32, by: u128) -> LinLine
    requires { by ≤ 170141183460469231731687303715884105727 }
    ensures { result ≡ sums.Divide line (pos by) }
{
    LinLine::Divide(line, by as i128)
}
