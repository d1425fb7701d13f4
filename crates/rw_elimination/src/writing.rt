//! The arithmetic lines of a row.

ghost use Rattle.std.specs.Prelude.{◌≡◌, ◌≤◌, ◌+◌, length, IfOk, OnOk};
ghost use Rattle.std.specs.List.{list_any};
ghost use Rattle.rw_elimination.specs.declared.writing.Written.{Written};
ghost use Rattle.rw_elimination.specs.Writing.{is_row, adds, is_sum, parts_of, needed_by, needed, line_number, lined, lined_part, line_by, lines_by, lines_of};

use crate::row::{Parts, Row};
use rw_arith::line::{LinLine, Part, Ref};
use rw_items::Items;
use std::alloc::{AllocError, Global};

/// A row that a line is written of.
#[derive(Clone, Copy, Debug, PartialEq, Eq)]
pub struct Written {
    /// The number of the row, counted from 1.
    pub number: u32,
    pub parts: Parts,
}

/// The lines of the last row: the sums that it needs, in order of rows, with rows named by their lines.
pub fn lines_of(alloc: Global, rows: &[Row]) -> Result<Items<LinLine>, AllocError>
    requires { length rows.now ≤ 4097 }
    ensures { IfOk result (λ lines. lines ≡ lines_of rows.now) }
{
    let needed = needed(alloc, rows)?;
    write_all(alloc, needed.as_slice())
}

fn write_all(alloc: Global, rows: &[Written]) -> Result<Items<LinLine>, AllocError>
    requires { length rows.now ≤ 4097 }
    ensures { IfOk result (λ lines. lines ≡ lines_by rows.now rows.now) }
{
    let mut lines = Items::new(alloc);
    for row in rows {
        lines.push(line_by(alloc, rows, row.parts)?)?;
    }
    Ok(lines)
}

// The last row, and the sums that it needs, from the last back.
fn needed(alloc: Global, rows: &[Row]) -> Result<Items<Written>, AllocError>
    requires { length rows.now ≤ 4097 }
    ensures value { IfOk result (λ ns. ns ≡ needed 1 rows.now) }
    ensures few { IfOk result (λ ns. length ns ≤ 4097) }
{
    let mut needed = Items::new(alloc);
    for behind in 0..rows.len() {
        let at = rows.len() - 1 - behind;
        push_needed(&mut needed, at as u32 + 1, parts_of(&rows[at]), behind == 0)?;
    }
    Ok(needed)
}

fn parts_of(row: &Row) -> Option<Parts>
    ensures { result ≡ parts_of row.now }
{
    match row {
        Row::Fits(inequality) => Some(inequality.parts),
        Row::Wide | Row::Long => None,
    }
}

// Puts a row before the needed ones, if it is the last, or a sum that one of them adds.
fn push_needed(
    needed: &mut Items<Written>,
    number: u32,
    parts: Option<Parts>,
    is_last: bool,
) -> Result<(), AllocError>
    ensures value { OnOk result (needed.new ≡ needed_by number parts is_last needed.old) }
    ensures few { OnOk result (length needed.new ≤ length needed.old + 1) }
{
    match parts {
        Some(parts) => {
            if is_last || is_sum(parts) && is_added(number, needed.as_slice()) {
                needed.insert(0, Written { number, parts })?;
            }
            Ok(())
        }
        None => Ok(()),
    }
}

fn is_sum(parts: Parts) -> bool
    ensures { result ≡ is_sum parts }
{
    match parts {
        Parts::One(_) => false,
        Parts::Two(_, _) => true,
    }
}

fn is_added(number: u32, needed: &[Written]) -> bool
    ensures { result ≡ list_any (λ (x : Written). adds number x.parts) needed.now }
{
    for row in needed {
        if adds(number, row.parts) {
            return true;
        }
    }
    false
}

// Whether the sum adds a multiple of the row of this number.
fn adds(number: u32, parts: Parts) -> bool
    ensures { result ≡ adds number parts }
{
    match parts {
        Parts::One(_) => false,
        Parts::Two(first, second) => is_row(number, first.of) || is_row(number, second.of),
    }
}

fn is_row(number: u32, of: Ref) -> bool
    ensures { result ≡ is_row number of }
{
    match of {
        Ref::Line(row) => row == number,
        Ref::Left(_) | Ref::Right(_) => false,
    }
}

// The line that writes a row.
fn line_by(alloc: Global, rows: &[Written], parts: Parts) -> Result<LinLine, AllocError>
    requires { length rows.now ≤ 4097 }
    ensures { IfOk result (λ line. line ≡ line_by rows.now parts) }
{
    let mut line = Items::new(alloc);
    match parts {
        Parts::One(part) => line.push(part)?,
        Parts::Two(first, second) => {
            line.push(lined_part(rows, first))?;
            line.push(lined_part(rows, second))?;
        }
    }
    Ok(LinLine::Sum(line))
}

// The same multiple of the line of a row.
fn lined_part(rows: &[Written], part: Part) -> Part
    requires { length rows.now ≤ 4097 }
    ensures { result ≡ lined_part rows.now part }
{
    Part {
        times: part.times,
        of: match part.of {
            Ref::Line(number) => Ref::Line(line_number(number, rows)),
            Ref::Left(number) => Ref::Left(number),
            Ref::Right(number) => Ref::Right(number),
        },
    }
}

// The line of the row of this number, counted from 1.
fn line_number(number: u32, rows: &[Written]) -> u32
    requires { length rows.now ≤ 4097 }
    ensures { result ≡ line_number number 0 rows.now }
{
    for at in 0..rows.len() {
        if rows[at].number == number {
            return at as u32 + 1;
        }
    }
    0
}
