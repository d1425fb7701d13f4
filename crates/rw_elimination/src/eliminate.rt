//! The elimination of atoms.

ghost use Rattle.std.specs.Prelude.{◌≡◌, ◌+◌, ◌≤◌, false, ◌∷◌, ◌++◌, [], length, IfOk, OnOk};
ghost use Rattle.std.specs.Option.{option_to_list};
ghost use Rattle.rw_arith.specs.Lines.{is_contradiction};
ghost use Rattle.rw_elimination.specs.Rows.{given_row, given_rows, all_given};
ghost use Rattle.rw_elimination.specs.Elimination.{lead_by, pair_inequalities, pair, pairs_with, pairs_from, after_atoms, eliminated, ends_by, ends, some_ends, until};

use crate::hypotheses::Hypothesis;
use crate::row::{Inequality, Lead, Parts, Row};
use crate::summing::{fitting, paired, row_of};
use rw_arith::line::Part;
use rw_arith::poly::{Expansion, Summand, is_product};
use rw_arith::sums::negate;
use rw_items::Items;
use rw_terms::term::Term;
use std::alloc::{AllocError, Global};

/// An elimination has at most so many rows.
pub const MOST_ROWS: usize = 4096;

/// Puts the rows of the hypotheses and then those of each atom in turn at the end, up to the first that ends the
/// elimination, and tells whether one does.
pub fn eliminate(
    alloc: Global,
    atoms: &[Term],
    used: &[Hypothesis],
    rows: &mut Items<Row>,
) -> Result<bool, AllocError>
    requires { rows.old ≡ [] }
    ensures rows { OnOk result (rows.new ≡ until 0 (eliminated atoms.now used.now)) }
    ensures ended { IfOk result (λ ended. ended ≡ some_ends 0 (eliminated atoms.now used.now)) }
{
    if push_all_given(alloc, atoms, used, rows)? {
        return Ok(true);
    }
    for at in 0..atoms.len() {
        if push_pairs(alloc, atoms, at, rows)? {
            return Ok(true);
        }
    }
    Ok(false)
}

fn push_all_given(
    alloc: Global,
    atoms: &[Term],
    used: &[Hypothesis],
    rows: &mut Items<Row>,
) -> Result<bool, AllocError>
    ensures rows { OnOk result (rows.new ≡ rows.old ++ until (length rows.old) (all_given atoms.now used.now)) }
    ensures ended { IfOk result (λ ended. ended ≡ some_ends (length rows.old) (all_given atoms.now used.now)) }
{
    for hypothesis in used {
        if push_given(alloc, atoms, hypothesis, rows)? {
            return Ok(true);
        }
    }
    Ok(false)
}

fn push_given(
    alloc: Global,
    atoms: &[Term],
    hypothesis: &Hypothesis,
    rows: &mut Items<Row>,
) -> Result<bool, AllocError>
    ensures rows { OnOk result (rows.new ≡ rows.old ++ until (length rows.old) (given_rows atoms.now hypothesis.now)) }
    ensures ended { IfOk result (λ ended. ended ≡ some_ends (length rows.old) (given_rows atoms.now hypothesis.now)) }
{
    let once = copied(alloc, hypothesis.summands.as_slice())?;
    let row = given_row(atoms, hypothesis, 1, once);
    if push_row(rows, row)? {
        return Ok(true);
    }
    if !hypothesis.is_equation {
        return Ok(false);
    }
    let opposite = negate(copied(alloc, hypothesis.summands.as_slice())?);
    push_row(rows, given_row(atoms, hypothesis, -1, opposite))
}

fn given_row(atoms: &[Term], hypothesis: &Hypothesis, times: i128, sum: Expansion) -> Row
    ensures { result ≡ given_row atoms.now hypothesis.now times sum }
{
    let part = Part {
        times,
        of: hypothesis.of,
    };
    row_of(atoms, Parts::One(part), fitting(sum))
}

fn copied(alloc: Global, summands: &[Summand]) -> Result<Expansion, AllocError>
    ensures { IfOk result (λ e. e ≡ Expansion.Polynomial summands.now) }
{
    let mut copies = Items::new(alloc);
    for summand in summands {
        copies.push(summand.copy(alloc)?)?;
    }
    Ok(Expansion::Polynomial(copies))
}

// Puts a row at the end, and tells whether it ends the elimination.
fn push_row(rows: &mut Items<Row>, row: Row) -> Result<bool, AllocError>
    ensures rows { OnOk result (rows.new ≡ rows.old ++ row ∷ []) }
    ensures ended { IfOk result (λ ended. ended ≡ ends (length rows.old) row) }
{
    let ended = ends(&row, rows.len() >= MOST_ROWS);
    rows.push(row)?;
    Ok(ended)
}

// The rows of the atom at a place.
fn push_pairs(
    alloc: Global,
    atoms: &[Term],
    at: usize,
    rows: &mut Items<Row>,
) -> Result<bool, AllocError>
    requires { some_ends 0 rows.old ≡ false }
    ensures rows { OnOk result (rows.new ≡ rows.old ++ until (length rows.old) (pairs_from atoms.now at rows.old 1 rows.old)) }
    ensures ended { IfOk result (λ ended. ended ≡ some_ends (length rows.old) (pairs_from atoms.now at rows.old 1 rows.old)) }
{
    let mut made = Items::new(alloc);
    let ended = pair_all(alloc, atoms, at, rows.as_slice(), &mut made)?;
    rows.append(made)?;
    Ok(ended)
}

fn pair_all(
    alloc: Global,
    atoms: &[Term],
    at: usize,
    rows: &[Row],
    made: &mut Items<Row>,
) -> Result<bool, AllocError>
    requires few { length rows.now ≤ 4096 }
    requires none { made.old ≡ [] }
    ensures rows { OnOk result (made.new ≡ until (length rows.now) (pairs_from atoms.now at rows.now 1 rows.now)) }
    ensures ended { IfOk result (λ ended. ended ≡ some_ends (length rows.now) (pairs_from atoms.now at rows.now 1 rows.now)) }
{
    for first in 0..rows.len() {
        if pair_with(alloc, atoms, at, rows, first as u32 + 1, &rows[first], made)? {
            return Ok(true);
        }
    }
    Ok(false)
}

fn pair_with(
    alloc: Global,
    atoms: &[Term],
    at: usize,
    rows: &[Row],
    number: u32,
    first: &Row,
    made: &mut Items<Row>,
) -> Result<bool, AllocError>
    requires { length rows.now ≤ 4096 }
    ensures rows { OnOk result (made.new ≡ made.old ++ until (length rows.now + length made.old) (pairs_with atoms.now at number first.now 1 rows.now)) }
    ensures ended { IfOk result (λ ended. ended ≡ some_ends (length rows.now + length made.old) (pairs_with atoms.now at number first.now 1 rows.now)) }
{
    for second in 0..rows.len() {
        let row = pair(
            alloc,
            atoms,
            at,
            number,
            first,
            second as u32 + 1,
            &rows[second],
        )?;
        if push_made(rows.len(), made, row)? {
            return Ok(true);
        }
    }
    Ok(false)
}

// The row that two rows give, where the atom at this place is the first of both, with a positive coefficient in the
// first and a negative one in the second.
fn pair(
    alloc: Global,
    atoms: &[Term],
    at: usize,
    number: u32,
    first: &Row,
    other: u32,
    second: &Row,
) -> Result<Option<Row>, AllocError>
    ensures { IfOk result (λ row. row ≡ pair atoms.now at number first.now other second.now) }
{
    match first {
        Row::Fits(one) => match second {
            Row::Fits(two) => pair_inequalities(alloc, atoms, at, number, one, other, two),
            Row::Wide | Row::Long => Ok(None),
        },
        Row::Wide | Row::Long => Ok(None),
    }
}

fn pair_inequalities(
    alloc: Global,
    atoms: &[Term],
    at: usize,
    number: u32,
    first: &Inequality,
    other: u32,
    second: &Inequality,
) -> Result<Option<Row>, AllocError>
    ensures { IfOk result (λ row. row ≡ pair_inequalities atoms.now at number first.now other second.now) }
{
    let up = lead_by(at, first.lead);
    let down = lead_by(at, second.lead);
    if 0 < up && down < 0 {
        let row = paired(alloc, atoms, number, first, up, other, second, down)?;
        return Ok(Some(row));
    }
    Ok(None)
}

/// The coefficient of the atom at this place, where it is the first; else 0.
pub fn lead_by(at: usize, lead: Option<Lead>) -> i128
    ensures { result ≡ lead_by at lead }
{
    match lead {
        Some(lead) => { if lead.atom == at { lead.times } else { 0 } }
        None => 0,
    }
}

// Puts a row that was made from so many at the end, where there is one, and tells whether it ends the elimination.
fn push_made(before: usize, made: &mut Items<Row>, row: Option<Row>) -> Result<bool, AllocError>
    requires { before ≤ 4096 }
    ensures rows { OnOk result (made.new ≡ made.old ++ until (before + length made.old) (option_to_list row)) }
    ensures ended { IfOk result (λ ended. ended ≡ some_ends (before + length made.old) (option_to_list row)) }
{
    match row {
        Some(row) => {
            let ended = ends(&row, made.len() >= MOST_ROWS - before);
            made.push(row)?;
            Ok(ended)
        }
        None => Ok(false),
    }
}

// Whether a row ends the elimination, where 4096 rows stand before it or not.
fn ends(row: &Row, is_full: bool) -> bool
    ensures { result ≡ ends_by is_full row.now }
{
    match row {
        Row::Wide | Row::Long => true,
        Row::Fits(inequality) => is_full || is_contradiction(inequality.summands.as_slice()),
    }
}

// Whether it is a negative constant.
fn is_contradiction(summands: &[Summand]) -> bool
    ensures { result ≡ is_contradiction summands.now }
{
    if summands.len() != 1 {
        return false;
    }
    !is_product(&summands[0]) && summands[0].times < 0
}
