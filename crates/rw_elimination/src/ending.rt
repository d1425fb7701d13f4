//! What an elimination answers.

ghost use Rattle.std.specs.Prelude.{◌≡◌, ◌≤◌, length, slice_get, IfOk};
ghost use Rattle.std.specs.Option.{option_copied};
ghost use Rattle.rw_elimination.specs.Answer.{last, answer, answer_of, IfRows};

use crate::atoms::atoms_of;
use crate::eliminate::{MOST_ROWS, eliminate};
use crate::hypotheses::used;
use crate::row::Row;
use crate::writing::lines_of;
use rw_arith::line::LinLine;
use rw_items::{Items, at};
use rw_terms::term::{Formula, Term};
use std::alloc::{AllocError, Global};

/// What an elimination of all atoms gives.
#[derive(Drop)]
pub enum Elimination {
    /// Arithmetic lines that refute, of the first negative constant row.
    Lines(Items<LinLine>),
    /// A coefficient of the row of this number, or of a multiple that it adds, passes 128 bits.
    Wide(u32),
    /// More than 4096 rows, or a row with more products than a polynomial may have.
    Many,
    /// No row is a negative constant.
    Rows(Table),
}

/// All rows, and the atoms in the order in which they were eliminated.
#[derive(Drop)]
pub struct Table {
    pub atoms: Items<Term>,
    pub rows: Items<Row>,
}

/// What the elimination of all atoms from the hypotheses that are used gives.
pub fn eliminate_all(
    alloc: Global,
    left: &[Formula],
    right: &[Formula],
) -> Result<Elimination, AllocError>
    ensures value { IfOk result (λ e. e ≡ answer_of left.now right.now) }
    ensures few { IfOk result (λ e. IfRows e (λ t. length t.rows ≤ 4096)) }
{
    let used = used(alloc, left, right)?;
    let atoms = atoms_of(alloc, used.as_slice())?;
    let mut rows = Items::new(alloc);
    if eliminate(alloc, atoms.as_slice(), used.as_slice(), &mut rows)? {
        return answer(alloc, rows.as_slice());
    }
    Ok(Elimination::Rows(Table { atoms, rows }))
}

// What the rows up to the one that ends the elimination answer.
fn answer(alloc: Global, rows: &[Row]) -> Result<Elimination, AllocError>
    requires { length rows.now ≤ 4097 }
    ensures { IfOk result (λ e. e ≡ answer rows.now) }
{
    match last(rows) {
        Some(Row::Wide) => Ok(Elimination::Wide(rows.len() as u32)),
        Some(Row::Fits(_)) => {
            if rows.len() > MOST_ROWS {
                return Ok(Elimination::Many);
            }
            Ok(Elimination::Lines(lines_of(alloc, rows)?))
        }
        Some(Row::Long) | None => Ok(Elimination::Many),
    }
}

fn last(rows: &[Row]) -> Option<&Row>
    ensures { option_copied result ≡ last rows.now }
{
    if rows.is_empty() {
        return None;
    }
    at(rows, rows.len() - 1)
}
