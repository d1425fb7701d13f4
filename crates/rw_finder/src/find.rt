//! The finder.

ghost use Rattle.std.specs.Prelude.{◌≡◌, ◌≤◌, length, IfOk};
ghost use Rattle.rw_finder.specs.declared.find.FindError.TheVariants.{Memory};
ghost use Rattle.rw_finder.specs.Point.{last_values};
ghost use Rattle.rw_finder.specs.Finding.{point_of, point_by, found_by, found_of};

use crate::fraction::Fraction;
use crate::point::values;
use rw_arith::line::LinLine;
use rw_elimination::ending::{Elimination, Table, eliminate_all};
use rw_items::Items;
use rw_terms::sequent::Sequent;
use rw_terms::term::Term;
use std::alloc::{AllocError, Global};
use thiserror::Error;

/// What is found for a goal.
#[derive(Drop)]
pub enum Found {
    /// Arithmetic lines that refute it.
    Lines(Items<LinLine>),
    /// The values of the atoms that the bounds of the rows give.
    Point(Items<PointValue>),
    /// A number of the row of this number passes 128 bits, or one in the reckoning of the point, which counts as the
    /// row behind the last.
    Wide(u32),
    /// There would be too many rows, or a row with too many products.
    Many,
}

/// The value of an atom, a fraction in lowest terms.
#[derive(Drop)]
pub struct PointValue {
    pub atom: Term,
    pub above: i128,
    /// Positive.
    pub below: i128,
}

/// Why nothing is found.
#[derive(Debug, Drop, Error)]
pub enum FindError {
    #[error("out of memory")]
    Memory,
}

impl From<AllocError> for FindError {
    ghost from_gives = { λ _ e. e ≡ Memory };

    fn from(_: AllocError) -> FindError {
        FindError::Memory
    }
}

/// Arithmetic lines that refute the goal; or, where elimination finds none, a point of fractions, or why there is neither.
pub fn find(alloc: Global, goal: &Sequent) -> Result<Found, FindError>
    ensures { IfOk result (λ f. f ≡ found_of goal.now) }
{
    match eliminate_all(alloc, goal.left.as_slice(), goal.right.as_slice())? {
        Elimination::Lines(lines) => Ok(Found::Lines(lines)),
        Elimination::Wide(number) => Ok(Found::Wide(number)),
        Elimination::Many => Ok(Found::Many),
        Elimination::Rows(table) => Ok(point(alloc, table)?),
    }
}

// The point of all atoms, unless a number in its reckoning passes 128 bits.
fn point(alloc: Global, table: Table) -> Result<Found, AllocError>
    requires { length table.rows ≤ 4096 }
    ensures { IfOk result (λ f. f ≡ point_by table.atoms (length table.rows) (last_values table.atoms table.rows (length table.atoms))) }
{
    let Table { atoms, rows } = table;
    match values(alloc, atoms.as_slice(), rows.as_slice())? {
        Some(values) => {
            let point = point_of(alloc, atoms.as_slice(), values.as_slice())?;
            Ok(Found::Point(point))
        }
        None => Ok(Found::Wide(rows.len() as u32 + 1)),
    }
}

// The atoms with their values.
fn point_of(
    alloc: Global,
    atoms: &[Term],
    values: &[Fraction],
) -> Result<Items<PointValue>, AllocError>
    ensures { IfOk result (λ point. point ≡ point_of atoms.now values.now) }
{
    let mut point = Items::new(alloc);
    for i in 0..atoms.len() {
        if i >= values.len() {
            return Ok(point);
        }
        let atom = atoms[i].copy(alloc)?;
        point.push(PointValue {
            atom,
            above: values[i].above,
            below: values[i].below,
        })?;
    }
    Ok(point)
}
