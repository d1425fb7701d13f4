//! The rows of an elimination.

use rw_arith::line::Part;
use rw_arith::poly::Summand;
use rw_items::Items;

/// What a row is a sum of. A part that names another row does so by `Ref::Line` with the row's number, counted from 1.
#[derive(Clone, Copy, Debug, PartialEq, Eq)]
pub enum Parts {
    /// A hypothesis once, or -1 times for the second row of an equation.
    One(Part),
    /// Multiples of two rows, or of the hypotheses that these stand for.
    Two(Part, Part),
}

/// The first atom of a row, by its place in the order of atoms, with its coefficient.
#[derive(Clone, Copy, Debug, PartialEq, Eq)]
pub struct Lead {
    pub atom: usize,
    pub times: i128,
}

/// A polynomial that is at least 0, each of whose products is an atom.
#[derive(Drop)]
pub struct Inequality {
    pub parts: Parts,
    pub summands: Items<Summand>,
    /// None where no atom has a coefficient other than 0.
    pub lead: Option<Lead>,
}

/// A row of an elimination.
#[derive(Drop)]
pub enum Row {
    /// A coefficient of it, or of a multiple that it adds, passes 128 bits.
    Wide,
    /// It has more products than a polynomial may have.
    Long,
    /// An inequality.
    Fits(Inequality),
}
