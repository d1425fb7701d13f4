//! Arithmetic lines.

ghost use Rattle.std.specs.Prelude.{◌≡◌, IfOk};

use rw_items::Items;
use std::alloc::{AllocError, Global};

/// What a part of a sum names.
#[derive(Clone, Copy, Debug, PartialEq, Eq)]
pub enum Ref {
    /// A left formula, counted from 1.
    Left(u32),
    /// A right formula, counted from 1.
    Right(u32),
    /// An earlier line, counted from 1.
    Line(u32),
}

/// A multiple of what is named.
#[derive(Clone, Copy, Debug, PartialEq, Eq)]
pub struct Part {
    pub times: i128,
    pub of: Ref,
}

/// An arithmetic line.
#[derive(Debug, Drop)]
pub enum LinLine {
    /// The sum of the parts.
    Sum(Items<Part>),
    /// An earlier line divided by a number.
    Divide(u32, i128),
}

impl LinLine {
    /// The same line again.
    pub fn copy(&self, alloc: Global) -> Result<LinLine, AllocError>
        ensures { IfOk result (λ l. l ≡ self.now) }
    {
        match self {
            LinLine::Sum(parts) => Ok(LinLine::Sum(Items::from_slice(alloc, parts.as_slice())?)),
            LinLine::Divide(line, by) => Ok(LinLine::Divide(*line, *by)),
        }
    }
}
