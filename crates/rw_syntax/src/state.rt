//! Where a reader stands between two tokens.

use crate::frame::{Part, Partial};
use crate::frames::Frames;
use rw_terms::name::Name;

#[derive(Drop)]
pub enum State {
    /// An operand is wanted.
    Wants(Frames),
    /// The first tokens of a quantifier or of `put` were read.
    Partial(Partial, Frames),
    /// A word was read, which may be a head.
    Worded(Name, Frames),
    /// An operand of a level was read, a read with so many indices.
    Has(Part, u8, u32, Frames),
}

/// An operand that was read: what it is, its level, and the operators or indices of its chain so far.
#[derive(Drop)]
pub struct Operand {
    pub part: Part,
    pub level: u8,
    pub chain: u32,
    pub stack: Frames,
}
