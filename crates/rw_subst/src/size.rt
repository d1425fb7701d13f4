//! How large terms and formulas are, by both limits.

ghost use Rattle.std.specs.Prelude.{◌≡◌, ◌+◌, min, max, map, IfOk, IfErr};
ghost use Rattle.rw_subst.specs.Limits.{IsWithin};
ghost use Rattle.rw_subst.specs.Sizes.{term_size, IsPast};

use crate::error::SubstError;
use crate::slot::Change;
use rw_items::Items;
use rw_terms::measure;
use rw_terms::sorts::{MOST_DEPTH, MOST_PARTS};
use rw_terms::term::Term;
use std::alloc::{AllocError, Global};

/// The number of parts, and of those on the longest path, each at most `u32::MAX`.
#[derive(Clone, Copy, Debug, PartialEq, Eq)]
pub struct Size {
    pub weight: u32,
    pub depth: u32,
}

/// The size of a term as it stands.
pub fn size_as_it_is(term: &Term) -> Size
    ensures { result ≡ term_size term.now }
{
    Size {
        weight: measure::weight_of_term(term),
        depth: measure::depth_of_term(term),
    }
}

/// The size of no term.
pub const NONE: Size = Size {
    weight: 0,
    depth: 0,
};

/// The size of a term of one part.
pub const ONE: Size = Size {
    weight: 1,
    depth: 1,
};

/// One part above others.
pub fn above(parts: Size) -> Size
    ensures weight { result.weight ≡ min (parts.weight + 1) u32.MAX }
    ensures depth { result.depth ≡ min (parts.depth + 1) u32.MAX }
{
    Size {
        weight: parts.weight.saturating_add(1),
        depth: parts.depth.saturating_add(1),
    }
}

/// One part above two others.
pub fn above_two(one: Size, other: Size) -> Size
    ensures weight { result.weight ≡ min (one.weight + other.weight + 1) u32.MAX }
    ensures depth { result.depth ≡ min (max one.depth other.depth + 1) u32.MAX }
{
    above(beside(one, other))
}

/// Two terms that stand beside one another.
pub fn beside(one: Size, other: Size) -> Size
    ensures weight { result.weight ≡ min (one.weight + other.weight) u32.MAX }
    ensures depth { result.depth ≡ max one.depth other.depth }
{
    Size {
        weight: one.weight.saturating_add(other.weight),
        depth: one.depth.max(other.depth),
    }
}

/// Refuses what passes a limit.
pub fn fit(size: Size) -> Result<(), SubstError>
    ensures ok { IfOk result (λ _. IsWithin size.weight size.depth) }
    ensures err { IfErr result (IsPast size) }
{
    if size.weight > MOST_PARTS || size.depth > MOST_DEPTH {
        return Err(SubstError::TooLarge(size.weight));
    }
    Ok(())
}

/// The size of the term of each change.
pub fn sizes_of(alloc: Global, changes: &[Change]) -> Result<Items<Size>, AllocError>
    ensures { IfOk result (λ sizes. sizes ≡ map (λ c. term_size c.term) changes.now) }
{
    let mut sizes = Items::new(alloc);
    for change in changes {
        sizes.push(size_as_it_is(&change.term))?;
    }
    Ok(sizes)
}
