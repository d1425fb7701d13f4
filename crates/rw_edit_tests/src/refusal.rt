//! Why an edit is refused.

ghost use Rattle.std.specs.Prelude.{◌≡◌};
ghost use Rattle.rw_edit_tests.specs.declared.refusal.EditRefusal.TheVariants as refusal;

use rw_edits::edit::{Place, Spot};
use rw_terms::name::Name;
use std::alloc::{AllocError, Global};
use thiserror::Error;

/// A quantity with a limit, in the order in which limits are tested.
#[derive(Clone, Copy, Debug, PartialEq, Eq)]
pub enum Which {
    Weight,
    Depth,
    Globals,
    Params,
    Table,
    Operations,
    Guards,
    Nodes,
    Path,
    Lines,
    Edits,
    Bytes,
    Authors,
    Steps,
}

/// The first test that refuses an edit.
#[derive(Debug, Drop, Error)]
pub enum EditRefusal {
    /// A name that is not declared.
    #[error("unknown {0}")]
    Unknown(Name),
    /// A name that is declared already.
    #[error("{0} is declared already")]
    Duplicate(Name),
    /// The part of this number is ill-formed; the frame is part 0.
    #[error("part {0} is ill-formed")]
    Sort(u32),
    /// The place is no node.
    #[error("no node {0:?}")]
    NoNode(Place),
    /// The node has no obligation of this number.
    #[error("no obligation {0}")]
    NoObligation(u32),
    /// The quantity would pass this limit.
    #[error("limit {0:?} {1}")]
    Limit(Which, u32),
    /// The project would weigh more than it may: this much, at most `u64::MAX`.
    #[error("weight {0}")]
    Full(u64),
    /// A definition would use this one, which does not stand before it.
    #[error("{0} does not stand before")]
    Order(Name),
    /// The name is in use, here first.
    #[error("{0} is in use {1:?}")]
    InUse(Name, Spot),
    #[error("out of memory")]
    Memory,
}

impl From<AllocError> for EditRefusal {
    ghost from_gives = { λ _ e. e ≡ refusal.Memory };

    fn from(_: AllocError) -> EditRefusal {
        EditRefusal::Memory
    }
}
