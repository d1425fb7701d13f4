//! Requests, and why a line is none.

ghost use Rattle.std.specs.Prelude.{◌≡◌};
ghost use Rattle.rw_forms.specs.declared.request.ReadError.TheVariants as read_error;

use rw_nodes::edit::{Edit, Place};
use rw_terms::name::Name;
use std::alloc::AllocError;
use thiserror::Error;

/// What a line asks for.
#[derive(Drop)]
pub enum Request {
    Edit(Edit),
    /// Whether the derivation is closed.
    Status,
    /// The status of a node.
    StatusAt(Place),
    /// The status of a lemma.
    StatusLemma(Name),
    /// The status of each node and of each lemma.
    StatusAll,
    /// The specification and the obligations of a node.
    Goal(Place),
    /// Arithmetic lines for the obligation of this number of a node.
    Find(Place, u32),
}

/// Why a text is not read.
#[derive(Debug, Drop, Error)]
pub enum ReadError {
    /// The offset, in bytes, of the first token that cannot go on, or the text's length.
    #[error("syntax {0}")]
    Syntax(u32),
    #[error("out of memory")]
    Memory,
}

impl From<AllocError> for ReadError {
    ghost from_gives = { λ _ e. e ≡ read_error.Memory };

    fn from(_: AllocError) -> ReadError {
        ReadError::Memory
    }
}
