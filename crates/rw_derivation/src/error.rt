//! Why a project is not checked.

ghost use Rattle.std.specs.Prelude.{◌≡◌};
ghost use Rattle.rw_derivation.specs.declared.error.TreeError.TheVariants as tree_error;

use std::alloc::AllocError;
use thiserror::Error;

/// Why a project is not checked.
#[derive(Debug, Drop, Error)]
pub enum TreeError {
    #[error("out of memory")]
    Memory,
}

impl From<AllocError> for TreeError {
    ghost from_gives = { λ _ e. e ≡ tree_error.Memory };

    fn from(_: AllocError) -> TreeError {
        TreeError::Memory
    }
}
