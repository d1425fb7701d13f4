//! Why the table is not changed.

ghost use Rattle.std.specs.Prelude.{◌≡◌};
ghost use Rattle.rw_lemmas.specs.declared.error.LemmaError.TheVariants.{Memory};

use rw_sequents::error::CheckError;
use rw_terms::name::Name;
use std::alloc::AllocError;
use thiserror::Error;

/// Why a change of the table is refused.
#[derive(Debug, Drop, Error)]
pub enum LemmaError {
    /// A parameter stands twice, or the name is there as the other kind.
    #[error("the name {0} is there")]
    Duplicate(Name),
    /// A definition would use this one, which does not stand before it.
    #[error("{0} does not stand before what uses it")]
    Order(Name),
    /// The name is in use, here first.
    #[error("the name is in use in {0}")]
    InUse(Name),
    #[error("out of memory")]
    Memory,
}

impl From<AllocError> for LemmaError {
    ghost from_gives = { λ _ e. e ≡ Memory };

    fn from(_: AllocError) -> LemmaError {
        LemmaError::Memory
    }
}

impl From<CheckError> for LemmaError {
    ghost from_gives = { λ _ e. e ≡ Memory };

    fn from(_: CheckError) -> LemmaError {
        LemmaError::Memory
    }
}
