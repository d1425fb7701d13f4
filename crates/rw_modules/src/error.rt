ghost use Rattle.std.specs.Prelude.{◌≡◌};
ghost use Rattle.rw_modules.specs.declared.error.ModError.TheVariants.{Memory};

use std::alloc::AllocError;
use thiserror::Error;

/// Why there is no such specification.
#[derive(Debug, Drop, Error)]
pub enum ModError {
    #[error("the module has no such operation")]
    NoOperation,
    /// The weight of the first formula that passes a limit, at most `u32::MAX`.
    #[error("weight {0} or the depth passes the limit")]
    TooLarge(u32),
    #[error("out of memory")]
    Memory,
}

impl From<AllocError> for ModError {
    ghost from_gives = { λ _ e. e ≡ Memory };

    fn from(_: AllocError) -> ModError {
        ModError::Memory
    }
}
