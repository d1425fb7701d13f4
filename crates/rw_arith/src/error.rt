ghost use Rattle.std.specs.Prelude.{◌≡◌};
ghost use Rattle.rw_arith.specs.declared.error.LinError.TheVariants.{Memory};

use std::alloc::AllocError;
use thiserror::Error;

/// Why arithmetic lines refute nothing.
#[derive(Debug, Drop, Error)]
pub enum LinError {
    #[error("line {0} is no sum and no division of what it names")]
    BadLine(u32),
    #[error("line {0} passes 128 bits")]
    Wide(u32),
    #[error("line {0} is no contradiction")]
    NotContradiction(u32),
    #[error("out of memory")]
    Memory,
}

impl From<AllocError> for LinError {
    ghost from_gives = { λ _ e. e ≡ Memory };

    fn from(_: AllocError) -> LinError {
        LinError::Memory
    }
}
