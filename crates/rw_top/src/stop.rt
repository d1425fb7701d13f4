// Why a batch stops before its end.
ghost use Rattle.std.specs.Prelude.{◌≡◌};
ghost use Rattle.rw_top.specs.declared.stop.Stop.TheVariants.{Memory, WriteFault};

use rw_io::Failed;
use rw_project::ProjectError;
use std::alloc::{AllocError, AllocFailed};

#[derive(Clone, Copy, Debug, PartialEq, Eq)]
pub enum Stop {
    ReadFault,
    WriteFault,
    Memory,
    LineLimit,
}

// A fault of the output; one of the input is told where the read is.
impl From<Failed> for Stop {
    ghost from_gives = { λ _ stop. stop ≡ WriteFault };

    fn from(_: Failed) -> Self {
        Stop::WriteFault
    }
}

impl From<AllocError> for Stop {
    ghost from_gives = { λ _ stop. stop ≡ Memory };

    fn from(_: AllocError) -> Self {
        Stop::Memory
    }
}

impl<T: Drop> From<AllocFailed<T>> for Stop {
    ghost from_gives = { λ _ stop. stop ≡ Memory };

    fn from(_: AllocFailed<T>) -> Self {
        Stop::Memory
    }
}

impl From<ProjectError> for Stop {
    ghost from_gives = { λ _ stop. stop ≡ Memory };

    fn from(_: ProjectError) -> Self {
        Stop::Memory
    }
}
