// Why the rows end early.
ghost use Rattle.std.specs.Prelude.{◌≡◌};
ghost use Rattle.rw_rows.specs.declared.stop.Stop.TheVariants.{Memory, WriteFault};

use rw_io::{Failed, MakeError};
use std::alloc::{AllocError, AllocFailed};

#[derive(Clone, Copy, Debug, PartialEq, Eq)]
pub enum Stop {
    ReadFault,
    WriteFault,
    Memory,
    TooLong,
}

impl Stop {
    /// The exit status, as the program `derive` has it.
    pub fn status(self) -> u8 {
        match self {
            Stop::ReadFault => 3,
            Stop::WriteFault => 4,
            Stop::Memory => 6,
            Stop::TooLong => 7,
        }
    }
}

// A fault of the output; one of the input is told where the read is.
impl From<Failed> for Stop {
    ghost from_gives = { λ _ stop. stop ≡ WriteFault };

    fn from(_: Failed) -> Self {
        Stop::WriteFault
    }
}

impl From<MakeError> for Stop {
    ghost from_gives = { λ _ stop. stop ≡ Memory };

    fn from(_: MakeError) -> Self {
        Stop::Memory
    }
}

impl From<AllocError> for Stop {
    ghost from_gives = { λ _ stop. stop ≡ Memory };

    fn from(_: AllocError) -> Self {
        Stop::Memory
    }
}

impl<T: Drop> From<AllocFailed<T>> for Stop {
    ghost from_gives = { λ _ stop. stop ≡ Memory };

    fn from(_: AllocFailed<T>) -> Self {
        Stop::Memory
    }
}
