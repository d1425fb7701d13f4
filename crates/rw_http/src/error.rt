// Why a request is not taken, or a reply not made or sent.
ghost use Rattle.std.specs.Prelude.{◌≡◌};
ghost use Rattle.rw_http.specs.declared.error.HttpError.TheVariants.{PeerFault, Memory};

use rw_io::Failed;
use std::alloc::AllocError;
use thiserror::Error;

/// Why a request is not taken, or a reply not made or sent.
#[derive(Clone, Copy, Debug, PartialEq, Eq, Error)]
pub enum HttpError {
    /// The peer failed, and has counted it.
    #[error("the peer failed")]
    PeerFault,
    /// There is no room.
    #[error("out of memory")]
    Memory,
}

impl From<Failed> for HttpError {
    ghost from_gives = { λ _ e. e ≡ PeerFault };

    fn from(_: Failed) -> HttpError {
        HttpError::PeerFault
    }
}

impl From<AllocError> for HttpError {
    ghost from_gives = { λ _ e. e ≡ Memory };

    fn from(_: AllocError) -> HttpError {
        HttpError::Memory
    }
}
