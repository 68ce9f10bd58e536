//! The reasons why a call of a server end is refused.

ghost use Rattle.std.specs.Prelude.{◌≡◌};
ghost use Rattle.tn_server.specs.declared.faults.ServerFault.TheVariants.{Memory};

use std::alloc::AllocError;
use thiserror::Error;
use tn_discipline::CharFault;
use tn_pty::PtyFault;

/// The reason why a call of a server end was refused.
#[derive(Clone, Copy, Debug, PartialEq, Eq, Error)]
pub enum ServerFault {
    /// The terminal of the end refused a key or a command. The end has failed.
    #[error("pseudoterminal: {0}")]
    Pty(PtyFault),
    /// There was no memory. If `feed` returns this, the end has failed.
    #[error("out of memory")]
    Memory,
    /// A call of `feed` was refused before.
    #[error("the end has failed")]
    Failed,
    /// A special character was not changed.
    #[error("special character: {0}")]
    Char(CharFault),
    /// A forward mask was not sent, since LINEMODE is not on.
    #[error("LINEMODE is not on")]
    NotOn,
}

impl From<AllocError> for ServerFault {
    ghost from_gives = { λ _ fault. fault ≡ Memory };

    fn from(_error: AllocError) -> ServerFault {
        ServerFault::Memory
    }
}
