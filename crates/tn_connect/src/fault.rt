//! The reasons why connecting failed.

ghost use Rattle.std.specs.Prelude.{◌≡◌};

use std::alloc::{AllocError, AllocFailed};
use std::io;
use thiserror::Error;

/// The reason why connecting failed.
#[derive(Clone, Copy, Debug, PartialEq, Eq, Error)]
pub enum ConnectFault {
    /// No connection was made, or it could not be set up.
    #[error("network")]
    Network,
    /// The session ended in a fault.
    #[error("session")]
    Session,
    #[error("memory")]
    Memory,
}

impl From<AllocError> for ConnectFault {
    ghost use Rattle.tn_connect.specs.declared.fault.ConnectFault.TheVariants as fault;

    ghost from_gives = { λ _ told. told ≡ fault.Memory };

    fn from(_error: AllocError) -> ConnectFault {
        ConnectFault::Memory
    }
}

impl<T: Drop> From<AllocFailed<T>> for ConnectFault {
    ghost use Rattle.tn_connect.specs.declared.fault.ConnectFault.TheVariants as fault;

    ghost from_gives = { λ _ told. told ≡ fault.Memory };

    fn from(_error: AllocFailed<T>) -> ConnectFault {
        ConnectFault::Memory
    }
}

impl From<io::Error> for ConnectFault {
    ghost use Rattle.tn_connect.specs.Faults.{IsToldAs};

    ghost from_gives = { λ error told. IsToldAs error told };

    fn from(error: io::Error) -> ConnectFault {
        if error.kind() == io::ErrorKind::OutOfMemory {
            ConnectFault::Memory
        } else {
            ConnectFault::Network
        }
    }
}
