//! The reasons why serving failed.

ghost use Rattle.std.specs.Prelude.{◌≡◌};

use std::alloc::{AllocError, AllocFailed};
use std::io;
use thiserror::Error;
use tn_session::roster::RosterFault;

/// The reason why serving failed.
#[derive(Clone, Copy, Debug, PartialEq, Eq, Error)]
pub enum ServeFault {
    /// The port could not be bound, or a connection was not accepted.
    #[error("network")]
    Network,
    /// A roster cannot have this number of places.
    #[error("bad limit")]
    Limit,
    #[error("memory")]
    Memory,
}

impl From<AllocError> for ServeFault {
    ghost use Rattle.tn_serve.specs.declared.fault.ServeFault.TheVariants as fault;

    ghost from_gives = { λ _ told. told ≡ fault.Memory };

    fn from(_error: AllocError) -> ServeFault {
        ServeFault::Memory
    }
}

impl<T: Drop> From<AllocFailed<T>> for ServeFault {
    ghost use Rattle.tn_serve.specs.declared.fault.ServeFault.TheVariants as fault;

    ghost from_gives = { λ _ told. told ≡ fault.Memory };

    fn from(_error: AllocFailed<T>) -> ServeFault {
        ServeFault::Memory
    }
}

impl From<RosterFault> for ServeFault {
    ghost use Rattle.tn_serve.specs.Faults.{told_as};

    ghost from_gives = { λ fault told. told ≡ told_as fault };

    fn from(fault: RosterFault) -> ServeFault {
        match fault {
            RosterFault::BadLimit | RosterFault::Full => ServeFault::Limit,
            RosterFault::Memory => ServeFault::Memory,
        }
    }
}

impl From<io::Error> for ServeFault {
    ghost use Rattle.tn_serve.specs.Faults.{IsToldAs};

    ghost from_gives = { λ error told. IsToldAs error told };

    fn from(error: io::Error) -> ServeFault {
        if error.kind() == io::ErrorKind::OutOfMemory {
            ServeFault::Memory
        } else {
            ServeFault::Network
        }
    }
}
