//! The reason why a run ended before its last event.

ghost use Rattle.std.specs.Prelude.{◌≡◌};
ghost use Rattle.tn_world.specs.declared.faults.Cause.TheVariants as cause;

use std::alloc::AllocError;
use thiserror::Error;
use tn_client::ClientFault;
use tn_server::ServerFault;

/// The cause why an event was refused.
#[derive(Clone, Copy, Debug, PartialEq, Eq, Error)]
pub enum Cause {
    /// The server end.
    #[error("server: {0}")]
    Server(ServerFault),
    /// The client end.
    #[error("client: {0}")]
    Client(ClientFault),
    /// The world itself found no memory, and the event changed nothing.
    #[error("out of memory")]
    Memory,
}

impl From<ServerFault> for Cause {
    ghost from_gives = { λ fault given. given ≡ cause.Server fault };

    fn from(fault: ServerFault) -> Cause {
        Cause::Server(fault)
    }
}

impl From<ClientFault> for Cause {
    ghost from_gives = { λ fault given. given ≡ cause.Client fault };

    fn from(fault: ClientFault) -> Cause {
        Cause::Client(fault)
    }
}

impl From<AllocError> for Cause {
    ghost from_gives = { λ _ given. given ≡ cause.Memory };

    fn from(_error: AllocError) -> Cause {
        Cause::Memory
    }
}

/// The event, counted from 0, that was refused, and why. Those before it are done.
#[derive(Clone, Copy, Debug, PartialEq, Eq, Error)]
#[error("event {at}: {cause}")]
pub struct WorldFault {
    pub at: usize,
    pub cause: Cause,
}
