//! The end of a session.

ghost use Rattle.std.specs.Prelude.{◌≡◌, true, IsTrue, false, IsFalse};
ghost use Rattle.tn_cores.specs.{Counting.first_end, Ending.EndsWhole};

use thiserror::Error;
use tn_client::ClientFault;
use tn_server::ServerFault;

/// The failure of a session.
#[derive(Clone, Copy, Debug, PartialEq, Eq, Error)]
pub enum SessionFault {
    #[error("read")]
    Read,
    #[error("write")]
    Write,
    #[error("server: {0}")]
    Server(ServerFault),
    #[error("client: {0}")]
    Client(ClientFault),
    #[error("out of memory")]
    Memory,
    /// A thread could not be started, or there is no first job.
    #[error("the session did not start")]
    Start,
    /// The other end of a channel is gone.
    #[error("channel disconnected")]
    Channel,
}

/// The end of a session: the first of the end of the foreground job and the faults.
#[derive(Clone, Copy, Debug, PartialEq, Eq)]
pub enum Ended {
    /// Neither came.
    HangUp,
    /// The foreground job was done.
    Done,
    /// Something failed.
    Fault(SessionFault),
}

impl Ended {
    /// Returns the first of two ends: this one, unless neither came before the next.
    pub fn or(self, next: Ended) -> Ended
        ensures { result ≡ first_end self next }
    {
        match self {
            Ended::HangUp => next,
            Ended::Done | Ended::Fault(_) => self,
        }
    }

    /// Returns whether the end is no fault.
    pub fn is_whole(self) -> bool
        ensures whole { IsTrue result → EndsWhole self }
        ensures faulted { IsFalse result → ¬ EndsWhole self }
    {
        match self {
            Ended::HangUp | Ended::Done => true,
            Ended::Fault(_) => false,
        }
    }
}
