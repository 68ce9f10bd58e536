//! The progress of a client's session: all of the core's state besides the client end.

ghost use Rattle.std.specs.Prelude.{◌≡◌};
ghost use Rattle.tn_cores.specs.client.Counting as counting;

use crate::faults::{Ended, SessionFault};

/// The progress of a client's session.
#[derive(Clone, Copy, Debug, PartialEq, Eq)]
pub struct ClientProgress {
    /// Whether no more bytes come from the network.
    pub at_end: bool,
    /// Whether no more keys come, and nothing more goes to the network.
    pub closed: bool,
    /// Whether nothing has any effect any more.
    pub over: bool,
    pub ended: Ended,
    /// The pieces that had their effect, from the keys and from the network.
    pub pieces: u64,
}

impl ClientProgress {
    pub(crate) fn new() -> ClientProgress
        ensures { result ≡ counting.nothing_yet }
    {
        ClientProgress {
            at_end: false,
            closed: false,
            over: false,
            ended: Ended::HangUp,
            pieces: 0,
        }
    }

    pub(crate) fn fed(self) -> ClientProgress
        ensures { result ≡ counting.after_piece self }
    {
        ClientProgress {
            pieces: self.pieces.saturating_add(1),
            ..self
        }
    }

    pub(crate) fn hung_up(self) -> ClientProgress
        ensures { result ≡ counting.after_hang_up self }
    {
        ClientProgress {
            at_end: true,
            ..self
        }
    }

    pub(crate) fn closed(self) -> ClientProgress
        ensures { result ≡ counting.after_close self }
    {
        ClientProgress {
            closed: true,
            ..self
        }
    }

    pub(crate) fn faulted(self, fault: SessionFault) -> ClientProgress
        ensures { result ≡ counting.after_fault fault self }
    {
        ClientProgress {
            ended: self.ended.or(Ended::Fault(fault)),
            ..self
        }
    }

    pub(crate) fn failed(self, fault: SessionFault) -> ClientProgress
        ensures { result ≡ counting.after_failure fault self }
    {
        ClientProgress {
            over: true,
            ..self.faulted(fault)
        }
    }
}
