//! The progress of a session: all of the terminal's state besides the server end and the jobs.

ghost use Rattle.std.specs.Prelude.{◌≡◌};
ghost use Rattle.tn_cores.specs.server.Counting as counting;

use crate::faults::Ended;

/// The progress of a session.
#[derive(Clone, Copy, Debug, PartialEq, Eq)]
pub struct ServerProgress {
    /// A request of the foreground job waits for an entry.
    pub asks: bool,
    /// Whether no more bytes come from the network.
    pub at_end: bool,
    /// Whether nothing has any effect any more.
    pub over: bool,
    pub ended: Ended,
    /// The pieces that had their effect.
    pub pieces: u64,
    /// The entries that went to the foreground job.
    pub entries: u64,
    /// The stops of the foreground job.
    pub stops: u64,
}

impl ServerProgress {
    pub(crate) fn new() -> ServerProgress
        ensures { result ≡ counting.nothing_yet }
    {
        ServerProgress {
            asks: false,
            at_end: false,
            over: false,
            ended: Ended::HangUp,
            pieces: 0,
            entries: 0,
            stops: 0,
        }
    }

    pub(crate) fn fed(self) -> ServerProgress
        ensures { result ≡ counting.after_piece self }
    {
        ServerProgress {
            pieces: self.pieces.saturating_add(1),
            ..self
        }
    }

    pub(crate) fn answered(self) -> ServerProgress
        ensures { result ≡ counting.after_answer self }
    {
        ServerProgress {
            asks: false,
            entries: self.entries.saturating_add(1),
            ..self
        }
    }

    pub(crate) fn unanswered(self) -> ServerProgress
        ensures { result ≡ counting.after_no_entry self }
    {
        ServerProgress {
            asks: !self.at_end,
            ..self
        }
    }

    pub(crate) fn asking(self) -> ServerProgress
        ensures { result ≡ counting.after_request self }
    {
        ServerProgress { asks: true, ..self }
    }

    pub(crate) fn hung_up(self) -> ServerProgress
        ensures { result ≡ counting.after_hang_up self }
    {
        ServerProgress {
            asks: false,
            at_end: true,
            ..self
        }
    }

    pub(crate) fn ends(self, ended: Ended) -> ServerProgress
        ensures { result ≡ counting.after_end ended self }
    {
        ServerProgress {
            ended: self.ended.or(ended),
            ..self
        }
    }

    pub(crate) fn stops(self) -> ServerProgress
        ensures { result ≡ counting.after_stop self }
    {
        ServerProgress {
            stops: self.stops.saturating_add(1),
            ..self
        }
    }

    pub(crate) fn halted(self) -> ServerProgress
        ensures { result ≡ counting.after_halt self }
    {
        ServerProgress {
            asks: false,
            over: true,
            ..self
        }
    }
}
