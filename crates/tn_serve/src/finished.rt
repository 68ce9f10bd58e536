//! The end of a session over a connection.

ghost use Rattle.std.specs.Prelude.{◌≡◌, IsTrue, false, IsFalse};
ghost use Rattle.tn_serve.specs.Ends.{IsWhole, not_started};

use tn_session::{Report, SessionFault};

/// The end of a session over a connection.
#[derive(Clone, Copy, PartialEq, Eq)]
pub struct Finished {
    /// The report of the session, or the reason why it has none.
    pub report: Result<Report, SessionFault>,
    /// Its client typed nothing for too long.
    pub idle: bool,
    /// Whether the session lasted too long.
    pub too_long: bool,
}

impl Finished {
    /// Returns whether it ended without a fault.
    pub fn is_whole(&self) -> bool
        ensures whole { IsTrue result → IsWhole self.now }
        ensures faulted { IsFalse result → ¬ IsWhole self.now }
    {
        match &self.report {
            Ok(report) => report.ended.is_whole(),
            Err(_) => false,
        }
    }

    /// Makes the end of a session none of whose threads could be started.
    pub(crate) fn unstarted() -> Finished
        ensures { result ≡ not_started }
    {
        Finished {
            report: Err(SessionFault::Start),
            idle: false,
            too_long: false,
        }
    }

    /// Returns the number of entries that went to its job.
    pub(crate) fn entries(&self) -> u64 {
        match &self.report {
            Ok(report) => report.entries,
            Err(_) => 0,
        }
    }
}
