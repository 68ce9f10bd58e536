//! The parties of a session, and its results.

ghost use Rattle.std.specs.Prelude.{◌≡◌, ℕ, Option, None, IfOk, IfSome};
ghost use Rattle.tn_session.specs.Makers.{MakesJob};

use crate::transcript::Transcript;
use crate::workers::{EntryPass, MailPass, StopPass};
use std::alloc::{AllocError, Global};
use tn_cores::{Ended, Gate, Place};
use tn_jobs::Job;

/// A maker of the jobs of a session: the first is the foreground job, and up to fifteen more run in
/// the background.
pub trait Maker {
    type Job: Job;

    // The number of jobs that are still to be made, if the maker reports it.
    ghost left: { Self → Option ℕ } = { λ _. None };

    // From the first state to the last, the maker gives this job.
    ghost gives: { Self → Self.Job → Self → Type 0 } = { λ _ _ _. Unit {0} };

    /// Returns the next job, which has done nothing yet; `None` if there is no more.
    ///
    /// # Errors
    ///
    /// - `AllocError`: there is no memory, which may happen only if a job is still to be made.
    fn next(&mut self, alloc: Global) -> Result<Option<Self::Job>, AllocError>
        ensures fresh { IfOk result (λ next. IfSome next (λ job. Self.Job.fresh job)) }
        ensures makes { MakesJob (left self.old) (left self.new) result }
        ensures gives { IfOk result (λ next. IfSome next (λ job. gives self.old job self.new)) };
}

/// A gate that does nothing, for threads that nothing watches.
#[derive(Drop)]
pub struct Unwatched;

impl Gate for Unwatched {
    fn at(&self, _place: Place) {}
}

/// The report of a session at its end; a client's has no entries and no stops. A count that has
/// reached the greatest `u64` stays there.
#[derive(Clone, Copy, Debug, PartialEq, Eq)]
pub struct Report {
    pub ended: Ended,
    /// The number of pieces that had their effect.
    pub pieces: u64,
    /// The number of entries that went to the foreground job.
    pub entries: u64,
    /// The number of stops of the foreground job.
    pub stops: u64,
}

/// The passes of the channels, in which contracts see what was sent and handled, and whether the
/// thread of the background jobs was asked to stop; and the actions of the terminal, in order.
#[derive(Drop)]
pub struct Ports {
    pub net: MailPass,
    pub desk: MailPass,
    pub back: MailPass,
    pub term: MailPass,
    pub put: EntryPass,
    pub took: EntryPass,
    pub told: StopPass,
    pub transcript: Transcript,
}

/// The passes of a client session's channels, in which contracts see what was sent and handled, and
/// whether the thread that reads the keys was asked to stop; and the actions of the core, in order.
#[derive(Drop)]
pub struct ClientPorts {
    pub keys: MailPass,
    pub net: MailPass,
    pub core: MailPass,
    pub told: StopPass,
    pub transcript: Transcript,
}
