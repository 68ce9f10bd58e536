//! The service of a server: the jobs that it gives to its users.

ghost use Rattle.std.specs.Prelude.{IfOk};
ghost use Rattle.tn_serve.specs.{Makers.StillMakes, Turns.asked};

use crate::call::Call;
use crate::finished::Finished;
use crate::turns::Turn;
use std::alloc::{AllocError, Global};
use tn_jobs::Job;
use tn_session::Maker;

/// A service, which gives each session its jobs. Both calls come one after another from the thread
/// that serves, and so should not wait: slow work belongs in `Maker::next`, which is called in the
/// session's own thread, and in the jobs.
pub trait Service {
    ghost use Rattle.tn_serve.specs.declared.turns.Turn.{Turn};

    type Job: Job + Send + 'static;

    type Jobs: Maker<Job = Self::Job> + Drop + Send + 'static;

    // The service makes, from this state on, only such makers of a session's jobs.
    ghost makes: { Self → Self.Jobs → Type 0 } = { λ _ _. Unit {0} };

    // A call leads from the first state of the service to the last.
    ghost turns: { Self → Turn → Self → Type 0 } = { λ _ _ _. Unit {0} };

    /// Returns a maker of the jobs for the session of this connection.
    ///
    /// # Errors
    ///
    /// - `AllocError`: there is no memory. The connection is closed and counts as a session that
    ///   ended in a fault.
    fn session(&mut self, alloc: Global, call: Call) -> Result<Self::Jobs, AllocError>
        ensures makes { IfOk result (λ jobs. makes self.old jobs) }
        ensures still { StillMakes makes self.old self.new }
        ensures turns { turns self.old (asked call.number result) self.new };

    /// Takes the end of the session with this number, when its threads are joined, or none of them
    /// could be started. It is called once for each session whose jobs were made, before the number
    /// is given again.
    fn ended(&mut self, number: usize, finished: &Finished)
        ensures still { StillMakes makes self.old self.new }
        ensures turns { turns self.old (Turn.Ended number finished.now) self.new };
}
