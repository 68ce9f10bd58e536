//! A job of a session that is joined to a service.

ghost use Rattle.std.specs.Prelude.{◌≡◌};

use crate::services::cutting::HearsCut;
use crate::services::sending::{SendingLines, silent};
use crate::services::showing::Showing;
use std::alloc::{AllocError, Global};
use tn_cores::streams::Source;
use tn_discipline::Entry;
use tn_jobs::{After, Job, Reaction};
use tn_session::Finish;

/// A job of a session that is joined to a service by a reader and a writer.
#[derive(Drop)]
pub enum Gateway<R, W> {
    /// The job in the foreground.
    Sends(SendingLines<W>),
    /// The job in the background.
    Shows(Showing<R>),
}

impl<R: Source + Drop, W: Finish + HearsCut + Drop> Job for Gateway<R, W> {
    ghost use Rattle.tn_serve.specs.services.Joining.{IsFresh, MayRefuse, Reacts, Steps};

    ghost fresh = { λ job. IsFresh job };

    ghost reacts = { λ old entry reaction new. Reacts W.contents W.told old entry reaction new };

    ghost steps = { λ old reaction new. Steps R.remaining R.foretold R.sizes R.words old reaction new };

    ghost refuses = { λ job entry. MayRefuse job entry };

    // Answers an entry; the job in the background gets none.
    fn entry(&mut self, alloc: Global, entry: Entry) -> Result<Reaction, AllocError> {
        match self {
            Gateway::Sends(sending) => {
                let reaction = sending.answer(alloc, entry)?;
                Ok(reaction)
            },
            Gateway::Shows(_) => Ok(silent(alloc, After::Stay)),
        }
    }

    // Makes a step; the job in the foreground makes none.
    fn step(&mut self, alloc: Global) -> Result<Reaction, AllocError> {
        match self {
            Gateway::Sends(_) => Ok(silent(alloc, After::Done)),
            Gateway::Shows(showing) => {
                let reaction = showing.step(alloc)?;
                Ok(reaction)
            },
        }
    }
}
