//! A text that a session's user reads first.

ghost use Rattle.std.specs.Prelude.{◌≡◌, IsFalse, Some};

use crate::services::sending::silent;
use std::alloc::{AllocError, Global};
use std::mem;
use tn_discipline::{Entry, Text};
use tn_jobs::{After, Job, Reaction};
use tn_session::Maker;

/// A job of a session whose user is greeted.
#[derive(Drop)]
pub enum Greeted<J> {
    /// A job of the session's own.
    Answers(J),
    /// The job that shows this text, in the background, and is done.
    Greets(Text),
}

impl<J: Job> Job for Greeted<J> {
    ghost use Rattle.tn_serve.specs.services.Greeting.{IsFresh, MayRefuse, Reacts, Steps};

    ghost fresh = { λ job. IsFresh J.fresh job };

    ghost reacts = { λ old entry reaction new. Reacts J.reacts old entry reaction new };

    ghost steps = { λ old reaction new. Steps J.steps old reaction new };

    ghost refuses = { λ job entry. MayRefuse J.refuses job entry };

    // Answers an entry; the job that greets gets none.
    fn entry(&mut self, alloc: Global, entry: Entry) -> Result<Reaction, AllocError> {
        match self {
            Greeted::Answers(job) => {
                let reaction = job.entry(alloc, entry)?;
                Ok(reaction)
            },
            Greeted::Greets(_) => Ok(silent(alloc, After::Done)),
        }
    }

    fn step(&mut self, alloc: Global) -> Result<Reaction, AllocError> {
        match self {
            Greeted::Answers(job) => {
                let reaction = job.step(alloc)?;
                Ok(reaction)
            },
            Greeted::Greets(greeting) => {
                let text = mem::replace(greeting, Text::from(Vec::new(alloc)));
                let after = After::Done;
                Ok(Reaction { text, after })
            },
        }
    }
}

/// A maker of the jobs of another maker, and after the first of them one that greets the session's
/// user. The text is shown as soon as the session has begun. A line that was sent before that may
/// be answered first.
#[derive(Drop)]
pub struct Greeting<M> {
    maker: M,
    // The text that is still to be shown.
    text: Option<Text>,
    // Whether the first job was asked for.
    begun: bool,
}

impl<M> Greeting<M> {
    /// Makes the jobs of `maker` with one that shows this text first.
    pub fn new(maker: M, text: Text) -> Greeting<M>
        ensures maker { result.maker ≡ maker }
        ensures text { result.text ≡ Some text }
        ensures begun { IsFalse result.begun }
    {
        Greeting {
            maker,
            text: Some(text),
            begun: false,
        }
    }
}

impl<M: Maker + Drop> Maker for Greeting<M> {
    ghost use Rattle.tn_serve.specs.services.Greeting.{GivesJob};

    type Job = Greeted<M::Job>;

    ghost gives = { λ old job new. GivesJob M.gives old job new };

    fn next(&mut self, alloc: Global) -> Result<Option<Greeted<M::Job>>, AllocError> {
        if self.begun {
            if let Some(text) = self.text.take() {
                return Ok(Some(Greeted::Greets(text)));
            }
        }
        self.begun = true;
        match self.maker.next(alloc) {
            Ok(Some(job)) => Ok(Some(Greeted::Answers(job))),
            Ok(None) => Ok(None),
            Err(fault) => Err(fault),
        }
    }
}
