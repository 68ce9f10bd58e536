//! The jobs that a session runs: they read the terminal's entries and write to its screen.

ghost use Rattle.std.specs.Prelude.{Option, Some, None, IfOk, IfErr};

use crate::verdicts::After;
use std::alloc::{AllocError, Global};
use tn_discipline::{Entry, Text};

/// The answer of a job to an entry, or to a step of its own: the text that it writes, and what
/// comes next.
#[derive(Drop)]
pub struct Reaction {
    pub text: Text,
    pub after: After,
}

/// A job of a session. It names the facts that hold of it before its first call, and those that its
/// calls promise.
pub trait Job: Drop {
    ghost use Rattle.tn_discipline.specs.declared.reads.Entry.{Entry};
    ghost use Rattle.tn_jobs.specs.declared.reactions.Reaction.{Reaction};

    /// The job has done nothing yet.
    ghost fresh: { Self → Type 0 };

    /// From the first state to the last, the job answers this entry by this reaction.
    ghost reacts: { Self → Entry → Reaction → Self → Type 0 };

    /// From the first state to the last, the job makes a step of its own with this reaction.
    ghost steps: { Self → Reaction → Self → Type 0 };

    /// Memory may run out for the job at this entry, or at a step of its own. A job that names no
    /// fact promises nothing of it.
    ghost refuses: { Self → Option Entry → Type 0 } = { λ _ _. Unit {0} };

    /// Answers an entry that was read for the job.
    fn entry(&mut self, alloc: Global, entry: Entry) -> Result<Reaction, AllocError>
        ensures answers { IfOk result (λ reaction. reacts self.old entry reaction self.new) }
        ensures refused { IfErr result (λ _. refuses self.old (Some entry)) };

    /// Makes a step of the job without reading.
    fn step(&mut self, alloc: Global) -> Result<Reaction, AllocError>
        ensures stepped { IfOk result (λ reaction. steps self.old reaction self.new) }
        ensures refused { IfErr result (λ _. refuses self.old None) };
}
