//! The job of a served session, which answers what its user types.

ghost use Rattle.std.specs.Prelude.{◌≡◌, Some, IfOk, IfErr};
ghost use Rattle.tn_serve.specs.services.Answering.{MayRefuse, say, answer_line};

use std::alloc::{AllocError, Global};
use tn_discipline::{Entry, Sig, Text};
use tn_jobs::{After, Job, Reaction};

/// A job of a served session. In the foreground it writes each line back; the line `exit` and the
/// end of file end it with `bye`, and it names a signal. In the background it ticks as often as is
/// left.
#[derive(Drop)]
pub struct Answerer {
    // The number of ticks for which it was made, and the number of them that are left.
    ticks: u16,
    left: u16,
}

impl Answerer {
    /// Makes a job of this number of ticks, one at each step in the background. In the foreground
    /// it makes none.
    pub fn new(ticks: u16) -> Self
        ensures ticks { result.ticks ≡ ticks }
        ensures left { result.left ≡ ticks }
    {
        Answerer { ticks, left: ticks }
    }
}

impl Job for Answerer {
    ghost use Rattle.std.specs.Prelude.{◌≡◌};
    ghost use Rattle.tn_serve.specs.services.Answering.{answer, IsFresh, IsStep, MayRefuse};

    ghost fresh = { λ job. IsFresh job };

    ghost reacts = { λ old entry reaction new. (reaction ≡ answer entry) × (new ≡ old) };

    ghost steps = { λ old reaction new. IsStep old reaction new };

    ghost refuses = { λ job entry. MayRefuse entry };

    fn entry(&mut self, alloc: Global, entry: Entry) -> Result<Reaction, AllocError> {
        match entry {
            Entry::Text(line) => answer_line(alloc, line),
            Entry::Eof => say(alloc, "bye\n", After::Done),
            Entry::Signal(Sig::Int) => say(alloc, "int\n", After::Stay),
            Entry::Signal(Sig::Quit) => say(alloc, "quit\n", After::Stay),
            Entry::Signal(Sig::Tstp) => say(alloc, "tstp\n", After::Stop),
        }
    }

    fn step(&mut self, alloc: Global) -> Result<Reaction, AllocError> {
        let after = if self.left <= 1 {
            After::Done
        } else {
            After::Stay
        };
        let reaction = say(alloc, "tick\n", after)?;
        self.left = self.left.saturating_sub(1);
        Ok(reaction)
    }
}

fn answer_line(alloc: Global, line: Text) -> Result<Reaction, AllocError>
    ensures answers { IfOk result (λ reaction. reaction ≡ answer_line line) }
    ensures refused { IfErr result (λ _. MayRefuse (Some (Entry.Text line))) }
{
    if line.as_slice() == b"exit\n".as_slice() {
        return say(alloc, "bye\n", After::Done);
    }
    Ok(Reaction {
        text: line,
        after: After::Stay,
    })
}

fn say(alloc: Global, words: &str, after: After) -> Result<Reaction, AllocError>
    ensures { IfOk result (λ reaction. reaction ≡ say words.now after) }
{
    let mut text = Vec::new(alloc);
    text.extend_from_slice(words.as_bytes())?;
    Ok(Reaction {
        text: Text::from(text),
        after,
    })
}
