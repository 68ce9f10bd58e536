//! The job of each session.

ghost use Rattle.std.specs.Prelude.{◌≡◌, ◌++◌, None, IfOk};
ghost use Rattle.tn_example_service.specs.Greeting.{says};

use std::alloc::{AllocError, Global};
use std::io::Write;
use tn_discipline::{Entry, Text};
use tn_jobs::{After, Job, Reaction};
use tn_serve::Hook;

/// Asks each user for a name and a password, which is not echoed, and greets the name. Any password will do.
#[derive(Drop)]
pub(crate) struct Greeter {
    // The name that was typed, until its password is.
    name: Option<Text>,
    // By it the size of the client's window is known.
    hook: Option<Hook>,
}

impl Greeter {
    /// Makes a job that has asked for no password yet.
    pub(crate) fn new(hook: Option<Hook>) -> Greeter
        ensures { result.name ≡ None }
    {
        Greeter { name: None, hook }
    }

    // Shows the size of the client's window, and asks for a name.
    fn show_size(&self, alloc: Global) -> Result<Reaction, AllocError>
        ensures { IfOk result (λ reaction. reaction.after ≡ After.Show) }
    {
        let mut text = Vec::new(alloc);
        if let Some(hook) = &self.hook {
            let size = hook.window();
            let _ = write!(text, "\n{} columns, {} lines", size.width, size.height);
        }
        text.extend_from_slice(b"\nname?\n")?;
        Ok(Reaction {
            text: Text::from(text),
            after: After::Show,
        })
    }
}

impl Job for Greeter {
    ghost use Rattle.std.specs.Prelude.{◌≡◌, None};
    ghost use Rattle.tn_discipline.specs.declared.reads.Entry.TheVariants.{Eof};
    ghost use Rattle.tn_example_service.specs.Greeting.{Answers, asked, bye};

    ghost fresh = { λ job. job.name ≡ None };

    ghost reacts = { λ old entry reaction new. Answers entry old.name reaction
        × (new.name ≡ asked entry old.name) };

    ghost steps = { λ old reaction new. reaction ≡ bye };

    fn entry(&mut self, alloc: Global, entry: Entry) -> Result<Reaction, AllocError> {
        match (self.name.take(), entry) {
            (None, Entry::Text(name)) => {
                let reaction = say(alloc, b"password: ", b"", After::Hide)?;
                self.name = Some(name);
                Ok(reaction)
            },
            (Some(name), Entry::Text(_)) => {
                say(alloc, b"\nhello, ", name.as_slice(), After::Show)
            },
            (_, Entry::Signal(_)) => self.show_size(alloc),
            (_, Entry::Eof) => say(alloc, b"bye\n", b"", After::Done),
        }
    }

    // The job stands in the foreground, so no step is ever asked for.
    fn step(&mut self, alloc: Global) -> Result<Reaction, AllocError> {
        say(alloc, b"bye\n", b"", After::Done)
    }
}

// Returns both texts, one after the other.
fn say(alloc: Global, first: &[u8], rest: &[u8], after: After) -> Result<Reaction, AllocError>
    ensures { IfOk result (λ reaction. reaction ≡ says (first.now ++ rest.now) after) }
{
    let mut text = Vec::new(alloc);
    text.extend_from_slice(first)?;
    text.extend_from_slice(rest)?;
    let text = Text::from(text);
    Ok(Reaction { text, after })
}
