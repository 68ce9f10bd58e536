//! The job in the foreground: each line that the user enters goes to the service.

ghost use Rattle.std.specs.Prelude.{◌≡◌, [], ◌∷◌, IfErr, IfOk, OnOk};
ghost use Rattle.tn_serve.specs.services.Sending.{GoesKey, SendsEntry, WantsMemory, WritesBytes, WritesNothing, ended};
ghost use Rattle.tn_serve.specs.services.Sending.{is_sent, kill_answer, say, silent, way_after};
ghost use Rattle.tn_lines.specs.LineEnds.{line_said};
ghost use Rattle.tn_cores.specs.streams.Known.{known_writing};

use crate::services::cutting::{HearsCut, LineFormat};
use crate::services::line_ends::line_sent;
use std::alloc::{AllocError, Global};
use tn_cores::streams::write_all;
use tn_discipline::{Entry, Sig, Text};
use tn_jobs::{After, Reaction};
use tn_session::Finish;

/// The keys of signals and of the end of file at a terminal with standard settings.
pub(crate) const INTERRUPT: u8 = 3;

pub(crate) const QUIT: u8 = 28;

pub(crate) const STOP: u8 = 26;

pub(crate) const END_OF_FILE: u8 = 4;

/// Whether lines still go to the service.
#[derive(Clone, Copy, PartialEq, Eq)]
pub enum Way {
    Open,
    /// The user ended it.
    Ended,
    /// A write failed: the service takes no more, and its own bytes end too.
    Broken,
}

/// Sends each line to the service.
#[derive(Drop)]
pub struct SendingLines<W> {
    pub(crate) writer: W,
    pub(crate) lines: LineFormat,
    pub(crate) way: Way,
}

impl<W: Finish + HearsCut> SendingLines<W> {
    /// Answers an entry. A line goes to the service, or ends the session if it may have been
    /// truncated and that is wanted. The end of file ends the lines to the service, an interrupt
    /// and a quit end the session too, and a stop does nothing; but if signals are to be sent, each
    /// of these goes to the service as a byte. Out of memory nothing is sent.
    pub(crate) fn answer(&mut self, alloc: Global, entry: Entry) -> Result<Reaction, AllocError>
        ensures answers { IfOk result (λ reaction.
            SendsEntry W.contents W.told self.old entry reaction self.new) }
        ensures refused { IfErr result (λ _. WantsMemory self.old entry) }
    {
        match entry {
            Entry::Text(line) => self.answer_line(alloc, line),
            Entry::Eof => {
                let _sent = self.send_or_end(END_OF_FILE);
                Ok(silent(alloc, After::Stay))
            },
            Entry::Signal(Sig::Int) => Ok(self.answer_kill(alloc, INTERRUPT)),
            Entry::Signal(Sig::Quit) => Ok(self.answer_kill(alloc, QUIT)),
            Entry::Signal(Sig::Tstp) => {
                if self.is_sent() {
                    self.send_key(STOP);
                }
                Ok(silent(alloc, After::Stay))
            },
        }
    }

    // Returns whether signals go to the service.
    fn is_sent(&self) -> bool
        ensures { result ≡ is_sent self.now.lines self.now.way }
    {
        match self.way {
            Way::Open => self.lines.sends_signals,
            Way::Ended | Way::Broken => false,
        }
    }

    // Ends the session, unless the byte of this signal goes to the service.
    fn answer_kill(&mut self, alloc: Global, byte: u8) -> Reaction
        ensures says { result ≡ kill_answer (is_sent self.old.lines self.old.way) }
        ensures goes { GoesKey (is_sent self.old.lines self.old.way) byte (ended self.old.way)
            (known_writing W.contents W.told self.old.writer self.new.writer) self.new.way }
        ensures lines { self.new.lines ≡ self.old.lines }
    {
        if self.send_or_end(byte) {
            return silent(alloc, After::Stay);
        }
        silent(alloc, After::Done)
    }

    // Sends the byte of a key, or ends the lines to the service. It returns whether the byte was
    // sent.
    fn send_or_end(&mut self, byte: u8) -> bool
        ensures sent { result ≡ is_sent self.old.lines self.old.way }
        ensures goes { GoesKey (is_sent self.old.lines self.old.way) byte (ended self.old.way)
            (known_writing W.contents W.told self.old.writer self.new.writer) self.new.way }
        ensures lines { self.new.lines ≡ self.old.lines }
    {
        if self.is_sent() {
            self.send_key(byte);
            return true;
        }
        self.end();
        false
    }

    // Sends the byte of a key.
    fn send_key(&mut self, byte: u8)
        ensures sent { WritesBytes (byte ∷ [])
            (known_writing W.contents W.told self.old.writer self.new.writer) self.new.way }
        ensures lines { self.new.lines ≡ self.old.lines }
    {
        let whole = write_all(&mut self.writer, &[byte]);
        self.way = way_after(whole);
    }

    fn answer_line(&mut self, alloc: Global, line: Text) -> Result<Reaction, AllocError>
        ensures answers { IfOk result (λ reaction.
            SendsEntry W.contents W.told self.old (Entry.Text line) reaction self.new) }
        ensures refused { IfErr result (λ _. WantsMemory self.old (Entry.Text line)) }
    {
        match self.way {
            Way::Open => self.answer_open(alloc, line),
            Way::Ended => say(alloc, "closed\n", After::Stay),
            Way::Broken => Ok(silent(alloc, After::Stay)),
        }
    }

    // Sends a line while the way is open.
    fn answer_open(&mut self, alloc: Global, line: Text) -> Result<Reaction, AllocError>
        requires { self.old.way ≡ Way.Open }
        ensures { IfOk result (λ reaction.
            SendsEntry W.contents W.told self.old (Entry.Text line) reaction self.new) }
    {
        if self.lines.is_full(line.as_slice()) {
            self.writer.hear_cut(line.as_slice().len());
        }
        if self.lines.is_ending(line.as_slice()) {
            let reaction = say(alloc, "line cut\n", After::Done)?;
            self.end();
            return Ok(reaction);
        }
        self.send(line)?;
        Ok(silent(alloc, After::Stay))
    }

    fn send(&mut self, line: Text) -> Result<(), AllocError>
        requires { self.old.way ≡ Way.Open }
        ensures sent { OnOk result (WritesBytes (line_said self.old.lines.line_end line)
            (known_writing W.contents W.told self.old.writer self.new.writer) self.new.way) }
        ensures lines { self.new.lines ≡ self.old.lines }
    {
        let bytes = line_sent(line, self.lines.line_end)?;
        let whole = write_all(&mut self.writer, &bytes);
        self.way = way_after(whole);
        Ok(())
    }

    // Ends the lines to the service.
    fn end(&mut self)
        ensures nothing { WritesNothing (known_writing W.contents W.told self.old.writer self.new.writer) }
        ensures way { self.new.way ≡ ended self.old.way }
        ensures lines { self.new.lines ≡ self.old.lines }
    {
        self.writer.finish();
        self.way = ended(self.way);
    }
}

// Returns the way once it is ended.
fn ended(way: Way) -> Way
    ensures { result ≡ ended way }
{
    match way {
        Way::Open | Way::Ended => Way::Ended,
        Way::Broken => Way::Broken,
    }
}

// Returns the way after a write, of which all went well, or not.
fn way_after(whole: bool) -> Way
    ensures { result ≡ way_after whole }
{
    if whole {
        return Way::Open;
    }
    Way::Broken
}

/// Makes a reaction without a text.
pub(crate) fn silent(alloc: Global, after: After) -> Reaction
    ensures { result ≡ silent after }
{
    Reaction {
        text: Text::from(Vec::new(alloc)),
        after,
    }
}

fn say(alloc: Global, words: &str, after: After) -> Result<Reaction, AllocError>
    ensures { IfOk result (λ reaction. reaction ≡ say words.now after) }
{
    let mut text = Vec::new(alloc);
    text.extend_from_slice(words.as_bytes())?;
    Ok(Reaction {
        text: Text::from(text),
        after,
    })
}
