//! The transcript of a session's core, noted as the core acts.

ghost use Rattle.std.specs.Prelude.{◌≡◌, ◌∷◌, [], List, None, Some, IfSome, IsTrue};
ghost use Rattle.crossbeam_channel.specs.{Claims.{view, IsSeatAt}, Ends.receives_on};
ghost use Rattle.tn_session.specs.{workers.Mailbox.handed, declared.workers.mail.Mail.Mail as MailT};
ghost use Rattle.tn_session.specs.Notes.{NotesWrite, no_notes, noted_of, takes, writes};
ghost use Rattle.tn_cores.specs.streams.{Writing.Tells, Sending.StaysOpen};

use crate::workers::{Handles, Mail, MailPass, MailReceiver};
use std::alloc::Global;
use std::mem;
use std::snapshot::Snapshot;
use std::sync::Wait;
use tn_cores::streams::{Drain, write_front};

/// A private mark: only calls of this module make one, so that only they extend a transcript.
#[derive(Drop)]
pub struct Seal {
    hidden: (),
}

/// The actions of the core of a session, for contracts: which messages it took, and which bytes it
/// wrote to the network before it took the next (`specs/Notes.antt`). Only a call that takes a
/// message, or writes, notes it. At run time a transcript holds none of this but the last byte.
#[derive(Drop)]
pub enum Transcript {
    Begun(Seal),
    Took(Seal, Snapshot<Transcript>, Snapshot<Mail>),
    Wrote(Seal, Snapshot<Transcript>, u8),
}

impl Transcript {
    /// Makes the transcript of a core that has taken and written nothing.
    pub(crate) fn new() -> Transcript
        ensures { noted_of result ≡ no_notes }
    {
        Transcript::Begun(Seal { hidden: () })
    }

    // Adds to the transcript that this message was taken.
    fn taking(self, mail: &Mail) -> Transcript
        ensures { noted_of result ≡ takes (noted_of self) mail.now }
    {
        let before = Snapshot::of(&self);
        Transcript::Took(Seal { hidden: () }, before, Snapshot::of(mail))
    }

    // Adds to the transcript that this byte was written.
    fn writing_one(self, byte: u8) -> Transcript
        ensures { noted_of result ≡ writes (noted_of self) (byte ∷ []) }
    {
        let before = Snapshot::of(&self);
        Transcript::Wrote(Seal { hidden: () }, before, byte)
    }

    // Adds to the transcript that these bytes were written.
    fn writing(self, bytes: &[u8]) -> Transcript
        ensures { noted_of result ≡ writes (noted_of self) bytes.now }
    {
        let mut transcript = self;
        for byte in bytes {
            transcript = transcript.writing_one(*byte);
        }
        transcript
    }

    // Notes that this message was taken.
    fn note(&mut self, mail: &Mail)
        ensures { noted_of self.new ≡ takes (noted_of self.old) mail.now }
    {
        *self = mem::replace(self, Transcript::new()).taking(mail);
    }

    /// Takes the next message. It returns `None` if the other end of the mailbox is gone.
    pub(crate) fn take<R: Wait>(
        &mut self,
        rt: &R,
        from: &MailReceiver,
        pass: &mut MailPass,
    ) -> Option<Mail>
        requires seat { IsSeatAt (receives_on from.now) pass.old }
        requires role { (l : List MailT) × ((view pass.old).handled ≡ Some l) }
        ensures seat { IsSeatAt (receives_on from.now) pass.new }
        ensures handled { IfSome result (λ mail. view pass.new ≡ handed (view pass.old) mail) }
        ensures noted { IfSome result (λ mail. noted_of self.new ≡ takes (noted_of self.old) mail) }
    {
        let Ok(mail) = from.recv_as::<Handles, R>(rt, pass) else {
            return None;
        };
        self.note(&mail);
        Some(mail)
    }

    /// Takes the next message if one waits.
    pub(crate) fn look<R: Wait>(
        &mut self,
        rt: &R,
        from: &MailReceiver,
        pass: &mut MailPass,
    ) -> Option<Mail>
        requires seat { IsSeatAt (receives_on from.now) pass.old }
        requires role { (l : List MailT) × ((view pass.old).handled ≡ Some l) }
        ensures seat { IsSeatAt (receives_on from.now) pass.new }
        ensures handled { IfSome result (λ mail. view pass.new ≡ handed (view pass.old) mail) }
        ensures noted { IfSome result (λ mail. noted_of self.new ≡ takes (noted_of self.old) mail) }
        ensures none { result ≡ None → view pass.new ≡ view pass.old }
        ensures none_noted { result ≡ None → noted_of self.new ≡ noted_of self.old }
    {
        let Ok(mail) = from.try_recv_as::<Handles, R>(rt, pass) else {
            return None;
        };
        self.note(&mail);
        Some(mail)
    }

    /// Writes these bytes, or the first of them if a write fails. A write that takes none has
    /// failed.
    pub(crate) fn write_out<W: Drain>(&mut self, writer: &mut W, bytes: &[u8]) -> bool
        ensures writes { NotesWrite result (W.contents writer.old) (W.contents writer.new) bytes.now
            (noted_of self.old) (noted_of self.new) }
        ensures tells { Tells result (W.told writer.old) (W.told writer.new) }
        ensures none { bytes.now ≡ [] → IsTrue result }
        ensures going { StaysOpen (W.sending writer.old) (W.sending writer.new) }
        ensures silent { bytes.now ≡ [] → W.sending writer.new ≡ W.sending writer.old }
    {
        let count = write_front(writer, bytes);
        *self = mem::replace(self, Transcript::new()).writing(&bytes[..count]);
        count == bytes.len()
    }
}

/// The bytes that the core of a session is to write, and the transcript of its actions.
#[derive(Drop)]
pub(crate) struct Output {
    pub(crate) out: Vec<u8>,
    pub(crate) transcript: Transcript,
}

impl Output {
    /// Makes an output with nothing to write, and an empty transcript.
    pub(crate) fn new(alloc: Global) -> Output
        ensures out { result.out.items ≡ [] }
        ensures transcript { noted_of result.transcript ≡ no_notes }
    {
        Output {
            out: Vec::new(alloc),
            transcript: Transcript::new(),
        }
    }

    /// Writes the bytes that are to be written, or the first of them if a write fails. The rest is
    /// dropped.
    pub(crate) fn write_out<W: Drain>(&mut self, writer: &mut W) -> bool
        ensures out { self.new.out.items ≡ [] }
        ensures writes { NotesWrite result (W.contents writer.old) (W.contents writer.new)
            self.old.out.items
            (noted_of self.old.transcript) (noted_of self.new.transcript) }
        ensures tells { Tells result (W.told writer.old) (W.told writer.new) }
        ensures none { self.old.out.items ≡ [] → IsTrue result }
        ensures going { StaysOpen (W.sending writer.old) (W.sending writer.new) }
        ensures silent { self.old.out.items ≡ [] → W.sending writer.new ≡ W.sending writer.old }
    {
        let written = self.transcript.write_out(writer, &self.out);
        self.out.clear();
        written
    }
}
