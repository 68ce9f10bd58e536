//! Sends the bytes that wait, in a thread of its own.

ghost use Rattle.std.specs.Prelude.{◌≡◌, ◌≢◌, ℕ, List, None, IfOk, IfSome, OnOk, OnErr, true};
ghost use Rattle.std.specs.Io.KnownBytes.{Appends};
ghost use Rattle.crossbeam_channel.specs.{Claims.{view, IsSeatAt}, Ends.receives_on};
ghost use Rattle.tn_cores.specs.{queue.Queue.taken_more, streams.Sending.{IsFinished, StaysOpen}};
ghost use Rattle.tn_net.specs.Queue.{Piece as PieceT, IsNamed, IsSeatIn, TakesOn, WritesTaken};
ghost use Rattle.tn_net.specs.{Queue.WritesToTheEnd, Passing.Begins};

use crate::link::Link;
use crate::outgoing::Waiting;
use crate::pieces::{Piece, PiecePass, PieceReceiver, Queue, Takes};
use crossbeam_channel::Sender;
use std::alloc::Global;
use std::io;
use std::io::ErrorKind;
use std::marker::PhantomData;
use std::sync::{Arc, Wait};
use tn_cores::streams::{Drain, Finish, is_interrupted};

/// Sends what waits.
#[derive(Drop)]
pub struct Sending<H, W, Q: Queue> {
    pub(crate) rt: H,
    pub(crate) writer: W,
    pub(crate) from: PieceReceiver,
    pub(crate) pass: PiecePass,
    pub(crate) waiting: Arc<Waiting, Global>,
    pub(crate) sent: Sender<(), Global>,
    pub(crate) link: Arc<Link, Global>,
    pub(crate) at: PhantomData<Q>,
    ghost seated: { IsSeatAt (receives_on from) pass },
    ghost named: { IsNamed Q.table Q.key (receives_on from) },
    ghost takes: { (view pass).taken ≢ None },
}

/// The fate of all that was put.
#[derive(Clone, Copy, PartialEq, Eq)]
pub enum Sent {
    /// All was sent, up to its end.
    Whole,
    /// The user has left, or the screen takes no more: what came after a write that failed was discarded.
    Left,
    /// The other side is gone, and put no end.
    Cut,
}

impl<H: Copy + Wait, W: Drop + Finish, Q: Queue> Sending<H, W, Q> {
    // tools/progress: proctype Sending
    /// Sends all up to the end, and finishes the writer. Once the user has left, bytes that cannot
    /// be sent in time are discarded, and the link is ended.
    ///
    /// # Errors
    ///
    /// - The error of a write that failed; the link is ended, since the other end gets no more.
    pub fn run(&mut self) -> io::Result<Sent>
        ensures sent { WritesTaken (view self.old.pass) (view self.new.pass)
            (W.contents self.old.writer) (W.contents self.new.writer) }
        ensures whole { IfOk result (λ sent. sent ≡ Sent.Whole →
            WritesToTheEnd (view self.old.pass) (view self.new.pass)
            (W.contents self.old.writer) (W.contents self.new.writer)) }
        ensures finished { IfOk result (λ _. IsFinished (W.sending self.old.writer)
            (W.sending self.new.writer)) }
    {
        let rt = self.rt;
        for _ in rt.forever() {
            let Some(piece) = self.next() else {
                break;
            };
            let Some(bytes) = piece else {
                self.writer.finish();
                self.link.end_sending();
                return Ok(Sent::Whole);
            };
            if let Err(error) = send_whole(&mut self.writer, &bytes, &self.link, &self.waiting) {
                if !self.link.is_given_up() {
                    self.link.hang_up();
                    return Err(error);
                }
                self.note();
                self.discard();
                self.writer.finish();
                self.link.end_sending();
                return Ok(Sent::Left);
            }
            self.note();
        }
        self.writer.finish();
        self.link.end_sending();
        Ok(Sent::Cut)
    }

    /// Returns the writer, and the pass in which contracts see all that was taken.
    pub fn into_parts(self) -> (W, PiecePass)
        ensures writer { result.0 ≡ self.writer }
        ensures pass { result.1 ≡ self.pass }
        ensures seat { IsSeatIn Q.table Q.key result.1 }
    {
        let Sending { writer, pass, .. } = self;
        (writer, pass)
    }

    // Waits for the next piece. It returns `None` if the other side is gone.
    fn next(&mut self) -> Option<Piece>
        ensures writer { self.new.writer ≡ self.old.writer }
        ensures took { IfSome result (λ piece.
            view self.new.pass ≡ taken_more (view self.old.pass) piece) }
        ensures none { result ≡ None → view self.new.pass ≡ view self.old.pass }
    {
        match self.from.recv_as::<Takes, H>(&self.rt, &mut self.pass) {
            Ok(piece) => Some(piece),
            Err(_) => None,
        }
    }

    // Takes all that still comes.
    fn discard(&mut self)
        ensures writer { self.new.writer ≡ self.old.writer }
        ensures took { (pieces : List PieceT) × TakesOn (view self.old.pass) pieces (view self.new.pass) }
    {
        let rt = self.rt;
        for _ in rt.forever() {
            let Some(piece) = self.next() else {
                return;
            };
            let Some(_) = piece else {
                return;
            };
            self.note();
        }
    }

    // Notes that one write does not wait any more.
    fn note(&self) {
        self.waiting.remove_write();
        let _ = self.sent.try_send(&self.rt, ());
    }
}

// Writes these bytes, or the first of them if a write fails. A write that takes none has failed.
// Those that were written do not wait any more.
fn send_whole<W: Drain>(
    writer: &mut W,
    bytes: &[u8],
    link: &Link,
    waiting: &Waiting,
) -> io::Result<()>
    ensures whole { OnOk result (Appends (W.contents writer.old) (W.contents writer.new) bytes.now) }
    ensures begun { OnErr result (Begins (W.contents writer.old) (W.contents writer.new) bytes.now) }
    ensures going { StaysOpen (W.sending writer.old) (W.sending writer.new) }
{
    let mut at = 0;
    for _write in 0..u64::MAX {
        if at >= bytes.len() {
            return Ok(());
        }
        match writer.write_some(&bytes[at..]) {
            Ok(0) => return Err(io::Error::from(ErrorKind::WriteZero)),
            Ok(n) => {
                at += n;
                link.count_went(n);
                waiting.remove_bytes(n);
            },
            Err(error) if is_to_be_made_again(&error, link) => continue,
            Err(error) => return Err(error),
        }
    }
    Err(io::Error::from(ErrorKind::WriteZero))
}

// Returns whether a write is to be made again: a signal came, or it had to wait, and there is time.
fn is_to_be_made_again(error: &io::Error, link: &Link) -> bool {
    is_interrupted(error) || (error.kind() == ErrorKind::WouldBlock && !link.is_late())
}
