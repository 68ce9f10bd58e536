//! A talk with a service.

ghost use Rattle.std.specs.{IoError.error_kind, Io.KnownBytes.IsAtEnd, Prelude.{◌≡◌, ◌≢◌, ◌⊎◌, ℕ, Bool}};
ghost use Rattle.std.specs.Prelude.{List, Option, [], false, not, true, IfOk, IsFalse, IsTrue, OnOk, length};
ghost use Rattle.tn_lines.specs.Ending.{ClosesAt, Ends, ReadsFail, WritesFail, broken_unless, has_broken};
ghost use Rattle.tn_lines.specs.{Logs.bytes_in, declared.line_ends.LineEnd.LineEnd, Openings.Listens};
ghost use Rattle.tn_lines.specs.Talking.{Begins, GoesOn, ShowsBytes, Talked, TypesKeys, streams};

use crate::fault::TalkFault;
use crate::left_edge::LeftEdge;
use crate::line_ends::LineEnd;
use crate::lines::Lines;
use crate::opening::Opening;
use crate::read_log::ReadLog;
use crate::ready::{Await, Ready, Wants};
use crate::unsent::Waiting;
use std::alloc::Global;
use std::io;
use std::io::ErrorKind;
use std::sync::Wait;
use tn_cores::streams::{Drain, Finish, Source, is_interrupted, write_all};

/// The number of bytes for which one read asks.
const PIECE_BYTES: usize = 4_096;

/// The end of a talk.
#[derive(Clone, Copy, PartialEq, Eq)]
pub enum Over {
    /// The service has closed.
    Closed,
    /// The connection is broken.
    Broken,
    /// The user left by an interrupt or a quit.
    Left,
    /// The user typed the command for the end.
    Asked,
}

/// A talk with a service: lines go to it, and its bytes are shown.
#[derive(Drop)]
pub struct Talk {
    lines: Lines,
    edge: LeftEdge,
    said: Vec<u8>,
    shown: Vec<u8>,
    waiting: Waiting,
    typed: ReadLog,
    heard: ReadLog,
    opening: Opening,
    keys_ended: bool,
    finished: bool,
}

impl Talk {
    /// Makes a talk of which nothing was read yet. Each line goes with this end. If the screen is a
    /// terminal in raw mode, a line feed goes back to its left edge.
    pub fn new(alloc: Global, line_end: LineEnd, at_terminal: bool) -> Talk
        ensures begins { Begins line_end at_terminal result }
    {
        Talk {
            lines: Lines::new(line_end),
            edge: LeftEdge::new(at_terminal),
            said: Vec::new(alloc),
            shown: Vec::new(alloc),
            waiting: Waiting::new(alloc),
            typed: ReadLog::new(),
            heard: ReadLog::new(),
            opening: Opening::Nothing,
            keys_ended: false,
            finished: false,
        }
    }

    /// Returns the number of bytes that wait to be sent.
    pub fn unsent(&self) -> usize
        ensures { result ≡ length self.now.waiting }
    {
        self.waiting.as_slice().len()
    }

    /// Returns the logs of the keys that were read, and of the service's bytes.
    pub fn into_logs(self) -> (ReadLog, ReadLog)
        ensures typed { bytes_in result.0 ≡ bytes_in self.typed }
        ensures heard { bytes_in result.1 ≡ bytes_in self.heard }
    {
        let Talk { typed, heard, .. } = self;
        (typed, heard)
    }

    // Reads keys, and lets the bytes to be sent for them wait. It reads none while bytes wait.
    fn take_keys<K: Source>(&mut self, keys: &mut K) -> Result<(), TalkFault>
        ensures { OnOk result ((service told screen : Option (List ℕ)) (warned : Option ℕ) →
            GoesOn (streams (K.remaining keys.old) service told screen warned) self.old
            (streams (K.remaining keys.new) service told screen warned) self.new) }
    {
        if self.unsent() > 0 {
            return Ok(());
        }
        let mut piece = [0; PIECE_BYTES];
        match keys.read_some(&mut piece) {
            Ok(0) => {
                self.keys_ended = true;
                Ok(())
            },
            Ok(count) => self.type_keys(&piece[..count]),
            Err(error) if is_interrupted(&error) => Ok(()),
            Err(_) => Err(TalkFault::Keys),
        }
    }

    // Takes these keys, and lets the bytes to be sent for them wait.
    fn type_keys(&mut self, piece: &[u8]) -> Result<(), TalkFault>
        ensures { OnOk result (TypesKeys piece.now self.old self.new) }
    {
        self.lines.take(piece, &mut self.said)?;
        self.typed.add(piece);
        self.waiting.refill(&mut self.said);
        Ok(())
    }

    // Reads the service's bytes, and shows them. It returns how the talk ended, if it did.
    fn take_bytes<A: Await, N: Source, S: Drain>(
        &mut self,
        ready: &mut A,
        service: &mut N,
        screen: &mut S,
    ) -> Result<Option<Over>, TalkFault>
        ensures goes_on { OnOk result ((keys told : Option (List ℕ)) →
            GoesOn (streams keys (N.remaining service.old) told (S.contents screen.old)
            (A.warned ready.old)) self.old
            (streams keys (N.remaining service.new) told (S.contents screen.new)
            (A.warned ready.new)) self.new) }
        ensures closes { IfOk result (λ over. ClosesAt over (N.remaining service.new)) }
        ensures reads { IfOk result (λ over.
            ReadsFail (has_broken over) (N.foretold service.old) (N.foretold service.new)) }
    {
        let mut piece = [0; PIECE_BYTES];
        match service.read_some(&mut piece) {
            Ok(0) => Ok(Some(Over::Closed)),
            Ok(count) => {
                self.show(&piece[..count], ready, screen)?;
                Ok(None)
            },
            Err(error) if is_for_later(&error) => Ok(None),
            Err(_) => Ok(Some(Over::Broken)),
        }
    }

    // Shows the bytes that came, and looks for Telnet in them.
    fn show<A: Await, S: Drain>(
        &mut self,
        piece: &[u8],
        ready: &mut A,
        screen: &mut S,
    ) -> Result<(), TalkFault>
        ensures { OnOk result
            (ShowsBytes piece.now (S.contents screen.old) (A.warned ready.old) self.old
            (S.contents screen.new) (A.warned ready.new) self.new) }
    {
        listen(&mut self.opening, piece, ready);
        self.heard.add(piece);
        self.edge.take(piece, &mut self.shown)?;
        if !write_all(screen, &self.shown) {
            return Err(TalkFault::Screen);
        }
        Ok(())
    }

    // Sends the service the bytes that wait, as far as it takes them at once. It returns whether
    // the connection stands.
    fn tell<W: Drain>(&mut self, writer: &mut W) -> bool
        ensures goes_on { (keys service screen : Option (List ℕ)) (warned : Option ℕ) →
            GoesOn (streams keys service (W.contents writer.old) screen warned) self.old
            (streams keys service (W.contents writer.new) screen warned) self.new }
        ensures writes { WritesFail (not result) (W.told writer.old) (W.told writer.new) }
    {
        if self.unsent() == 0 {
            return true;
        }
        match writer.write_some(self.waiting.as_slice()) {
            Ok(0) => false,
            Ok(count) => {
                self.waiting.take(count);
                true
            },
            Err(error) => is_for_later(&error),
        }
    }

    // Returns whether the end of the stream is due to the service.
    fn is_to_finish(&self) -> bool {
        if self.finished || self.unsent() > 0 {
            return false;
        }
        self.keys_ended
    }

    fn finish<W: Finish>(&mut self, writer: &mut W)
        ensures goes_on { (keys service screen : Option (List ℕ)) (warned : Option ℕ) →
            GoesOn (streams keys service (W.contents writer.old) screen warned) self.old
            (streams keys service (W.contents writer.new) screen warned) self.new }
        ensures told { W.told writer.new ≡ W.told writer.old }
    {
        if self.is_to_finish() {
            writer.finish();
            self.finished = true;
        }
    }

    fn wants(&self) -> Wants {
        let room = self.unsent() > 0;
        Wants {
            keys: !room && !self.keys_ended,
            room,
            end: self.is_to_finish(),
        }
    }

    // Does what can be done next. Returns how the talk ended, if it did.
    fn turn<A: Await, K: Source, N: Source, W: Finish, S: Drain>(
        &mut self,
        ready: &mut A,
        keys: &mut K,
        service: &mut N,
        writer: &mut W,
        screen: &mut S,
    ) -> Result<Option<Over>, TalkFault>
        ensures goes_on { OnOk result (GoesOn
            (streams (K.remaining keys.old) (N.remaining service.old) (W.contents writer.old)
            (S.contents screen.old) (A.warned ready.old)) self.old
            (streams (K.remaining keys.new) (N.remaining service.new) (W.contents writer.new)
            (S.contents screen.new) (A.warned ready.new)) self.new) }
        ensures ends { IfOk result (λ over. Ends over (N.remaining service.new)
            (N.foretold service.old) (N.foretold service.new)
            (W.told writer.old) (W.told writer.new)) }
    {
        match ready.next(self.wants()) {
            Ready::Keys => {
                self.take_keys(keys)?;
                Ok(None)
            },
            Ready::Bytes => {
                let over = self.take_bytes(ready, service, screen)?;
                Ok(over)
            },
            Ready::Room => {
                let stands = self.tell(writer);
                Ok(broken_unless(stands))
            },
            Ready::End => {
                self.finish(writer);
                Ok(None)
            },
            Ready::Interrupt => Ok(Some(Over::Left)),
            Ready::Leave => Ok(Some(Over::Asked)),
        }
    }

    /// Talks until the service has closed, the connection is broken, or the user has left, and
    /// returns which of them ended the talk. The logs hold the keys that were read, and the
    /// service's bytes.
    ///
    /// # Errors
    ///
    /// `TalkFault` says why the talk ended early.
    pub fn run<H: Wait, A: Await, K: Source, N: Source, W: Finish, S: Drain>(
        &mut self,
        rt: &H,
        ready: &mut A,
        keys: &mut K,
        service: &mut N,
        writer: &mut W,
        screen: &mut S,
    ) -> Result<Over, TalkFault>
        ensures goes_on { OnOk result (GoesOn
            (streams (K.remaining keys.old) (N.remaining service.old) (W.contents writer.old)
            (S.contents screen.old) (A.warned ready.old)) self.old
            (streams (K.remaining keys.new) (N.remaining service.new) (W.contents writer.new)
            (S.contents screen.new) (A.warned ready.new)) self.new) }
        ensures talked { (line_end : LineEnd) (at_terminal : Bool) →
            Begins line_end at_terminal self.old →
            OnOk result (Talked line_end at_terminal
            (bytes_in self.new.typed) (bytes_in self.new.heard) self.new.waiting
            (streams (K.remaining keys.old) (N.remaining service.old) (W.contents writer.old)
            (S.contents screen.old) (A.warned ready.old))
            (streams (K.remaining keys.new) (N.remaining service.new) (W.contents writer.new)
            (S.contents screen.new) (A.warned ready.new))) }
        ensures closed { IfOk result (λ over. over ≡ Over.Closed →
            IsAtEnd (N.remaining service.new)) }
        ensures broken { IfOk result (λ over. over ≡ Over.Broken →
            ReadsFail true (N.foretold service.old) (N.foretold service.new)
            ⊎ WritesFail true (W.told writer.old) (W.told writer.new)) }
    {
        for _ in rt.forever() {
            if let Some(over) = self.turn(ready, keys, service, writer, screen)? {
                return Ok(over);
            }
        }
        unreachable!()
    }
}

// Takes the bytes that came, and reports if with them the service shows that it speaks Telnet.
fn listen<A: Await>(opening: &mut Opening, piece: &[u8], ready: &mut A)
    ensures { Listens piece.now opening.old (A.warned ready.old) opening.new (A.warned ready.new) }
{
    if opening.hear(piece) {
        ready.hear_telnet();
    }
}

fn broken_unless(stands: bool) -> Option<Over>
    ensures { result ≡ broken_unless stands }
{
    if stands { None } else { Some(Over::Broken) }
}

// Returns whether the call is to be made again later.
fn is_for_later(error: &io::Error) -> bool
    ensures again { IsTrue result → (error_kind error.now ≡ ErrorKind.Interrupted)
        ⊎ (error_kind error.now ≡ ErrorKind.WouldBlock) }
    ensures failed { IsFalse result → error_kind error.now ≢ ErrorKind.Interrupted }
{
    matches!(error.kind(), ErrorKind::Interrupted | ErrorKind::WouldBlock)
}
