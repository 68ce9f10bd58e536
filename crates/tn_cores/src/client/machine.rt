//! The core of a client session; only the core uses the client end.

ghost use Rattle.std.specs.Prelude.{◌≡◌, ℕ, List, IsTrue, IsFalse, OnOk, OnErr, IfOk, IfErr, []};
ghost use Rattle.tn_cores.specs.client.Counting as counting;
ghost use Rattle.tn_cores.specs.client.{Marks.{no_write_failed, no_show_failed}, Reaching.IsTurn, Run.Run};
ghost use Rattle.tn_cores.specs.client.Reaching.{sent_bytes, LeadsTo, DoesWhole, StopsWithin, RefusesFor};
ghost use Rattle.tn_cores.specs.client.Terms.{terms_at};
ghost use Rattle.tn_cores.specs.client.Run as run;

use crate::client::commands::command_of;
use crate::client::messages::{ClientMark, Origin, Told};
use crate::client::progress::ClientProgress;
use crate::client::terms::Terms;
use crate::faults::SessionFault;
use crate::messages::Message;
use crate::streams::{Control, WindowSize};
use std::alloc::Global;
use tn_client::{ClientEnd, ClientFault};
use tn_codes::{EDIT, TRAPSIG};
use tn_discipline::Limit;
use tn_option::{ECHO, LINEMODE, QState, SUPPRESS_GO_AHEAD, Side};

/// The core of a client session.
#[derive(Drop)]
pub struct Core {
    pub(crate) end: ClientEnd,
    pub(crate) progress: ClientProgress,
}

// Drops what was appended for the network once nothing more goes there.
fn drop_if(closed: bool, out: &mut Vec<u8>)
    ensures { out.new.items ≡ sent_bytes closed out.old.items }
{
    if closed {
        out.clear();
    }
}

impl Core {
    /// Starts the end of a client whose window has this size and whose lines have at most `limit`
    /// bytes.
    ///
    /// # Errors
    ///
    /// - `Memory`: there is no memory for the line.
    pub fn start(alloc: Global, width: u16, height: u16, limit: Limit) -> Result<Core, ClientFault>
        ensures leads { IfOk result (λ core. LeadsTo (run.start width height limit) core) }
        ensures fault { IfErr result (λ fault. fault ≡ ClientFault.Memory) }
    {
        let end = ClientEnd::start(alloc, width, height, limit)?;
        Ok(Core {
            end,
            progress: ClientProgress::new(),
        })
    }

    // Types the user's keys, one after another.
    fn keys(
        &mut self,
        keys: &[u8],
        out: &mut Vec<u8>,
        screen: &mut Vec<u8>,
    ) -> Result<(), ClientFault>
        requires { IsFalse self.old.progress.over }
        ensures ok { OnOk result (DoesWhole self.old
            (record { from = Origin.Keys; message = Message.Piece keys.now })
            out.old.items out.new.items screen.old.items screen.new.items self.new) }
        ensures err { OnErr result (StopsWithin self.old
            (record { from = Origin.Keys; message = Message.Piece keys.now })
            out.old.items out.new.items screen.old.items screen.new.items self.new) }
        ensures cause { IfErr result (RefusesFor self.old
            (record { from = Origin.Keys; message = Message.Piece keys.now })) }
        ensures closed { self.new.progress.closed ≡ self.old.progress.closed }
    {
        self.progress = self.progress.fed();
        for key in keys {
            self.end.key(*key, out, screen)?;
        }
        Ok(())
    }

    // Feeds the end the bytes from the network.
    fn feed(
        &mut self,
        piece: &[u8],
        out: &mut Vec<u8>,
        screen: &mut Vec<u8>,
    ) -> Result<(), ClientFault>
        requires { IsFalse self.old.progress.over }
        ensures ok { OnOk result (DoesWhole self.old
            (record { from = Origin.Net; message = Message.Piece piece.now })
            out.old.items out.new.items screen.old.items screen.new.items self.new) }
        ensures err { OnErr result (StopsWithin self.old
            (record { from = Origin.Net; message = Message.Piece piece.now })
            out.old.items out.new.items screen.old.items screen.new.items self.new) }
        ensures cause { IfErr result (RefusesFor self.old
            (record { from = Origin.Net; message = Message.Piece piece.now })) }
        ensures closed { self.new.progress.closed ≡ self.old.progress.closed }
    {
        self.progress = self.progress.fed();
        self.end.feed(piece, out, screen)?;
        Ok(())
    }

    // Takes another size of the window.
    fn resize(
        &mut self,
        from: Origin,
        size: WindowSize,
        out: &mut Vec<u8>,
    ) -> Result<(), ClientFault>
        requires { IsFalse self.old.progress.over }
        ensures ok { OnOk result ((seen : List ℕ) → DoesWhole self.old
            (record { from = from; message = Message.Resized size })
            out.old.items out.new.items seen seen self.new) }
        ensures err { OnErr result ((seen : List ℕ) → StopsWithin self.old
            (record { from = from; message = Message.Resized size })
            out.old.items out.new.items seen seen self.new) }
        ensures cause { IfErr result (RefusesFor self.old
            (record { from = from; message = Message.Resized size })) }
        ensures closed { self.new.progress.closed ≡ self.old.progress.closed }
    {
        self.end.resize(size.width, size.height, out)?;
        Ok(())
    }

    // Takes a request of the user, after the keys that were typed: a command is sent, or a new line
    // is entered.
    fn send(
        &mut self,
        control: Control,
        out: &mut Vec<u8>,
        screen: &mut Vec<u8>,
    ) -> Result<(), ClientFault>
        requires { IsFalse self.old.progress.over }
        ensures ok { OnOk result (DoesWhole self.old
            (record { from = Origin.Keys; message = Message.Asked control })
            out.old.items out.new.items screen.old.items screen.new.items self.new) }
        ensures err { OnErr result (StopsWithin self.old
            (record { from = Origin.Keys; message = Message.Asked control })
            out.old.items out.new.items screen.old.items screen.new.items self.new) }
        ensures cause { IfErr result (RefusesFor self.old
            (record { from = Origin.Keys; message = Message.Asked control })) }
        ensures closed { self.new.progress.closed ≡ self.old.progress.closed }
    {
        match command_of(control) {
            Some(command) => {
                self.end.send(command, out)?;
                Ok(())
            },
            None => {
                self.end.new_line(out, screen)?;
                Ok(())
            },
        }
    }

    // Does what is asked for, unless the network asks, which has no user.
    fn ask(
        &mut self,
        from: Origin,
        control: Control,
        out: &mut Vec<u8>,
        screen: &mut Vec<u8>,
    ) -> Result<(), ClientFault>
        requires { IsFalse self.old.progress.over }
        ensures ok { OnOk result (DoesWhole self.old
            (record { from = from; message = Message.Asked control })
            out.old.items out.new.items screen.old.items screen.new.items self.new) }
        ensures err { OnErr result (StopsWithin self.old
            (record { from = from; message = Message.Asked control })
            out.old.items out.new.items screen.old.items screen.new.items self.new) }
        ensures cause { IfErr result (RefusesFor self.old
            (record { from = from; message = Message.Asked control })) }
        ensures closed { self.new.progress.closed ≡ self.old.progress.closed }
    {
        match from {
            Origin::Keys => self.send(control, out, screen),
            Origin::Net => Ok(()),
        }
    }

    // Changes the progress by a message that brings no bytes.
    fn step(&mut self, from: Origin, message: &Message)
        ensures { self.new ≡ record self.old {
          progress =
              counting.after_message from message.now self.old.progress;
        } }
    {
        let progress = self.progress;
        self.progress = match (from, message) {
            (Origin::Net, Message::HangUp) => progress.hung_up(),
            (Origin::Net, Message::ReadFailed) => progress.faulted(SessionFault::Read).hung_up(),
            (Origin::Keys, Message::ReadFailed) => progress.faulted(SessionFault::Read),
            (Origin::Keys, Message::Left) => progress.closed(),
            (_, Message::Refused) => progress.failed(SessionFault::Memory),
            _ => progress,
        };
    }

    // Handles a message that has its effect.
    fn act(
        &mut self,
        told: Told,
        out: &mut Vec<u8>,
        screen: &mut Vec<u8>,
    ) -> Result<(), ClientFault>
        requires { IsFalse self.old.progress.over }
        ensures ok { OnOk result (DoesWhole self.old told
            out.old.items out.new.items screen.old.items screen.new.items self.new) }
        ensures err { OnErr result (StopsWithin self.old told
            out.old.items out.new.items screen.old.items screen.new.items self.new) }
        ensures cause { IfErr result (RefusesFor self.old told) }
        ensures closed { IsTrue self.old.progress.closed → IsTrue self.new.progress.closed }
    {
        let Told { from, message } = told;
        match message {
            Message::Piece(piece) => match from {
                Origin::Keys => self.keys(piece.as_slice(), out, screen),
                Origin::Net => self.feed(piece.as_slice(), out, screen),
            },
            Message::Resized(size) => self.resize(from, size, out),
            Message::Asked(control) => self.ask(from, control, out, screen),
            other => {
                self.step(from, &other);
                Ok(())
            },
        }
    }

    // Fails: nothing has any effect from then on.
    fn fails(&mut self, fault: SessionFault)
        ensures { self.new ≡ record self.old { progress = counting.after_failure fault self.old.progress } }
    {
        self.progress = self.progress.failed(fault);
    }

    /// Takes the report that a write failed: nothing has any effect from then on.
    pub fn write_failed(&mut self)
        ensures leads { (c : Run) → LeadsTo c self.old → LeadsTo (run.fail SessionFault.Write c) self.new }
        ensures over { IsTrue self.new.progress.over }
        ensures closed { self.new.progress.closed ≡ self.old.progress.closed }
    {
        self.fails(SessionFault::Write);
    }

    /// Returns the progress of the session.
    pub fn progress(&self) -> ClientProgress
        ensures { result ≡ self.now.progress }
    {
        self.progress
    }

    /// Returns the terms on which this end has agreed; those of a session that is over are unknown.
    pub fn terms(&self) -> Terms
        ensures { (c : Run) → LeadsTo c self.now → IsFalse self.now.progress.over
            → result ≡ terms_at c.history }
    {
        Terms {
            linemode: self.end.option(Side::Us, LINEMODE) == QState::Yes,
            edits: self.end.mode() & EDIT != 0,
            traps: self.end.mode() & TRAPSIG != 0,
            forwards: self.end.forwards(),
            chars: self.end.chars(),
            echoed: self.end.option(Side::Them, ECHO) == QState::Yes,
            suppressed: self.end.option(Side::Them, SUPPRESS_GO_AHEAD) == QState::Yes,
            held: self.end.half().len(),
        }
    }

    /// Handles one message: appends what is to be sent to the network to `out`, and what is to be shown to
    /// `screen`.
    pub fn handle(&mut self, told: Told, out: &mut Vec<u8>, screen: &mut Vec<u8>) -> ClientMark
        requires out { out.old.items ≡ [] }
        requires screen { screen.old.items ≡ [] }
        ensures turns { IsTurn result self.old told out.new.items screen.new.items self.new }
        ensures unwritten { IsTrue (no_write_failed result) }
        ensures unshown { IsTrue (no_show_failed result) }
        ensures closed { IsTrue self.old.progress.closed → IsTrue self.new.progress.closed }
        ensures silent { IsTrue self.old.progress.closed → out.new.items ≡ [] }
    {
        if self.progress.over {
            return ClientMark::Whole;
        }
        let closed = self.progress.closed;
        match self.act(told, out, screen) {
            Ok(()) => {
                drop_if(closed, out);
                ClientMark::Whole
            },
            Err(fault) => {
                self.fails(SessionFault::Client(fault));
                drop_if(closed, out);
                ClientMark::Refused(fault)
            },
        }
    }
}
