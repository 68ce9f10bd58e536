//! The client end: the calls that its owner makes.

ghost use Rattle.std.specs.Prelude.{◌≡◌, ◌≢◌, ◌++◌, ◌∷◌, ℕ, List, true, IsTrue, false, IsFalse, None, []};
ghost use Rattle.std.specs.Prelude.{length, take, is_some, IfOk, IfErr, IsOk, OnOk, OnErr, IsErrOf};
ghost use Rattle.tn_nvt.specs.{Room.LacksRoom, Spelling.{spells, lf}};
ghost use Rattle.tn_nvt.specs.Feeding as nvt;
ghost use Rattle.tn_option.specs.Options.{state_of};
ghost use Rattle.tn_client.specs.Events.{History, begun, resized, proposed, sent};
ghost use Rattle.tn_client.specs.{Terms.{options, mode, chars, forward}, Lines.{held_bytes, ahead, count_under}};
ghost use Rattle.tn_client.specs.{Replies.{size_items, sent_as}, Calls.{LeadsTo, call_fault, propose_fault}};
ghost use Rattle.tn_client.specs.Answering.{AnswersBy, Feeds, StopsWithin, SaysNothing, Untouched};
ghost use Rattle.tn_client.specs.Steps.{end_after_key, says_key, says_new_line, says_typed, shows_key};
ghost use Rattle.tn_client.specs.Steps.{LacksMemoryFor, LacksMemoryToEnter, LacksMemoryBy, end_after_resize};
ghost use Rattle.tn_client.specs.Steps.{says_resize, says, LacksRoomFor};

use crate::commands::UserCommand;
use crate::faults::ClientFault;
use crate::taking::Lent;
use std::alloc::{AllocError, Global};
use std::marker::Model;
use std::mem;
use tn_codes::{Func, Mask, Payload};
use tn_discipline::{Chars, Limit, Line};
use tn_linemode::{ClientMode, ClientTable, put_payload, put_triple};
use tn_nvt::{Decoder, put_cmd};
use tn_option::{Agree, Engine, LINEMODE, NAWS, QState, Side};

/// The client end of one connection. Its owner types keys and feeds it what comes from the network,
/// sends what is appended to `out`, and shows what is appended to `screen`.
#[derive(Drop)]
pub struct ClientEnd {
    pub(crate) alloc: Global,
    pub(crate) decoder: Decoder,
    pub(crate) options: Engine,
    pub(crate) mode: ClientMode,
    pub(crate) forward: Option<Mask>,
    pub(crate) table: ClientTable,
    pub(crate) line: Line,
    /// The length of a half-typed line that the server edits, if its ISIG is set.
    pub(crate) trapped: u16,
    /// The length of a half-typed line that the server edits, if its ISIG is clear.
    pub(crate) plain: u16,
    pub(crate) width: u16,
    pub(crate) height: u16,
    pub(crate) failed: bool,
}

impl Model for ClientEnd {
    ghost use Rattle.std.specs.Prelude.{◌<◌};
    ghost use Rattle.tn_client.specs.Calls.{End};

    ghost Value = { End };

    ghost view = { λ e. record {
      decoder = e.decoder;
      options = e.options;
      mode = e.mode;
      forward = e.forward;
      table = e.table;
      line = e.line;
      trapped = e.trapped;
      plain = e.plain;
      width = e.width;
      height = e.height;
      failed = e.failed;
    } };

    ghost invariant = { λ e. (e.trapped < e.line.limit) × (e.plain < e.line.limit) };
}

// Returns the answer of a key. If there was no memory, what it sent is taken back.
fn or_memory(
    typed: Result<(), AllocError>,
    sent: usize,
    out: &mut Vec<u8>,
) -> Result<(), ClientFault>
    ensures ok { OnOk typed (IsOk result) }
    ensures out { OnOk typed (out.new.items ≡ out.old.items) }
    ensures err { OnErr typed (IsErrOf result ClientFault.Memory) }
    ensures err_out { OnErr typed (out.new.items ≡ take sent out.old.items) }
{
    match typed {
        Ok(()) => Ok(()),
        Err(_) => {
            out.truncate(sent);
            Err(ClientFault::Memory)
        },
    }
}

impl ClientEnd {
    /// Starts an end whose window has this size, in characters; 0 for a dimension that is not
    /// known. Its lines have at most `limit` bytes. It appends nothing by itself: the server begins
    /// the negotiation.
    ///
    /// # Errors
    ///
    /// - `Memory`: there is no memory for the line.
    pub fn start(
        alloc: Global,
        width: u16,
        height: u16,
        limit: Limit,
    ) -> Result<ClientEnd, ClientFault>
        ensures leads { IfOk result (λ end. LeadsTo (begun width height limit) end) }
        ensures reads { IfOk result (λ end. nvt.LeadsTo [] [] end.decoder) }
        ensures runs { IfOk result (λ end. IsFalse end.failed) }
        ensures fault { IfErr result (λ fault. fault ≡ ClientFault.Memory) }
    {
        let line = match Line::new(alloc, limit) {
            Ok(line) => line,
            Err(_) => return Err(ClientFault::Memory),
        };
        Ok(ClientEnd {
            alloc,
            decoder: Decoder::new(alloc),
            options: Engine::new(Agree {
                us: [false, true, true, true],
                them: [true, true, false, false],
            }),
            mode: ClientMode::new(),
            forward: None,
            table: ClientTable::new(),
            line,
            trapped: 0,
            plain: 0,
            width,
            height,
            failed: false,
        })
    }

    /// Types a key. Its echo is appended to `screen`, unless the server echoes.
    ///
    /// # Errors
    ///
    /// After an error nothing has changed: the key counts as not typed.
    ///
    /// - `Failed`: a piece was refused before.
    /// - `Memory`: there is no memory for the bytes that it sends or shows, or for a text.
    pub fn key(
        &mut self,
        key: u8,
        out: &mut Vec<u8>,
        screen: &mut Vec<u8>,
    ) -> Result<(), ClientFault>
        ensures step { OnOk result (self.new ≡ end_after_key self.old key) }
        ensures out { OnOk result
            (out.new.items ≡ out.old.items ++ spells (says_key self.old key)) }
        ensures screen { OnOk result
            (screen.new.items ≡ screen.old.items ++ shows_key self.old key) }
        ensures failed { AnswersBy (call_fault self.old) result }
        ensures memory { IsErrOf result ClientFault.Memory →
            LacksMemoryFor self.old key out.old screen.old }
        ensures err { OnErr result (Untouched self.old
            out.old.items out.new.items screen.old.items screen.new.items self.new) }
    {
        self.type_as(key, false, out, screen)
    }

    /// Enters a new line: types the key LF, which goes to the server as CR LF, also if keys go one
    /// at a time (RFC 1123, section 3.3.1). Its echo is appended to `screen`, unless the server
    /// echoes.
    ///
    /// # Errors
    ///
    /// After an error nothing has changed: the key counts as not typed.
    ///
    /// - `Failed`: a piece was refused before.
    /// - `Memory`: there is no memory for the bytes that it sends or shows, or for a text.
    pub fn new_line(&mut self, out: &mut Vec<u8>, screen: &mut Vec<u8>) -> Result<(), ClientFault>
        ensures step { OnOk result (self.new ≡ end_after_key self.old lf) }
        ensures out { OnOk result
            (out.new.items ≡ out.old.items ++ spells (says_new_line self.old)) }
        ensures screen { OnOk result
            (screen.new.items ≡ screen.old.items ++ shows_key self.old lf) }
        ensures failed { AnswersBy (call_fault self.old) result }
        ensures memory { IsErrOf result ClientFault.Memory →
            LacksMemoryToEnter self.old out.old screen.old }
        ensures err { OnErr result (Untouched self.old
            out.old.items out.new.items screen.old.items screen.new.items self.new) }
    {
        self.type_as(b'\n', true, out, screen)
    }

    // Types a key, which is a new line or its byte if it is sent at once.
    fn type_as(
        &mut self,
        key: u8,
        is_line: bool,
        out: &mut Vec<u8>,
        screen: &mut Vec<u8>,
    ) -> Result<(), ClientFault>
        ensures step { OnOk result (self.new ≡ end_after_key self.old key) }
        ensures out { OnOk result
            (out.new.items ≡ out.old.items ++ spells (says_typed self.old key (sent_as is_line key))) }
        ensures screen { OnOk result
            (screen.new.items ≡ screen.old.items ++ shows_key self.old key) }
        ensures failed { AnswersBy (call_fault self.old) result }
        ensures memory { IsErrOf result ClientFault.Memory →
            LacksMemoryBy self.old key (sent_as is_line key) out.old screen.old }
        ensures err { OnErr result (Untouched self.old
            out.old.items out.new.items screen.old.items screen.new.items self.new) }
    {
        if self.failed {
            return Err(ClientFault::Failed);
        }
        let sent = out.len();
        if self.mode.current().edit() {
            return or_memory(self.edit(key, out, screen), sent, out);
        }
        or_memory(self.pass(key, is_line, out, screen), sent, out)
    }

    /// Takes a piece of the server's stream, cut anywhere, and appends replies to `out` and text to
    /// `screen`.
    ///
    /// # Errors
    ///
    /// - `Memory`: there is no memory for a reply, for text, for a list of characters or for a
    ///   parameter. The end has failed, and both vectors hold what came before.
    /// - `Failed`: a piece was refused before; nothing changes.
    pub fn feed(
        &mut self,
        piece: &[u8],
        out: &mut Vec<u8>,
        screen: &mut Vec<u8>,
    ) -> Result<(), ClientFault>
        ensures ok { OnOk result (Feeds self.old piece.now
            out.old.items out.new.items screen.old.items screen.new.items self.new) }
        ensures failed { AnswersBy (call_fault self.old) result }

        // Some items were done, and the clause says why no more were.
        ensures memory { IsErrOf result ClientFault.Memory → StopsWithin self.old piece.now
            out.old.items out.new.items screen.old.items screen.new.items }
        ensures err { OnErr result (IsTrue self.new.failed) }
        ensures again { IsErrOf result ClientFault.Failed → Untouched self.old
            out.old.items out.new.items screen.old.items screen.new.items self.new }
    {
        if self.failed {
            return Err(ClientFault::Failed);
        }
        let mut decoder = mem::replace(&mut self.decoder, Decoder::new(self.alloc));
        let mut lent = Lent {
            end: self,
            out,
            screen,
        };
        let fed = decoder.feed_to(piece, &mut lent);
        self.decoder = decoder;
        match fed {
            Ok(()) => Ok(()),
            Err(_) => {
                self.failed = true;
                Err(ClientFault::Memory)
            },
        }
    }

    /// Takes a new size of the window, in characters, and sends it if NAWS is on and the size
    /// changed (RFC 1073).
    ///
    /// # Errors
    ///
    /// After an error nothing has changed.
    ///
    /// - `Failed`: a piece was refused before.
    /// - `Memory`: there is no memory for the size.
    pub fn resize(&mut self, width: u16, height: u16, out: &mut Vec<u8>) -> Result<(), ClientFault>
        ensures step { OnOk result (self.new ≡ end_after_resize self.old width height) }
        ensures out { OnOk result
            (out.new.items ≡ out.old.items ++ spells (says_resize self.old width height)) }
        ensures failed { AnswersBy (call_fault self.old) result }
        ensures memory { IsErrOf result ClientFault.Memory →
            LacksRoomFor self.old (resized width height) out.old }
        ensures err { OnErr result (SaysNothing self.old out.old.items out.new.items self.new) }
    {
        if self.failed {
            return Err(ClientFault::Failed);
        }
        match self.set_size(width, height, out) {
            Ok(()) => Ok(()),
            Err(_) => Err(ClientFault::Memory),
        }
    }

    fn set_size(&mut self, width: u16, height: u16, out: &mut Vec<u8>) -> Result<(), AllocError>
        ensures ok { OnOk result (self.new ≡ end_after_resize self.old width height) }
        ensures out { OnOk result
            (out.new.items ≡ out.old.items ++ spells (says_resize self.old width height)) }
        ensures err { OnErr result (self.new ≡ self.old) }
        ensures err_out { OnErr result (out.new.items ≡ out.old.items) }
        ensures full { OnErr result
            (LacksRoom out.old (length (spells (says_resize self.old width height)))) }
    {
        let is_new = width != self.width || height != self.height;
        if self.options.is_on(Side::Us, NAWS) && is_new {
            self.put_size(width, height, out)?;
            self.width = width;
            self.height = height;
            return Ok(());
        }
        self.width = width;
        self.height = height;
        Ok(())
    }

    // Appends the window's size (RFC 1073).
    pub(crate) fn put_size(
        &self,
        width: u16,
        height: u16,
        out: &mut Vec<u8>,
    ) -> Result<(), AllocError>
        ensures ok { OnOk result (out.new.items ≡ out.old.items ++ spells (size_items (width, height))) }
        ensures err { OnErr result (out.new.items ≡ out.old.items) }
        ensures full { OnErr result (LacksRoom out.old (length (spells (size_items (width, height))))) }
    {
        put_payload(&Payload::Naws { width, height }, out)
    }

    /// Proposes a special character to the server, or none by `None` (RFC 1184, section 2.4). The
    /// client's table does not change until the server acknowledges the proposal.
    ///
    /// # Errors
    ///
    /// After an error nothing was sent.
    ///
    /// - `NotOn`: LINEMODE is not on.
    /// - `Char`: the client's own table cannot have that character; the fault says why.
    /// - `Failed`: a piece was refused before.
    /// - `Memory`: there is no memory for the triple.
    pub fn propose(
        &mut self,
        func: Func,
        value: Option<u8>,
        out: &mut Vec<u8>,
    ) -> Result<(), ClientFault>
        ensures step { OnOk result (self.new ≡ self.old) }
        ensures out { OnOk result
            (out.new.items ≡ out.old.items ++ spells (says self.old (proposed func value))) }
        ensures failed { AnswersBy (propose_fault self.old func value) result }
        ensures memory { IsErrOf result ClientFault.Memory →
            LacksRoomFor self.old (proposed func value) out.old }
        ensures err { OnErr result (SaysNothing self.old out.old.items out.new.items self.new) }
    {
        if self.failed {
            return Err(ClientFault::Failed);
        }
        if !self.options.is_on(Side::Us, LINEMODE) {
            return Err(ClientFault::NotOn);
        }
        match self.table.propose(func, value) {
            Err(fault) => Err(ClientFault::Char(fault)),
            Ok(triple) => match put_triple(triple, out) {
                Ok(()) => Ok(()),
                Err(_) => Err(ClientFault::Memory),
            },
        }
    }

    /// Sends a command at once, before the bytes of a line that are held, which stay as they are.
    /// Nothing is shown.
    ///
    /// # Errors
    ///
    /// After an error nothing was sent.
    ///
    /// - `Failed`: a piece was refused before.
    /// - `Memory`: there is no memory for the two bytes.
    pub fn send(&mut self, command: UserCommand, out: &mut Vec<u8>) -> Result<(), ClientFault>
        ensures step { OnOk result (self.new ≡ self.old) }
        ensures out { OnOk result
            (out.new.items ≡ out.old.items ++ spells (says self.old (sent command))) }
        ensures failed { AnswersBy (call_fault self.old) result }
        ensures memory { IsErrOf result ClientFault.Memory →
            LacksRoomFor self.old (sent command) out.old }
        ensures err { OnErr result (SaysNothing self.old out.old.items out.new.items self.new) }
    {
        if self.failed {
            return Err(ClientFault::Failed);
        }
        match put_cmd(command.command(), out) {
            Ok(()) => Ok(()),
            Err(_) => Err(ClientFault::Memory),
        }
    }

    /// Returns the mask in force: EDIT (1) and TRAPSIG (2) (RFC 1184, section 2.2).
    pub fn mode(&self) -> u8
        ensures value { result ≡ self.now.mode }
        ensures stands { (h : History) → LeadsTo h self.now → result ≡ mode h }
    {
        self.mode.current().mask()
    }

    /// Returns the bytes of the half-typed line that the client holds.
    pub fn half(&self) -> &[u8]
        ensures value { result.now ≡ self.now.line.held }
        ensures stands { (h : History) → LeadsTo h self.now → result.now ≡ held_bytes h }
    {
        self.line.held()
    }

    /// Returns the number of bytes of the half-typed line that were sent before those that are
    /// held.
    pub fn ahead(&self) -> u16
        ensures value { result ≡ self.now.line.ahead }
        ensures stands { (h : History) → LeadsTo h self.now → result ≡ ahead h }
    {
        self.line.ahead()
    }

    /// Returns the length of the half-typed line that the server edits, as the client counts it by
    /// the roles of a terminal with ICRNL set and INLCR and IGNCR clear: first if its ISIG is set,
    /// then if it is clear. Both are 0 with EDIT.
    pub fn counts(&self) -> (u16, u16)
        ensures value { result ≡ (self.now.trapped, self.now.plain) }
        ensures stands { (h : History) → LeadsTo h self.now →
            result ≡ (count_under true h, count_under false h) }
    {
        (self.trapped, self.plain)
    }

    /// Returns the special characters in force.
    pub fn chars(&self) -> Chars
        ensures value { result ≡ self.now.table }
        ensures stands { (h : History) → LeadsTo h self.now → result ≡ chars h }
    {
        self.table.chars()
    }

    /// Returns whether the server has set a forward mask (RFC 1184, section 2.3).
    pub fn forwards(&self) -> bool
        ensures value { result ≡ is_some self.now.forward }
        ensures stands { (h : History) → LeadsTo h self.now → result ≡ is_some (forward h) }
    {
        self.forward.is_some()
    }

    /// Returns the state of one side of an option (RFC 1143): `No` for each that is none of the
    /// four.
    pub fn option(&self, side: Side, option: u8) -> QState
        ensures value { result ≡ state_of self.now.options side option }
        ensures stands { (h : History) → LeadsTo h self.now → result ≡ state_of (options h) side option }
    {
        self.options.q_state(side, option)
    }

    /// Returns whether a call of `feed` was refused because it ran out of memory.
    pub fn failed(&self) -> bool
        ensures { result ≡ self.now.failed }
    {
        self.failed
    }
}
