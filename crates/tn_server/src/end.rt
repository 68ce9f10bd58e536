//! The server end: the calls that its owner makes.

ghost use Rattle.std.specs.Prelude.{◌≡◌, ◌≢◌, ◌↔◌, ◌&&◌, not, ℕ, List, true, IsTrue, false, IsFalse, Some};
ghost use Rattle.std.specs.Prelude.{None, Err, [], ◌++◌, ◌∷◌, ◌*◌, length, min, IfOk, IfErr, OnOk, OnErr};
ghost use Rattle.std.specs.Prelude.{IsErrOf, MatchOption, option_copied, slice_get};
ghost use Rattle.tn_codes.specs.OptionCodes as option_code;
ghost use Rattle.tn_discipline.specs.Characters.{char_fault};
ghost use Rattle.tn_nvt.specs.{Room.LacksRoom, Spelling.spells};
ghost use Rattle.tn_nvt.specs.Feeding as nvt;
ghost use Rattle.tn_option.specs.{Options.{state_of, is_yes}, declared.q_method.Side.TheVariants.Us};
ghost use Rattle.tn_pty.specs.{Terminal.{fitting_count, first_signal}, declared.pty.PtyFault.PtyFault};
ghost use Rattle.tn_pty.specs.declared.pty.PtyFault.TheVariants.{Closed};
ghost use Rattle.tn_server.specs.Events.{History, begun, took, pulled, wished, char_set, echo_set, mask_set};
ghost use Rattle.tn_server.specs.{Events.breaks, Lines.{half, waiting}, Screen.size, Replies.opening};
ghost use Rattle.tn_server.specs.Steps.{LacksRoomFor, end_after, end_after_write, end_after_pull, says};
ghost use Rattle.tn_server.specs.{Steps.sends_mode_now, Terms.{mode, asked_mask, chars, settings, options}};
ghost use Rattle.tn_server.specs.{Faults.{IsOfItem, IsOfPiece, IsFault}, Answering.{Feeds, StopsWithin}};
ghost use Rattle.tn_server.specs.Calls.{LeadsTo, call_fault, char_fault_at, mask_fault};

use crate::faults::ServerFault;
use crate::openings::Opening;
use crate::screen::{SYMBOL_BYTES, spell_front};
use crate::sending::{put_char, put_mask};
use crate::taking::Lent;
use crate::terms::Negotiation;
use crate::wishes::Editing;
use std::alloc::Global;
use std::marker::Model;
use std::mem;
use tn_codes::{Command, Func, Mask};
use tn_discipline::{CharFault, Chars, Entry, Limit, Settings, Sig};
use tn_linemode::ServerTable;
use tn_nvt::{Decoder, put_cmd};
use tn_option::{QState, SUPPRESS_GO_AHEAD, Side};
use tn_pty::Pair;

/// The server end of one connection. Its owner feeds it the bytes that come from the network and
/// sends the bytes that it appends. The owner is also the job at the terminal: it takes entries and
/// writes output.
#[derive(Drop)]
pub struct ServerEnd {
    pub(crate) alloc: Global,
    pub(crate) decoder: Decoder,
    pub(crate) terms: Negotiation,
    pub(crate) table: ServerTable,
    pub(crate) pair: Pair,
    pub(crate) pulled: bool,
    pub(crate) breaks: u32,
    pub(crate) failed: bool,
}

impl Model for ServerEnd {
    ghost use Rattle.tn_server.specs.Calls.{End};

    ghost Value = { End };

    ghost view = { λ e.
        record {
          decoder = e.decoder;
          terms = record {
            options = e.terms.options;
            wish = e.terms.wish;
            opening = e.terms.opening;
          };
          modes = e.terms.modes;
          table = e.table;
          terminal = e.pair;
          pulled = e.pulled;
          breaks = e.breaks;
          failed = e.failed;
        } };
}

impl ServerEnd {
    /// Starts an end over a terminal with these settings, whose lines have at most `limit` bytes,
    /// and appends the opening messages (RFC 855): DO LINEMODE, DO NAWS, WILL and DO
    /// SUPPRESS-GO-AHEAD, WILL ECHO. A client without LINEMODE then sends each key.
    ///
    /// # Errors
    ///
    /// - `Memory`: there is no memory for the terminal or for the messages; nothing was appended.
    pub fn start(
        alloc: Global,
        settings: Settings,
        limit: Limit,
        out: &mut Vec<u8>,
    ) -> Result<ServerEnd, ServerFault>
        ensures leads { IfOk result (λ end.
            LeadsTo (begun Opening.Keys (record { settings = settings; limit = limit })) end) }
        ensures reads { IfOk result (λ end. nvt.LeadsTo [] [] end.decoder) }
        ensures runs { IfOk result (λ end. IsFalse end.failed) }
        ensures opens { IfOk result (λ end. IsFalse end.terminal.closed) }
        ensures out { OnOk result (out.new.items ≡ out.old.items ++ spells (opening Opening.Keys)) }
        ensures err { OnErr result (out.new.items ≡ out.old.items) }
        ensures fault { IfErr result (λ fault. fault ≡ ServerFault.Memory) }
    {
        ServerEnd::open(Opening::Keys, alloc, settings, limit, out)
    }

    /// Starts an end for clients that edit lines themselves, over a terminal with these settings,
    /// whose lines have at most `limit` bytes, and appends the opening messages (RFC 855): DO
    /// LINEMODE, DO NAWS. A client without LINEMODE then sends whole lines, and echoes them itself
    /// unless the terminal's flag ECHO is clear.
    ///
    /// # Errors
    ///
    /// - `Memory`: there is no memory for the terminal or for the messages; nothing was appended.
    pub fn start_lines(
        alloc: Global,
        settings: Settings,
        limit: Limit,
        out: &mut Vec<u8>,
    ) -> Result<ServerEnd, ServerFault>
        ensures leads { IfOk result (λ end.
            LeadsTo (begun Opening.Lines (record { settings = settings; limit = limit })) end) }
        ensures reads { IfOk result (λ end. nvt.LeadsTo [] [] end.decoder) }
        ensures runs { IfOk result (λ end. IsFalse end.failed) }
        ensures opens { IfOk result (λ end. IsFalse end.terminal.closed) }
        ensures out { OnOk result (out.new.items ≡ out.old.items ++ spells (opening Opening.Lines)) }
        ensures err { OnErr result (out.new.items ≡ out.old.items) }
        ensures fault { IfErr result (λ fault. fault ≡ ServerFault.Memory) }
    {
        ServerEnd::open(Opening::Lines, alloc, settings, limit, out)
    }

    /// Starts an end that opens so, over a terminal with these settings, whose lines have at most
    /// `limit` bytes, and appends the opening messages.
    ///
    /// # Errors
    ///
    /// - `Memory`: there is no memory for the terminal or for the messages; nothing was appended.
    pub fn open(
        kind: Opening,
        alloc: Global,
        settings: Settings,
        limit: Limit,
        out: &mut Vec<u8>,
    ) -> Result<ServerEnd, ServerFault>
        ensures leads { IfOk result (λ end.
            LeadsTo (begun kind (record { settings = settings; limit = limit })) end) }
        ensures reads { IfOk result (λ end. nvt.LeadsTo [] [] end.decoder) }
        ensures runs { IfOk result (λ end. IsFalse end.failed) }
        ensures opens { IfOk result (λ end. IsFalse end.terminal.closed) }
        ensures out { OnOk result (out.new.items ≡ out.old.items ++ spells (opening kind)) }
        ensures err { OnErr result (out.new.items ≡ out.old.items) }
        ensures fault { IfErr result (λ fault. fault ≡ ServerFault.Memory) }
    {
        let table = ServerTable::new(settings.chars);
        let pair = Pair::new(alloc, settings, limit)?;
        kind.put(out)?;
        Ok(ServerEnd {
            alloc,
            decoder: Decoder::new(alloc),
            terms: Negotiation::new(kind),
            table,
            pair,
            pulled: false,
            breaks: 0,
            failed: false,
        })
    }

    /// Takes a piece of the client's stream, cut anywhere, and appends the replies.
    ///
    /// # Errors
    ///
    /// After any error the end has failed, and `out` may hold replies to what came before the
    /// refused item.
    ///
    /// - `Pty(TooFarAhead)`: an item makes an entry, and 1,024 wait.
    /// - `Pty(Memory)`: there is no memory for an entry, or for its text.
    /// - `Memory`: there is no memory for a reply, a list of characters or a parameter.
    /// - `Failed`: the end had failed before; nothing changes.
    pub fn feed(&mut self, piece: &[u8], out: &mut Vec<u8>) -> Result<(), ServerFault>
        ensures ok { OnOk result (Feeds self.old piece.now out.old.items out.new.items self.new) }
        ensures accepted { OnOk result (call_fault self.old ≡ None) }
        ensures failed { IsErrOf result ServerFault.Failed ↔ IsTrue self.old.failed }
        ensures failed_stays { IsErrOf result ServerFault.Failed → self.new ≡ self.old }
        ensures failed_appends { IsErrOf result ServerFault.Failed → out.new.items ≡ out.old.items }
        ensures halts { IfErr result (λ fault. IsOfItem fault →
            StopsWithin self.old piece.now fault out.old.items out.new.items self.new) }
        ensures err { OnErr result (IsTrue self.new.failed) }
        ensures of_piece { IfErr result IsOfPiece }
        ensures shut { IsErrOf result (ServerFault.Pty Closed) → IsTrue self.old.terminal.closed }
    {
        if self.failed {
            return Err(ServerFault::Failed);
        }
        let mut decoder = mem::replace(&mut self.decoder, Decoder::new(self.alloc));
        let mut lent = Lent {
            end: self,
            out,
            cause: ServerFault::Memory,
        };
        let fed = decoder.feed_to(piece, &mut lent);
        let cause = lent.cause;
        self.decoder = decoder;
        match fed {
            Ok(()) => Ok(()),
            Err(_) => {
                self.failed = true;
                Err(cause)
            },
        }
    }

    /// Writes output of a job to the terminal's screen, and returns the number of bytes that were
    /// taken: the first ones, as many as fit.
    pub fn write(&mut self, bytes: &[u8]) -> usize
        ensures step { self.new ≡ end_after_write self.old bytes.now }
        ensures count { result ≡ fitting_count self.old.terminal.queue bytes.now }
    {
        self.pair.write(bytes)
    }

    /// Takes the first entry that waits. If none waits, it may append GA (RFC 858).
    ///
    /// # Errors
    ///
    /// - `Memory`: there is no memory for GA; nothing has changed.
    pub fn take(&mut self, out: &mut Vec<u8>) -> Result<Option<Entry>, ServerFault>
        ensures step { OnOk result (self.new ≡ end_after self.old took) }
        ensures out { OnOk result (out.new.items ≡ out.old.items ++ spells (says self.old took)) }
        ensures entry { let waits = self.old.terminal.entries in IfOk result (λ entry.
            MatchOption entry (waits ≡ []) (λ e. waits ≡ e ∷ self.new.terminal.entries)) }
        ensures err { OnErr result (self.new ≡ self.old) }
        ensures err_appends { OnErr result (out.new.items ≡ out.old.items) }
        ensures fault { IfErr result (λ fault. fault ≡ ServerFault.Memory) }
        ensures grows { OnErr result (says self.old took ≢ []) }
        ensures full { OnErr result (LacksRoomFor self.old took out.old) }
    {
        if let Some(entry) = self.pair.take() {
            return Ok(Some(entry));
        }
        if !self.owes_ga() {
            return Ok(None);
        }
        put_cmd(Command::Ga, out)?;
        self.pulled = false;
        Ok(None)
    }

    // Returns whether symbols were pulled since the last GA, and GA is not suppressed.
    fn owes_ga(&self) -> bool
        ensures { let state = state_of self.now.terms.options Us option_code.suppress_go_ahead in
            result ≡ (not (is_yes state) && self.now.pulled) }
    {
        !self.terms.options.is_on(Side::Us, SUPPRESS_GO_AHEAD) && self.pulled
    }

    /// Appends the first symbols of the screen in their spelling, at most `max` of them, and
    /// returns how many symbols they are.
    ///
    /// # Errors
    ///
    /// - `Memory`: there is no memory for their spelling, at most two bytes a symbol; nothing has
    ///   changed.
    pub fn pull(&mut self, max: usize, out: &mut Vec<u8>) -> Result<usize, ServerFault>
        ensures step { IfOk result (λ n. self.new ≡ end_after_pull self.old n) }
        ensures out { IfOk result (λ n.
            out.new.items ≡ out.old.items ++ spells (says self.old (pulled n))) }
        ensures count { IfOk result (λ n. n ≡ min max (length self.old.terminal.queue)) }
        ensures grows { OnErr result (says self.old (pulled max) ≢ []) }

        // Two bytes are reserved for each symbol, which is as long as one may be.
        ensures full { let count = min max (length self.old.terminal.queue) in
            OnErr result (LacksRoom out.old (2 * count)) }
        ensures err { OnErr result (self.new ≡ self.old) }
        ensures err_appends { OnErr result (out.new.items ≡ out.old.items) }
        ensures fault { IfErr result (λ fault. fault ≡ ServerFault.Memory) }
    {
        let most = max.min(self.pair.queued());
        if most == 0 {
            return Ok(0);
        }
        out.reserve(SYMBOL_BYTES * most)?;
        spell_front(&mut self.pair, most, out);
        self.pulled = true;
        Ok(most)
    }

    /// Requests that one side edit lines, and appends a MODE if LINEMODE is on and the mask was not
    /// asked for already. Returns whether a MODE was sent. The mode is in force once the client
    /// acknowledges it (RFC 1184, section 2.2).
    ///
    /// # Errors
    ///
    /// After an error nothing has changed.
    ///
    /// - `Failed`: a piece was refused before.
    /// - `Memory`: there is no memory for the messages.
    pub fn wish(&mut self, editing: Editing, out: &mut Vec<u8>) -> Result<bool, ServerFault>
        ensures step { OnOk result (self.new ≡ end_after self.old (wished editing)) }
        ensures out { OnOk result
            (out.new.items ≡ out.old.items ++ spells (says self.old (wished editing))) }
        ensures sent { IfOk result (λ sent. sent ≡ sends_mode_now self.old editing) }
        ensures full { IsErrOf result ServerFault.Memory →
            LacksRoomFor self.old (wished editing) out.old }
        ensures accepted { OnOk result (call_fault self.old ≡ None) }
        ensures err { OnErr result (self.new ≡ self.old) }
        ensures err_appends { OnErr result (out.new.items ≡ out.old.items) }
        ensures fault { IfErr result (IsFault (call_fault self.old)) }
    {
        if self.failed {
            return Err(ServerFault::Failed);
        }
        let start = out.len();
        match self.wish_for(editing, out) {
            Ok(sent) => Ok(sent),
            Err(_) => {
                out.truncate(start);
                Err(ServerFault::Memory)
            },
        }
    }

    /// Changes a special character, or disables it by `None`. If LINEMODE is on and something
    /// changed, it appends one triple for the client, which the client acknowledges (RFC 1184,
    /// section 2.4).
    ///
    /// # Errors
    ///
    /// After an error nothing has changed.
    ///
    /// - `Char`: `Chars::set` refuses the character, for the cause that it holds.
    /// - `Failed`: a piece was refused before.
    /// - `Memory`: there is no memory for the triple.
    pub fn set_char(
        &mut self,
        func: Func,
        value: Option<u8>,
        out: &mut Vec<u8>,
    ) -> Result<(), ServerFault>
        ensures step { OnOk result (self.new ≡ end_after self.old (char_set func value)) }
        ensures out { OnOk result
            (out.new.items ≡ out.old.items ++ spells (says self.old (char_set func value))) }
        ensures full { IsErrOf result ServerFault.Memory →
            LacksRoomFor self.old (char_set func value) out.old }
        ensures accepted { OnOk result (char_fault_at self.old func value ≡ None) }
        ensures fault { IfErr result (IsFault (char_fault_at self.old func value)) }
        ensures err { OnErr result (self.new ≡ self.old) }
        ensures err_appends { OnErr result (out.new.items ≡ out.old.items) }
    {
        if self.failed {
            return Err(ServerFault::Failed);
        }
        let before = self.table.chars().get(func);
        let mut table = self.table;
        match table.set(func, value) {
            Ok(()) => {},
            Err(fault) => return Err(ServerFault::Char(fault)),
        }
        let is_told = self.terms.has_linemode() && before != value;
        put_char(is_told, func, value, out)?;
        self.table = table;
        self.pair.set_chars(table.chars());
        Ok(())
    }

    /// Sets or clears the terminal's flag ECHO, and appends the message for the option ECHO, if one
    /// is due (RFC 857).
    ///
    /// # Errors
    ///
    /// After an error nothing has changed.
    ///
    /// - `Failed`: a piece was refused before.
    /// - `Memory`: there is no memory for the message.
    pub fn set_echo(&mut self, on: bool, out: &mut Vec<u8>) -> Result<(), ServerFault>
        ensures step { OnOk result (self.new ≡ end_after self.old (echo_set on)) }
        ensures out { OnOk result
            (out.new.items ≡ out.old.items ++ spells (says self.old (echo_set on))) }
        ensures full { IsErrOf result ServerFault.Memory →
            LacksRoomFor self.old (echo_set on) out.old }
        ensures accepted { OnOk result (call_fault self.old ≡ None) }
        ensures err { OnErr result (self.new ≡ self.old) }
        ensures err_appends { OnErr result (out.new.items ≡ out.old.items) }
        ensures fault { IfErr result (IsFault (call_fault self.old)) }
    {
        if self.failed {
            return Err(ServerFault::Failed);
        }
        let mut flags = self.pair.settings().flags;
        flags.echo = on;
        let mut terms = self.terms;
        terms.ask_echo(true, &flags, out)?;
        self.terms = terms;
        self.pair.set_flags(flags);
        Ok(())
    }

    /// Asks the client to send the bytes that it holds at each character of this mask, or by `None`
    /// at none any more (RFC 1184, section 2.3).
    ///
    /// # Errors
    ///
    /// After an error nothing has changed.
    ///
    /// - `NotOn`: LINEMODE is not on.
    /// - `Failed`: a piece was refused before.
    /// - `Memory`: there is no memory for the mask.
    pub fn set_mask(&mut self, mask: Option<Mask>, out: &mut Vec<u8>) -> Result<(), ServerFault>
        ensures step { OnOk result (self.new ≡ end_after self.old (mask_set mask)) }
        ensures out { OnOk result
            (out.new.items ≡ out.old.items ++ spells (says self.old (mask_set mask))) }
        ensures full { IsErrOf result ServerFault.Memory →
            LacksRoomFor self.old (mask_set mask) out.old }
        ensures accepted { OnOk result (mask_fault self.old ≡ None) }
        ensures fault { IfErr result (IsFault (mask_fault self.old)) }
        ensures err { OnErr result (self.new ≡ self.old) }
        ensures err_appends { OnErr result (out.new.items ≡ out.old.items) }
    {
        if self.failed {
            return Err(ServerFault::Failed);
        }
        if !self.terms.has_linemode() {
            return Err(ServerFault::NotOn);
        }
        put_mask(mask, out)?;
        Ok(())
    }

    /// Returns an entry that waits, counted from the first, which is 0; `None` if fewer wait.
    pub fn waiting(&self, index: usize) -> Option<&Entry>
        ensures { (h : History) → LeadsTo h self.now → option_copied result ≡ slice_get (waiting h) index }
    {
        self.pair.waiting(index)
    }

    /// Returns the first signal among the entries that wait.
    pub fn signal_waiting(&self) -> Option<Sig>
        ensures { (h : History) → LeadsTo h self.now → result ≡ first_signal (waiting h) }
    {
        self.pair.signal_waiting()
    }

    /// Returns the window's width and height in characters; 0 is unspecified (RFC 1073).
    pub fn size(&self) -> (u16, u16)
        ensures { (h : History) → LeadsTo h self.now → result ≡ size h }
    {
        self.pair.size()
    }

    /// Returns the number of BREAKs (IAC BRK, RFC 854) that were taken, modulo 2^32. Each is an
    /// interrupt at the terminal, too.
    pub fn breaks(&self) -> u32
        ensures { (h : History) → LeadsTo h self.now → result ≡ breaks h }
    {
        self.breaks
    }

    /// Returns the mask in force: the bits EDIT (1) and TRAPSIG (2) of the MODE that the client
    /// acknowledged last.
    pub fn mode(&self) -> u8
        ensures { (h : History) → LeadsTo h self.now → result ≡ mode h }
    {
        self.terms.modes.current().mask()
    }

    /// Returns the mask that the client was asked for last.
    pub fn asked(&self) -> u8
        ensures { (h : History) → LeadsTo h self.now → result ≡ asked_mask h }
    {
        self.terms.modes.asked().mask()
    }

    /// Returns the half-typed line that the terminal holds.
    pub fn half(&self) -> &[u8]
        ensures { (h : History) → LeadsTo h self.now → result.now ≡ half h }
    {
        self.pair.half()
    }

    /// Returns the special characters in force.
    pub fn chars(&self) -> Chars
        ensures { (h : History) → LeadsTo h self.now → result ≡ chars h }
    {
        self.table.chars()
    }

    /// Returns the terminal's settings: its flags, and the special characters in force.
    pub fn settings(&self) -> Settings
        ensures value { result ≡ self.now.terminal.settings }
        ensures stands { (h : History) → LeadsTo h self.now → result ≡ settings h }
    {
        self.pair.settings()
    }

    /// Returns the state of one side of an option (RFC 1143).
    pub fn option(&self, side: Side, option: u8) -> QState
        ensures { (h : History) → LeadsTo h self.now → result ≡ state_of (options h) side option }
    {
        self.terms.options.q_state(side, option)
    }

    /// Returns whether a call of `feed` was refused.
    pub fn failed(&self) -> bool
        ensures { result ≡ self.now.failed }
    {
        self.failed
    }
}
