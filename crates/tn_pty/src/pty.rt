//! The pair: what was typed becomes entries, and what is shown waits in a queue.

ghost use Rattle.std.specs.Prelude.{◌≡◌, ◌&&◌, ◌+◌, ◌-◌, ◌<◌, ◌≤◌, true, None, get_or, All, [], ◌++◌, ◌∷◌};
ghost use Rattle.std.specs.Prelude.{length, map, take, drop, min, IfOk, IfErr, IfNone, IfSome, OnOk, OnErr};
ghost use Rattle.std.specs.Prelude.{slice_get, option_copied, count_by, is_some, vec_len, vec_capacity, IsTrue};
ghost use Rattle.tn_discipline.specs.Keys.{roles_of, role_of_key, literal_role, roles_from, gives_entry};
ghost use Rattle.tn_discipline.specs.{HalfLine.{effect_of, line_after}, Echo.echo_at, Advancing.Advances};
ghost use Rattle.tn_discipline.specs.{RolesTable.IsPlain, declared.echo.Symbol.TheVariants.Byte};
ghost use Rattle.tn_pty.specs.Terminal.{new_terminal, queue_with, queue_with_each, output_symbols};
ghost use Rattle.tn_pty.specs.Terminal.{fitting_count, shut_terminal, first_signal, queue_symbols};
ghost use Rattle.tn_pty.specs.{Terminal.max_waiting, Runs.leading_run, Typing.command_role, Waiting.HasSlots};
ghost use Rattle.tn_pty.specs.Typing.{command_shows, gain_of, symbols_in, echo_symbols, terminal_after};
ghost use Rattle.tn_pty.specs.Typing.{role_of_input, after_byte, after_all, input_gains, JoinsEdited};
ghost use Rattle.tn_pty.specs.Faults.{Accepts, Refuses, AcceptsAll, StopsWithin};
ghost use Rattle.tn_pty.specs.declared.pty.Input.TheVariants.{Keys, Edited};

use crate::slots::{FEW_SLOTS, MAX_WAITING, find_slot, keep, take_first};
use crate::symbols::{QUEUE_SYMBOLS, Queue};
use circular_buffer::HeapCircularBuffer;
use memchr::memchr3;
use std::alloc::{AllocError, Global};
use std::marker::Model;
use thiserror::Error;
use tn_codes::{Command, Func};
use tn_discipline::{
    BELL, Chars, Entry, Flags, Limit, Line, Role, Roles, Settings, Sig, Symbol, echo_of_role,
    role_of_literal,
};

/// The least number of keys that are shown as they are at which they go into the queue at once.
const SHORT_RUN: usize = 8;

/// The symbols that answer AYT.
const YES: [Option<Symbol>; 6] = [
    Some(Symbol::Byte(b'[')),
    Some(Symbol::Byte(b'Y')),
    Some(Symbol::Byte(b'e')),
    Some(Symbol::Byte(b's')),
    Some(Symbol::Byte(b']')),
    Some(Symbol::Newline),
];

/// The reason why a key or a command had no effect. After any of these the pair is closed: it takes
/// no more keys and no commands, and all that waits can still be taken and pulled.
#[derive(Clone, Copy, Debug, PartialEq, Eq, Error)]
pub enum PtyFault {
    /// The key would make an entry while 1,024 wait.
    #[error("too many entries are waiting")]
    TooFarAhead,
    /// There was no memory for the entry that the key would make, or for its text.
    #[error("out of memory")]
    Memory,
    /// The pair was closed before the key came.
    #[error("the pair is closed to input")]
    Closed,
}

/// The form in which bytes come to the master. The contracts of `Pair::type_run` and
/// `Pair::edited_run` share it.
#[derive(Clone, Copy, PartialEq, Eq)]
pub enum Input {
    /// The bytes are keys; the flag is whether they are shown.
    Keys(bool),
    /// The bytes are of a line that was edited before.
    Edited,
}

/// A terminal between a master and a slave. The master types keys, edited bytes and commands, and
/// pulls the symbols that are shown; the slave takes entries and writes output.
#[derive(Drop)]
pub struct Pair {
    roles: Roles,
    line: Line,
    entries: HeapCircularBuffer<Entry>,
    queue: Queue,
    width: u16,
    height: u16,
    closed: bool,
}

impl Model for Pair {
    ghost use Rattle.std.specs.Prelude.{◌≡◌};
    ghost use Rattle.tn_pty.specs.{Terminal.Terminal, Waiting.HasSlots};

    ghost Value = { Terminal };

    ghost view = { λ p. record {
      settings = p.roles;
      line = p.line;
      entries = p.entries.items;
      queue = p.queue;
      width = p.width;
      height = p.height;
      closed = p.closed;
    } };

    ghost invariant = { λ p. HasSlots p.entries };
}

impl Pair {
    /// Makes a pair at which nothing was typed, of size (0, 0), whose lines have at most `limit`
    /// bytes with their closing byte. It takes the room for the line, for all symbols and for 16
    /// entries. It takes room for texts and for more entries when they come, and gives the room for
    /// entries back once none waits.
    ///
    /// # Errors
    ///
    /// - `AllocError`: there is no memory for the line, the entries or the queue.
    pub fn new(alloc: Global, settings: Settings, limit: Limit) -> Result<Pair, AllocError>
        ensures { IfOk result (λ pair. pair ≡ new_terminal settings limit) }
    {
        Ok(Pair {
            roles: Roles::new(alloc, settings)?,
            line: Line::new(alloc, limit)?,
            entries: HeapCircularBuffer::with_capacity(alloc, FEW_SLOTS)?,
            queue: Queue::new(alloc)?,
            width: 0,
            height: 0,
            closed: false,
        })
    }

    /// Types a key at the master, which is shown if `echo` is true. An echo that does not fit whole
    /// into the queue is dropped whole.
    ///
    /// # Errors
    ///
    /// After an error the key had no effect, and the pair is closed: it takes no more keys and
    /// commands, and all else goes on.
    ///
    /// - `TooFarAhead`: the key makes an entry, and 1,024 wait.
    /// - `Memory`: there is no memory for the entry that the key makes, or for its text.
    /// - `Closed`: the pair was closed before.
    pub fn raw_key(&mut self, key: u8, echo: bool) -> Result<(), PtyFault>
        // After any keys that led to this half-typed line, the entries gain those that this key
        // adds.
        ensures advances { let roles = roles_of self.old.settings (key ∷ []) in
            let gain = gain_of self.old.line (role_of_key self.old.settings key) in
            OnOk result (Advances self.old.line roles gain self.new.line) }
        ensures pair { let role = role_of_key self.old.settings key in
            let shown = echo_symbols echo self.old.settings key self.old.line in
            OnOk result (self.new ≡ terminal_after self.old role shown) }
        ensures accepted { OnOk result (Accepts self.old (role_of_key self.old.settings key)) }
        ensures refused { let role = role_of_key self.old.settings key in
            IfErr result (λ fault. Refuses self.old role fault self.new) }
    {
        let role = self.roles.role(key);
        match self.enter(role) {
            Ok(shown) => {
                if echo {
                    self.show_echo(shown);
                }
                Ok(())
            },
            Err(fault) => Err(fault),
        }
    }

    /// Types keys at the master, one after another, which are shown if `echo` is true: each as
    /// `raw_key` does it, and bytes that join the line as they are in runs.
    ///
    /// # Errors
    ///
    /// After an error the keys before the refused one were typed, and the pair is closed.
    /// `TooFarAhead`, `Memory` and `Closed` have the conditions of `raw_key`.
    pub fn type_run(&mut self, keys: &[u8], echo: bool) -> Result<(), PtyFault>
        // After any keys that led to this half-typed line, the entries gain those that these keys
        // add.
        ensures advances { let gain = input_gains (Keys echo) self.old keys.now in
            OnOk result
            (Advances self.old.line (roles_of self.old.settings keys.now) gain self.new.line) }
        ensures entries { let gain = input_gains (Keys echo) self.old keys.now in
            OnOk result (self.new.entries ≡ self.old.entries ++ gain) }
        ensures pair { OnOk result (self.new ≡ after_all (Keys echo) self.old keys.now) }
        ensures accepted { OnOk result (AcceptsAll (Keys echo) self.old keys.now) }
        ensures refused { IfErr result
            (λ fault. StopsWithin (Keys echo) self.old keys.now fault self.new) }
    {
        self.take_each(keys, Input::Keys(echo))
    }

    /// Types a byte of a line that was edited before it came, at the master. Nothing is shown.
    ///
    /// # Errors
    ///
    /// `TooFarAhead`, `Memory` and `Closed` have the conditions of `raw_key`: the byte had no
    /// effect, and the pair is closed.
    pub fn edited_byte(&mut self, byte: u8) -> Result<(), PtyFault>
        ensures advances { let role = literal_role self.old.settings.chars byte in
            OnOk result
            (Advances self.old.line (role ∷ []) (gain_of self.old.line role) self.new.line) }
        ensures pair { let role = literal_role self.old.settings.chars byte in
            OnOk result (self.new ≡ terminal_after self.old role []) }
        ensures accepted { OnOk result
            (Accepts self.old (literal_role self.old.settings.chars byte)) }
        ensures refused { let role = literal_role self.old.settings.chars byte in
            IfErr result (λ fault. Refuses self.old role fault self.new) }
    {
        let role = role_of_literal(&self.roles.settings(), byte);
        match self.enter(role) {
            Ok(_) => Ok(()),
            Err(fault) => Err(fault),
        }
    }

    /// Types bytes of lines that were edited before they came, at the master, one after another:
    /// each as `edited_byte` does it, and bytes that join the line in runs.
    ///
    /// # Errors
    ///
    /// After an error the bytes before the refused one were typed, and the pair is closed.
    /// `TooFarAhead`, `Memory` and `Closed` have the conditions of `raw_key`.
    pub fn edited_run(&mut self, bytes: &[u8]) -> Result<(), PtyFault>
        // After any keys that led to this half-typed line, the entries gain those that these bytes
        // add.
        ensures advances { let roles = map (literal_role self.old.settings.chars) bytes.now in
            OnOk result
            (Advances self.old.line roles (input_gains Edited self.old bytes.now) self.new.line) }
        ensures entries { let gain = input_gains Edited self.old bytes.now in
            OnOk result (self.new.entries ≡ self.old.entries ++ gain) }
        ensures pair { OnOk result (self.new ≡ after_all Edited self.old bytes.now) }
        ensures accepted { OnOk result (AcceptsAll Edited self.old bytes.now) }
        ensures refused { IfErr result
            (λ fault. StopsWithin Edited self.old bytes.now fault self.new) }
    {
        self.take_each(bytes, Input::Edited)
    }

    /// Gives a command at the master. AYT is answered if the answer fits whole into the queue, and
    /// nothing else is shown.
    ///
    /// # Errors
    ///
    /// `TooFarAhead`, `Memory` and `Closed` have the conditions of `raw_key`: the command had no
    /// effect, and the pair is closed.
    pub fn command(&mut self, command: Command) -> Result<(), PtyFault>
        ensures advances { let role = command_role command in
            OnOk result
            (Advances self.old.line (roles_from role) (gain_of self.old.line role) self.new.line) }
        ensures pair { OnOk result
            (self.new ≡ terminal_after self.old (command_role command) (command_shows command)) }
        ensures accepted { OnOk result (Accepts self.old (command_role command)) }
        ensures refused { IfErr result
            (λ fault. Refuses self.old (command_role command) fault self.new) }
    {
        let role = role_of_command(command);
        match self.enter(role) {
            Ok(_) => {
                self.show(answer_to(command));
                Ok(())
            },
            Err(fault) => Err(fault),
        }
    }

    /// Moves the first symbols into `out`, at most `max`, and returns how many they are, from 0 to
    /// 4,096.
    ///
    /// # Errors
    ///
    /// - `AllocError`: `out` has no room for the symbols, and there is no memory for more; nothing
    ///   has moved. No symbols take no memory.
    pub fn pull(&mut self, max: usize, out: &mut Vec<Symbol>) -> Result<usize, AllocError>
        ensures count { IfOk result (λ n. n ≡ min max (length self.old.queue)) }
        ensures out { IfOk result (λ n. out.new.items ≡ out.old.items ++ take n self.old.queue) }
        ensures pair { IfOk result
            (λ n. self.new ≡ record self.old { queue = drop n self.old.queue }) }
        ensures err { OnErr result ((self.new ≡ self.old) × (out.new.items ≡ out.old.items)) }
        ensures full { let count = min max (length self.old.queue) in
            OnErr result (vec_capacity out.old < vec_len out.old + count) }
    {
        let count = max.min(self.queue.len());
        out.reserve(count)?;
        self.queue.pull(count, out);
        Ok(count)
    }

    /// Takes the first symbol that is shown; `None` if none waits to be pulled.
    pub fn pull_symbol(&mut self) -> Option<Symbol>
        ensures first { result ≡ slice_get self.old.queue 0 }
        ensures pair { self.new ≡ record self.old { queue = drop 1 self.old.queue } }
    {
        self.queue.pop()
    }

    /// Moves the leading symbols that are bytes into `out`, as bytes: at most `max` of them, up to
    /// a line feed or one of the two bytes `ends`. It returns how many they are. `out` needs room
    /// for as many.
    pub fn pull_run(&mut self, max: usize, ends: (u8, u8), out: &mut Vec<u8>) -> usize
        requires { vec_len out.old + min max (length self.old.queue) ≤ vec_capacity out.old }
        ensures count { result ≡ min max (length (leading_run ends.0 ends.1 self.old.queue)) }
        ensures out { out.new.items ≡
            out.old.items ++ take result (leading_run ends.0 ends.1 self.old.queue) }
        ensures pair { self.new ≡ record self.old { queue = drop result self.old.queue } }
        ensures len { vec_len out.new ≡ vec_len out.old + result }
        ensures capacity { vec_capacity out.old ≤ vec_capacity out.new }
    {
        self.queue.pull_run(max, ends, out)
    }

    /// Returns the number of symbols that wait to be pulled, from 0 to 4,096.
    pub fn queued(&self) -> usize
        ensures value { result ≡ length self.now.queue }
        ensures within { result ≤ queue_symbols }
    {
        self.queue.len()
    }

    /// Sets the size of the master's window, in columns and rows.
    pub fn resize(&mut self, width: u16, height: u16)
        ensures { self.new ≡ record self.old { width = width; height = height } }
    {
        self.width = width;
        self.height = height;
    }

    /// Returns the half-typed line.
    pub fn half(&self) -> &[u8]
        ensures { result.now ≡ self.now.line.held }
    {
        self.line.held()
    }

    /// Takes the first of the entries that wait, for the slave; `None` if none waits.
    pub fn take(&mut self) -> Option<Entry>
        ensures none { IfNone result ((self.old.entries ≡ []) × (self.new ≡ self.old)) }
        ensures some { IfSome result (λ entry. self.old.entries ≡ entry ∷ self.new.entries) }
        ensures rest { self.new ≡ record self.old { entries = self.new.entries } }
    {
        take_first(&mut self.entries)
    }

    /// Returns an entry that waits, counted from the first, which is 0; `None` if fewer wait.
    pub fn waiting(&self, index: usize) -> Option<&Entry>
        ensures { option_copied result ≡ slice_get self.now.entries index }
    {
        self.entries.get(index)
    }

    /// Returns the number of entries that wait, from 0 to 1,024.
    pub fn waiting_count(&self) -> usize
        ensures value { result ≡ length self.now.entries }
        ensures within { result ≤ max_waiting }
    {
        self.entries.len()
    }

    /// Returns the first signal among the entries that wait.
    pub fn signal_waiting(&self) -> Option<Sig>
        ensures { result ≡ first_signal self.now.entries }
    {
        for entry in self.entries.iter() {
            if let Entry::Signal(sig) = entry {
                return Some(*sig);
            }
        }
        None
    }

    /// Writes output of the slave, and returns the number of bytes that were taken: the first ones,
    /// as many as have room in the queue.
    pub fn write(&mut self, bytes: &[u8]) -> usize
        ensures count { result ≡ fitting_count self.old.queue bytes.now }
        ensures pair { let shown = output_symbols self.old.settings.flags (take result bytes.now) in
            self.new ≡ record self.old { queue = self.old.queue ++ shown } }
    {
        let flags = self.roles.settings().flags;
        let count = bytes.len().min(QUEUE_SYMBOLS - self.queue.len());
        self.queue.push_run(&bytes[..count], shows_newlines(&flags));
        count
    }

    /// Returns the size of the window, in columns and rows, as it was set last.
    pub fn size(&self) -> (u16, u16)
        ensures { result ≡ (self.now.width, self.now.height) }
    {
        (self.width, self.height)
    }

    /// Returns the settings, as they were set last.
    pub fn settings(&self) -> Settings
        ensures { result ≡ self.now.settings }
    {
        self.roles.settings()
    }

    /// Sets the flags for all that is typed and written after this call.
    pub fn set_flags(&mut self, flags: Flags)
        ensures { let settings = record self.old.settings { flags = flags } in
            self.new ≡ record self.old { settings = settings } }
    {
        let mut settings = self.roles.settings();
        settings.flags = flags;
        self.roles.set(settings);
    }

    /// Sets the special characters for all that is typed after this call.
    pub fn set_chars(&mut self, chars: Chars)
        ensures { let settings = record self.old.settings { chars = chars } in
            self.new ≡ record self.old { settings = settings } }
    {
        let mut settings = self.roles.settings();
        settings.chars = chars;
        self.roles.set(settings);
    }

    // Takes the bytes, a prefix of them at a time. It is inlined, so that each caller's copy knows the input.
    #[inline(always)]
    fn take_each(&mut self, bytes: &[u8], input: Input) -> Result<(), PtyFault>
        ensures pair { OnOk result (self.new ≡ after_all input self.old bytes.now) }
        ensures accepted { OnOk result (AcceptsAll input self.old bytes.now) }
        ensures refused { IfErr result
            (λ fault. StopsWithin input self.old bytes.now fault self.new) }
    {
        let mut taken = 0;
        while taken < bytes.len() {
            match self.take_front(&bytes[taken..], input) {
                Ok(count) => taken += count,
                Err(fault) => return Err(fault),
            }
        }
        Ok(())
    }

    // Takes leading bytes that make no entry, and then the next byte; returns how many were taken.
    #[inline(always)]
    fn take_front(&mut self, bytes: &[u8], input: Input) -> Result<usize, PtyFault>
        requires { 0 < length bytes.now }
        ensures some { IfOk result (λ count. 0 < count) }
        ensures within { IfOk result (λ count. count ≤ length bytes.now) }
        ensures pair { IfOk result
            (λ count. self.new ≡ after_all input self.old (take count bytes.now)) }
        ensures accepted { IfOk result (λ count. AcceptsAll input self.old (take count bytes.now)) }
        ensures refused { IfErr result
            (λ fault. StopsWithin input self.old bytes.now fault self.new) }
    {
        let count = self.take_quiet(bytes, input);
        if count == bytes.len() {
            return Ok(count);
        }
        match self.take_one(bytes[count], input) {
            Ok(()) => Ok(count + 1),
            Err(fault) => Err(fault),
        }
    }

    // Takes some of the leading bytes that make no entry, and returns how many; none if the pair is
    // closed.
    #[inline(always)]
    fn take_quiet(&mut self, bytes: &[u8], input: Input) -> usize
        ensures within { result ≤ length bytes.now }
        ensures pair { self.new ≡ after_all input self.old (take result bytes.now) }
        ensures accepted { AcceptsAll input self.old (take result bytes.now) }
    {
        match input {
            Input::Keys(echo) => self.type_quiet(bytes, echo),
            Input::Edited => self.keep_edited(bytes),
        }
    }

    // Takes one byte.
    #[inline(always)]
    fn take_one(&mut self, byte: u8, input: Input) -> Result<(), PtyFault>
        ensures pair { OnOk result (self.new ≡ after_byte input self.old byte) }
        ensures accepted { let role = role_of_input input self.old.settings byte in
            OnOk result (Accepts self.old role) }
        ensures refused { let role = role_of_input input self.old.settings byte in
            IfErr result (λ fault. Refuses self.old role fault self.new) }
    {
        match input {
            Input::Keys(echo) => self.raw_key(byte, echo),
            Input::Edited => self.edited_byte(byte),
        }
    }

    // Takes the leading bytes of an edited line that join it, and returns how many they are; none
    // if the pair is closed.
    fn keep_edited(&mut self, bytes: &[u8]) -> usize
        ensures within { result ≤ length bytes.now }
        ensures pair { self.new ≡ after_all Edited self.old (take result bytes.now) }
        ensures accepted { AcceptsAll Edited self.old (take result bytes.now) }
    {
        if self.closed {
            return 0;
        }
        let count = joining_front(&self.roles.settings().chars, bytes);
        let _kept = self.line.keep_run(&bytes[..count]);
        count
    }

    // Types some of the leading keys that make no entry, and returns how many; none if the pair is
    // closed.
    fn type_quiet(&mut self, keys: &[u8], echo: bool) -> usize
        ensures within { result ≤ length keys.now }
        ensures pair { self.new ≡ after_all (Keys echo) self.old (take result keys.now) }
        ensures accepted { AcceptsAll (Keys echo) self.old (take result keys.now) }
    {
        if self.closed {
            return 0;
        }
        let shows = self.shows(echo);
        if shows {
            let count = self.roles.ordinary_front(keys);
            self.type_plain(&keys[..count], echo);
            return count;
        }
        self.line.edit_run(&self.roles, keys)
    }

    // Returns whether keys that make no entry are shown.
    fn shows(&self, echo: bool) -> bool
        ensures { result ≡ (echo && self.now.settings.flags.echo) }
    {
        echo && self.roles.settings().flags.echo
    }

    // Types bytes that join the line as they are: as many as fit are held, and shown as they are, and each
    // other one as a bell.
    fn type_plain(&mut self, keys: &[u8], echo: bool)
        requires { All (IsPlain self.old.settings) keys.now }
        ensures { self.new ≡ after_all (Keys echo) self.old keys.now }
    {
        let kept = self.line.keep_run(keys);
        if echo && self.roles.settings().flags.echo {
            put_echoes(&mut self.queue, &keys[..kept]);
            put_bells(&mut self.queue, &keys[kept..]);
        }
    }

    // Applies a key or a command of this role, and returns its echo, which is not shown yet.
    #[inline(always)]
    fn enter(&mut self, role: Role) -> Result<[Option<Symbol>; 3], PtyFault>
        ensures echo { IfOk result
            (λ shown. shown ≡ echo_at self.old.settings.flags role (effect_of self.old.line role)) }
        ensures pair { OnOk result (self.new ≡ record self.old {
          line = line_after self.old.line role;
          entries = self.old.entries ++ gain_of self.old.line role;
        }) }
        ensures accepted { OnOk result (Accepts self.old role) }
        ensures refused { IfErr result (λ fault. Refuses self.old role fault self.new) }
    {
        if let Some(fault) = self.refusal(role) {
            return Err(self.close(fault));
        }
        let flags = self.roles.settings().flags;
        match play(&mut self.line, &mut self.entries, role, &flags) {
            Ok(shown) => Ok(shown),
            Err(_) => Err(self.close(PtyFault::Memory)),
        }
    }

    // Returns the reason why a key of this role is refused, before any memory is looked for.
    fn refusal(&self, role: Role) -> Option<PtyFault>
        ensures none { IfNone result (Accepts self.now role) }
        ensures some { IfSome result
            (λ fault. Refuses self.now role fault (shut_terminal self.now)) }
    {
        let is_full = self.entries.len() >= MAX_WAITING;
        if self.closed {
            return Some(PtyFault::Closed);
        }
        if is_full && role.gives_entry() {
            return Some(PtyFault::TooFarAhead);
        }
        None
    }

    // Closes the pair: no key and no command has an effect from then on.
    fn close(&mut self, fault: PtyFault) -> PtyFault
        ensures pair { self.new ≡ shut_terminal self.old }
        ensures fault { result ≡ fault }
    {
        self.closed = true;
        fault
    }

    // Puts those of the symbols that are there into the queue, or none if they do not all fit.
    #[tactic(auto, using(crate::proofs::Shown::count_present))]
    fn show(&mut self, symbols: &[Option<Symbol>])
        ensures { self.new ≡
            record self.old { queue = queue_with self.old.queue (symbols_in symbols.now) } }
    {
        if count_present(symbols) <= QUEUE_SYMBOLS - self.queue.len() {
            put_present(&mut self.queue, symbols);
        }
    }

    // Puts the echo of a key, which most often is one symbol, into the queue, or none of it if it
    // does not fit.
    fn show_echo(&mut self, shown: [Option<Symbol>; 3])
        ensures { self.new ≡
            record self.old { queue = queue_with self.old.queue (symbols_in shown) } }
    {
        match (shown[0], shown[1], shown[2]) {
            (Some(symbol), None, None) => self.queue.push(symbol),
            (None, None, None) => {},
            _ => self.show(&shown),
        }
    }
}

// Applies a key of this role to the line and to the entries, and returns its echo. If there is no memory
// for the entry that it makes, nothing has changed.
#[inline(always)]
fn play(
    line: &mut Line,
    entries: &mut HeapCircularBuffer<Entry>,
    role: Role,
    flags: &Flags,
) -> Result<[Option<Symbol>; 3], AllocError>
    requires some { HasSlots entries.old }
    requires room { IsTrue (gives_entry role) → length entries.old.items < max_waiting }
    ensures echo { IfOk result (λ shown. shown ≡ echo_at flags.now role (effect_of line.old role)) }
    ensures line { OnOk result (line.new ≡ line_after line.old role) }
    ensures entries { OnOk result (entries.new.items ≡ entries.old.items ++ gain_of line.old role) }
    ensures some { HasSlots entries.new }
    ensures only_an_entry { OnErr result (IsTrue (gives_entry role)) }
    ensures err_line { OnErr result (line.new ≡ line.old) }
    ensures err_entries { OnErr result (entries.new.items ≡ entries.old.items) }
{
    find_slot(entries, role)?;
    let effect = line.play(role)?;
    let shown = echo_of_role(&effect, role, flags);
    keep(entries, effect);
    Ok(shown)
}

fn role_of_command(command: Command) -> Role
    ensures { result ≡ command_role command }
{
    match command {
        Command::Eof => Role::Eof,
        Command::Susp => Role::Signal(Sig::Tstp),
        Command::Abort => Role::Signal(Sig::Quit),
        Command::Brk | Command::Ip => Role::Signal(Sig::Int),
        Command::Ec => Role::Erase,
        Command::El => Role::Kill,
        _ => Role::Ignored,
    }
}

// Returns the number of leading bytes of an edited line that join it. The byte after them closes
// it, or there is none.
fn joining_front(chars: &Chars, bytes: &[u8]) -> usize
    ensures within { result ≤ length bytes.now }
    ensures joins { All (JoinsEdited chars.now) (take result bytes.now) }
    ensures next { result < length bytes.now →
        JoinsEdited chars.now (get_or bytes.now result 0) → ⊥ }
{
    // In the place of a character that is disabled, a line feed is looked for twice.
    let eol = chars.get(Func::Forw1).unwrap_or(b'\n');
    let eol2 = chars.get(Func::Forw2).unwrap_or(b'\n');
    match memchr3(b'\n', eol, eol2, bytes) {
        Some(count) => count,
        None => bytes.len(),
    }
}

fn answer_to(command: Command) -> &'static [Option<Symbol>]
    ensures { symbols_in result.now ≡ command_shows command }
{
    match command {
        Command::Ayt => &YES,
        _ => &[],
    }
}

fn count_present(symbols: &[Option<Symbol>]) -> usize
    ensures { result ≡ count_by (λ symbol. is_some symbol) symbols.now }
{
    symbols.iter().filter(|symbol| symbol.is_some()).count()
}

// Puts those of the symbols that are there into a queue that has room.
fn put_present(queue: &mut Queue, symbols: &[Option<Symbol>])
    requires { length queue.old + length (symbols_in symbols.now) ≤ queue_symbols }
    ensures { queue.new ≡ queue.old ++ symbols_in symbols.now }
{
    for symbol in symbols {
        if let Some(symbol) = symbol {
            queue.push(*symbol);
        }
    }
}

// Puts each of the bytes that fits into the queue, as it is shown.
fn put_echoes(queue: &mut Queue, bytes: &[u8])
    ensures { queue.new ≡ queue_with_each queue.old (map Byte bytes.now) }
{
    if bytes.len() < SHORT_RUN {
        put_few_echoes(queue, bytes);
        return;
    }
    let count = bytes.len().min(QUEUE_SYMBOLS - queue.len());
    queue.push_run(&bytes[..count], false);
}

// Puts each of the bytes that fits into the queue, one by one, which is faster if they are few.
fn put_few_echoes(queue: &mut Queue, bytes: &[u8])
    ensures { queue.new ≡ queue_with_each queue.old (map Byte bytes.now) }
{
    for byte in bytes {
        queue.push(Symbol::Byte(*byte));
    }
}

// Puts a bell for each of the bytes into the queue, if it fits.
fn put_bells(queue: &mut Queue, bytes: &[u8])
    ensures { queue.new ≡ queue_with_each queue.old (map (λ byte. Byte 7) bytes.now) }
{
    for _byte in bytes {
        queue.push(Symbol::Byte(BELL));
    }
}

// Returns whether a line feed of output is shown as a new line.
fn shows_newlines(flags: &Flags) -> bool
    ensures { result ≡ (flags.now.opost && flags.now.onlcr) }
{
    flags.opost && flags.onlcr
}
