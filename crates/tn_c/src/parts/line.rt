//! A line that is typed, and the entry that its last key gave.

ghost use Rattle.std.specs.Prelude.{◌≡◌, ◌≢◌, IfOk};
ghost use Rattle.tn_c.specs.parts.{Bytes.Gives, Calling.{OfFunction, GivesChar}, Echoes.GivesEcho};
ghost use Rattle.tn_c.specs.parts.{Entries.text_of, LineCalls.IsLineChar, Readings.char_given};
ghost use Rattle.tn_c.specs.parts.LineCalls.{IsEmpty, KeyCall, HalfGiven, SetFlagsCall, SetCharCall};
ghost use Rattle.tn_c.specs.declared.parts.codes.Code.TheVariants as code;

use crate::parts::bytes::give;
use crate::parts::codes::Code;
use crate::parts::echo::shown_bytes;
use crate::parts::entries::{effect_number, entry_given, text_of};
use crate::parts::readings::{char_given, give_char};
use std::alloc::{AllocError, Global};
use tn_codes::Func;
use tn_discipline::{CharFault, Chars, Entry, Flags, Limit, Line, Settings, Symbol, echo_of};

/// A line that is typed under some settings, and of its last key the entry that it gave and the
/// bytes that a terminal shows of it.
#[derive(Drop)]
pub struct HeldLine {
    pub line: Line,
    pub settings: Settings,
    pub entry: Option<Entry>,
    pub echo: [Option<Symbol>; 3],
}

impl HeldLine {
    /// Makes an empty line under these flags and the standard special characters.
    ///
    /// # Errors
    ///
    /// - `AllocError`: there is no memory for the line.
    pub fn start(alloc: Global, flags: Flags, limit: Limit) -> Result<HeldLine, AllocError>
        ensures { IfOk result (IsEmpty flags limit) }
    {
        Ok(HeldLine {
            line: Line::new(alloc, limit)?,
            settings: Settings {
                flags,
                chars: Chars::standard(),
            },
            entry: None,
            echo: [None, None, None],
        })
    }

    /// Types a key, and sets `effect` to the number of its effect.
    pub fn key(&mut self, key: u8, effect: &mut u32) -> Code
        ensures { KeyCall key effect.old effect.new result self.old self.new }
    {
        match self.line.key(&self.settings, key) {
            Ok(done) => {
                self.echo = echo_of(&done, key, &self.settings);
                *effect = effect_number(&done);
                self.entry = entry_given(done);
                Code::Done
            },
            Err(_) => Code::Memory,
        }
    }

    /// Copies the first bytes of the text that the last key gave, as many as fit, and sets `count`
    /// to the number of all of them.
    pub fn text(&self, buf: &mut [u8], count: &mut usize)
        ensures { Gives (text_of self.now.entry) buf.old buf.new count.new }
    {
        *count = give(text_of(&self.entry), buf);
    }

    /// Copies the first bytes of the half-typed line, as many as fit, and sets `count` to the
    /// number of all of them.
    pub fn half(&self, buf: &mut [u8], count: &mut usize)
        ensures { HalfGiven buf.old buf.new count.new self.now }
    {
        *count = give(self.line.held(), buf);
    }

    /// Copies the bytes that a terminal shows of the last key, as many as fit, and sets `count` to
    /// the number of all of them.
    pub fn echo(&self, alloc: Global, buf: &mut [u8], count: &mut usize) -> Code
        ensures { GivesEcho self.now.echo
            (record { old_buf = buf.old; new_buf = buf.new; old_count = count.old; new_count = count.new })
            result }
    {
        match shown_bytes(alloc, self.echo) {
            Ok(bytes) => {
                *count = give(bytes.as_slice(), buf);
                Code::Done
            },
            Err(_) => Code::Memory,
        }
    }

    /// Sets the flags of the line; the half-typed line stays.
    pub fn set_flags(&mut self, flags: Flags)
        ensures { SetFlagsCall flags self.old self.new }
    {
        self.settings.flags = flags;
    }

    /// Changes the special character of a function, or disables it; the half-typed line stays.
    pub fn set_char(&mut self, func: Func, value: Option<u8>) -> Code
        ensures call { SetCharCall value func result self.old self.new }
        ensures known { result ≢ code.NoFunction }
    {
        match self.settings.chars.set(func, value) {
            Ok(()) => Code::Done,
            Err(CharFault::NotSettable) => Code::NotSettable,
            Err(CharFault::Reserved) => Code::Reserved,
            Err(CharFault::Taken) => Code::Taken,
        }
    }

    /// Changes the special character of the function with this number, as C gives both.
    pub fn set_function(&mut self, function: u8, value: u16) -> Code
        ensures { OfFunction function (SetCharCall (char_given value)) result self.old self.new }
    {
        match Func::from_code(function) {
            Some(func) => self.set_char(func, char_given(value)),
            None => Code::NoFunction,
        }
    }

    /// Sets `value` to the number of the special character of the function with this number; 256 if
    /// it is disabled.
    pub fn function_char(&self, function: u8, value: &mut u16) -> Code
        ensures { GivesChar function value.old value.new IsLineChar result self.now self.now }
    {
        give_char(&self.settings.chars, function, value)
    }
}
