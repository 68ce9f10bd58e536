//! The special characters of a terminal.

ghost use Rattle.std.specs.Prelude.{◌≡◌, ◌↔◌, Some, None, find, IfErr, OnOk, OnErr};
ghost use Rattle.tn_codes.specs.declared.codes.Func.{Func};
ghost use Rattle.tn_discipline.specs.Characters.{standard_characters, AreAllowed, slot, with_slot};
ghost use Rattle.tn_discipline.specs.Characters.{special_functions, is_settable, is_set_to, is_taken};
ghost use Rattle.tn_discipline.specs.Characters.{char_fault, is_reserved};

use std::marker::Model;
use thiserror::Error;
use tn_codes::Func;

/// Passes the special characters to a macro, in rising number of their functions, after the
/// arguments: each as its function, the terminal's name for it, the command that stands for it in a
/// stream, if there is one, and its standard value.
#[macro_export]
macro_rules! special_characters {
    ($callback:ident $(, $argument:expr)*) => {
        $callback!($($argument,)*
            Ip intr [Ip] = Some(3),
            Abort quit [Abort] = Some(28),
            Eof eof [Eof] = Some(4),
            Susp susp [Susp] = Some(26),
            Ec erase [Ec] = Some(127),
            El kill [El] = Some(21),
            Forw1 eol [] = None,
            Forw2 eol2 [] = None)
    };
}

macro_rules! standard_values {
    ($($func:ident $name:ident [$($command:ident)?] = $standard:expr),*) => {
        Chars { $($name: $standard,)* }
    };
}

macro_rules! value_of {
    ($chars:expr, $wanted:expr, $($func:ident $name:ident [$($command:ident)?] = $standard:expr),*) => {
        match $wanted {
            $(Func::$func => $chars.$name,)*
            _ => None,
        }
    };
}

macro_rules! put_value {
    (
        $chars:expr, $wanted:expr, $value:expr,
        $($func:ident $name:ident [$($command:ident)?] = $standard:expr),*
    ) => {
        match $wanted {
            $(Func::$func => $chars.$name = $value,)*
            _ => {},
        }
    };
}

macro_rules! functions {
    ($($func:ident $name:ident [$($command:ident)?] = $standard:expr),*) => {
        [$(Func::$func),*]
    };
}

/// The functions that have a special character, in rising number.
pub const SPECIAL: [Func; 8] = special_characters!(functions);

/// The reason why a special character was not changed.
#[derive(Clone, Copy, Debug, PartialEq, Eq, Error)]
pub enum CharFault {
    #[error("the function has no special character")]
    NotSettable,
    #[error("a line feed, a carriage return and 255 are never special characters")]
    Reserved,
    #[error("another special character has this value")]
    Taken,
}

/// The special characters of a terminal (POSIX.1-2017, XBD 11.1.9), each a byte or disabled.
#[derive(Clone, Copy, PartialEq, Eq)]
pub struct Chars {
    intr: Option<u8>,
    quit: Option<u8>,
    eof: Option<u8>,
    susp: Option<u8>,
    erase: Option<u8>,
    kill: Option<u8>,
    eol: Option<u8>,
    eol2: Option<u8>,
}

impl Model for Chars {
    ghost use Rattle.tn_discipline.specs.Characters.{Characters, AreAllowed};

    ghost Value = { Characters };

    ghost view = { λ c. record {
      intr = c.intr;
      quit = c.quit;
      eof = c.eof;
      susp = c.susp;
      erase = c.erase;
      kill = c.kill;
      eol = c.eol;
      eol2 = c.eol2;
    } };

    ghost invariant = { λ c. AreAllowed (record {
      intr = c.intr;
      quit = c.quit;
      eof = c.eof;
      susp = c.susp;
      erase = c.erase;
      kill = c.kill;
      eol = c.eol;
      eol2 = c.eol2;
    }) };

    ghost inverse = { λ c. record {
      intr = c.intr;
      quit = c.quit;
      eof = c.eof;
      susp = c.susp;
      erase = c.erase;
      kill = c.kill;
      eol = c.eol;
      eol2 = c.eol2;
    } };
}

/// Returns whether no special character may be this byte: a line feed (10), a carriage return (13)
/// or 255, which is IAC.
pub fn is_reserved(byte: u8) -> bool
    ensures { result ≡ is_reserved byte }
{
    byte == b'\n' || byte == b'\r' || byte == 255
}

impl Chars {
    /// Makes the characters of a new terminal: the bytes 3, 28, 4, 26, 127 and 21, and no EOL or
    /// EOL2. POSIX.1-2017, XBD 11.1.9 names no values.
    pub fn standard() -> Self
        ensures value { result ≡ standard_characters }
        ensures allowed { AreAllowed result }
    {
        special_characters!(standard_values)
    }

    /// Returns the character of a function; `None` if it is disabled, or the function has none.
    pub fn get(&self, func: Func) -> Option<u8>
        ensures value { result ≡ slot self.now func }
        ensures allowed { AreAllowed self.now }
    {
        special_characters!(value_of, self, func)
    }

    /// Returns the function whose character the byte is.
    pub fn holder(&self, byte: u8) -> Option<Func>
        ensures found { (func : Func) → (result ≡ Some func) ↔ (slot self.now func ≡ Some byte) }
        ensures allowed { AreAllowed self.now }
    {
        let _chars = &self.intr;
        self.first_with(byte)
    }

    /// Returns the reason why `set` would refuse this value, or `None` if it would not.
    pub fn refusal(&self, func: Func, value: Option<u8>) -> Option<CharFault>
        ensures fault { result ≡ char_fault self.now func value }
        ensures allowed { AreAllowed self.now }
    {
        let _chars = &self.intr;
        if !has_character(func) {
            return Some(CharFault::NotSettable);
        }
        let byte = value?;
        if is_reserved(byte) {
            return Some(CharFault::Reserved);
        }
        if self.is_taken(func, byte) {
            return Some(CharFault::Taken);
        }
        None
    }

    /// Changes the character of a function, or disables it by `None`.
    ///
    /// # Errors
    ///
    /// `refusal` returns the same fault beforehand. After an error nothing has changed.
    ///
    /// - `NotSettable`: the function has no special character.
    /// - `Reserved`: the byte is a line feed (10), a carriage return (13) or 255.
    /// - `Taken`: the byte is the character of another function.
    pub fn set(&mut self, func: Func, value: Option<u8>) -> Result<(), CharFault>
        ensures accepted { OnOk result (char_fault self.old func value ≡ None) }
        ensures ok { OnOk result (self.new ≡ with_slot self.old func value) }
        ensures fault { IfErr result (λ fault. char_fault self.old func value ≡ Some fault) }
        ensures err { OnErr result (self.new ≡ self.old) }
        ensures allowed { AreAllowed self.new }
    {
        match self.refusal(func, value) {
            Some(fault) => Err(fault),
            None => {
                self.put(func, value);
                Ok(())
            }
        }
    }

    fn put(&mut self, func: Func, value: Option<u8>)
        requires { AreAllowed (with_slot self.old func value) }
        ensures { self.new ≡ with_slot self.old func value }
    {
        special_characters!(put_value, self, func, value)
    }

    // Returns the first function whose character the byte is.
    fn first_with(&self, byte: u8) -> Option<Func>
        ensures { result ≡ find (λ func. is_set_to (slot self.now func) byte) special_functions }
    {
        SPECIAL.iter().copied().find(|func| self.has(*func, byte))
    }

    // Returns whether the byte is the character of another function.
    fn is_taken(&self, func: Func, byte: u8) -> bool
        ensures { result ≡ is_taken self.now func byte }
    {
        SPECIAL.iter().any(|other| other.code() != func.code() && self.has(*other, byte))
    }

    // Returns whether the byte is the character of the function.
    pub(crate) fn has(&self, func: Func, byte: u8) -> bool
        ensures { result ≡ is_set_to (slot self.now func) byte }
    {
        self.get(func) == Some(byte)
    }
}

fn has_character(func: Func) -> bool
    ensures { result ≡ is_settable func }
{
    SPECIAL.iter().any(|other| other.code() == func.code())
}
