//! The special characters of the user's own terminal.

ghost use Rattle.std.specs.Prelude.{◌≡◌};
ghost use Rattle.tn_discipline.specs.Characters.{is_set_to};
ghost use Rattle.tn_net.specs.Mapping.{mapped, none_own, own_function, standard_for};

use tn_codes::Func;
use tn_discipline::{Chars, is_reserved};

/// The special characters of the user's own terminal (POSIX.1-2017, XBD 11.1.9), each a byte, or
/// none if it is disabled. Two may be the same byte.
#[derive(Clone, Copy, PartialEq, Eq)]
pub struct OwnCharacters {
    pub intr: Option<u8>,
    pub quit: Option<u8>,
    pub susp: Option<u8>,
    pub erase: Option<u8>,
    pub kill: Option<u8>,
    pub eof: Option<u8>,
}

impl OwnCharacters {
    /// Makes characters none of which is the user's own.
    pub fn none() -> OwnCharacters
        ensures { result ≡ none_own }
    {
        OwnCharacters {
            intr: None,
            quit: None,
            susp: None,
            erase: None,
            kill: None,
            eof: None,
        }
    }

    /// Returns the byte that a session gets for a byte that is typed: for a character of the user's
    /// own the standard one of the same function, and every other byte as it is.
    pub fn mapped(&self, byte: u8) -> u8
        ensures { result ≡ mapped self.now byte }
    {
        if is_reserved(byte) {
            return byte;
        }
        standard_for(self.function(byte), byte)
    }

    // Returns the function of the first character that this byte is.
    fn function(&self, byte: u8) -> Option<Func>
        ensures { result ≡ own_function self.now byte }
    {
        if is_set_to(self.intr, byte) {
            return Some(Func::Ip);
        }
        if is_set_to(self.quit, byte) {
            return Some(Func::Abort);
        }
        if is_set_to(self.susp, byte) {
            return Some(Func::Susp);
        }
        if is_set_to(self.erase, byte) {
            return Some(Func::Ec);
        }
        if is_set_to(self.kill, byte) {
            return Some(Func::El);
        }
        if is_set_to(self.eof, byte) {
            return Some(Func::Eof);
        }
        None
    }
}

fn is_set_to(character: Option<u8>, byte: u8) -> bool
    ensures { result ≡ is_set_to character byte }
{
    character == Some(byte)
}

// Returns the standard character of this function, or the byte itself if there is none.
fn standard_for(function: Option<Func>, byte: u8) -> u8
    ensures { result ≡ standard_for function byte }
{
    match function {
        Some(function) => Chars::standard().get(function).unwrap_or(byte),
        None => byte,
    }
}
