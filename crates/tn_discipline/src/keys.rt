//! The roles of keys.

ghost use Rattle.std.specs.Prelude.{◌≡◌};
ghost use Rattle.tn_discipline.specs.{Editing.closing_byte, Keys.gives_entry};
ghost use Rattle.tn_discipline.specs.Keys.{mapped_key, role_of_mapped, signal_of, role_of_key, literal_role};

use crate::characters::Chars;
use crate::reads::Sig;
use crate::termios::{Flags, Settings};
use tn_codes::Func;

/// The role of a key: its effect on the line.
#[derive(Clone, Copy, Debug, PartialEq, Eq)]
pub enum Role {
    /// A carriage return, which is dropped.
    Ignored,
    /// A line feed, which closes the line.
    Nl,
    /// The EOL character, which closes the line with its own byte.
    Eol(u8),
    /// The EOL2 character, a second EOL, which closes the line with its own byte.
    Eol2(u8),
    /// The EOF character, which closes the line with no byte.
    Eof,
    Signal(Sig),
    /// The ERASE character, which takes back the last byte.
    Erase,
    /// The KILL character, which takes back the whole half-typed line.
    Kill,
    /// Any other byte, which joins the line.
    Ordinary(u8),
}

impl Role {
    /// Returns whether a key of this role makes an entry.
    pub fn gives_entry(self) -> bool
        ensures { result ≡ gives_entry self }
    {
        matches!(
            self,
            Role::Nl | Role::Eol(_) | Role::Eol2(_) | Role::Eof | Role::Signal(_)
        )
    }

    /// Returns the byte with which a key of this role closes a line, if it closes it with one.
    pub(crate) fn closing(self) -> Option<u8>
        ensures { result ≡ closing_byte self }
    {
        match self {
            Role::Nl => Some(b'\n'),
            Role::Eol(byte) | Role::Eol2(byte) => Some(byte),
            _ => None,
        }
    }
}

fn mapped(flags: &Flags, key: u8) -> Option<u8>
    ensures { result ≡ mapped_key flags.now key }
{
    match key {
        b'\r' if flags.igncr => None,
        b'\r' if flags.icrnl => Some(b'\n'),
        b'\n' if flags.inlcr => Some(b'\r'),
        _ => Some(key),
    }
}

fn signal(chars: &Chars, byte: u8) -> Option<Sig>
    ensures { result ≡ signal_of chars.now byte }
{
    if chars.has(Func::Ip, byte) {
        Some(Sig::Int)
    } else if chars.has(Func::Abort, byte) {
        Some(Sig::Quit)
    } else if chars.has(Func::Susp, byte) {
        Some(Sig::Tstp)
    } else {
        None
    }
}

fn mapped_role(settings: &Settings, byte: u8) -> Role
    ensures { result ≡ role_of_mapped settings.now byte }
{
    let chars = &settings.chars;
    if byte == b'\n' {
        return Role::Nl;
    }
    if chars.has(Func::Forw1, byte) {
        return Role::Eol(byte);
    }
    if chars.has(Func::Forw2, byte) {
        return Role::Eol2(byte);
    }
    if chars.has(Func::Eof, byte) {
        return Role::Eof;
    }
    if chars.has(Func::Ec, byte) {
        return Role::Erase;
    }
    if chars.has(Func::El, byte) {
        return Role::Kill;
    }
    match signal(chars, byte) {
        Some(sig) if settings.flags.isig => Role::Signal(sig),
        _ => Role::Ordinary(byte),
    }
}

/// Returns the role of a typed byte under the settings: it is mapped first (XBD 11.2.2), and then
/// looked up among the special characters (XBD 11.1.9).
pub fn role_of(settings: &Settings, key: u8) -> Role
    ensures { result ≡ role_of_key settings.now key }
{
    match mapped(&settings.flags, key) {
        None => Role::Ignored,
        Some(byte) => mapped_role(settings, byte),
    }
}

/// Returns the role of a byte of a line that was edited before it came. The byte is not mapped: a
/// line feed, the EOL or the EOL2 character closes the line, and any other byte is ordinary.
pub fn role_of_literal(settings: &Settings, byte: u8) -> Role
    ensures { result ≡ literal_role settings.now.chars byte }
{
    if byte == b'\n' {
        Role::Nl
    } else if settings.chars.has(Func::Forw1, byte) {
        Role::Eol(byte)
    } else if settings.chars.has(Func::Forw2, byte) {
        Role::Eol2(byte)
    } else {
        Role::Ordinary(byte)
    }
}
