//! The flags and the settings of a terminal.

ghost use Rattle.std.specs.Prelude.{◌≡◌};
ghost use Rattle.tn_discipline.specs.{Keys.standard_flags, Characters.standard_characters};

use crate::characters::Chars;

/// The flags of a terminal, under their names in POSIX.1-2017, XBD 11.2.
#[derive(Clone, Copy, PartialEq, Eq)]
pub struct Flags {
    pub icrnl: bool,
    pub inlcr: bool,
    pub igncr: bool,
    pub isig: bool,
    pub echo: bool,
    pub echoe: bool,
    pub echok: bool,
    pub echonl: bool,
    pub tostop: bool,
    pub opost: bool,
    pub onlcr: bool,
}

/// The settings of a terminal: its flags and its special characters, which decide how keys and
/// output are processed.
#[derive(Clone, Copy, PartialEq, Eq)]
pub struct Settings {
    pub flags: Flags,
    pub chars: Chars,
}

impl Settings {
    /// Makes the settings of a new terminal: of the flags (POSIX.1-2017, XBD 11.2) ICRNL, ISIG,
    /// ECHO, ECHOE, ECHOK, OPOST and ONLCR are set, and the characters are `Chars::standard`.
    pub fn standard() -> Self
        ensures flags { result.flags ≡ standard_flags }
        ensures chars { result.chars ≡ standard_characters }
    {
        Settings {
            flags: Flags {
                icrnl: true,
                inlcr: false,
                igncr: false,
                isig: true,
                echo: true,
                echoe: true,
                echok: true,
                echonl: false,
                tostop: false,
                opost: true,
                onlcr: true,
            },
            chars: Chars::standard(),
        }
    }
}
