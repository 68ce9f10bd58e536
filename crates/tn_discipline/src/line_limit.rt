//! The limit on the length of a line.

ghost use Rattle.std.specs.Prelude.{◌≡◌, Some, None, IsTrue, if◌then◌else◌};
ghost use Rattle.tn_discipline.specs.Limits.{standard_limit, is_limit};

use std::marker::Model;

/// The limit of a new terminal, and the least that a terminal may have.
const STANDARD_BYTES: u16 = 255;

const MAX_BYTES: u16 = 4095;

/// The most bytes that a line of a terminal may have, with its closing byte: MAX_CANON of
/// POSIX.1-2017, XBD 11.1.6, from 255 to 4,095.
#[derive(Clone, Copy, Debug, PartialEq, Eq)]
pub struct Limit {
    bytes: u16,
}

impl Model for Limit {
    ghost use Rattle.std.specs.Prelude.{ℕ, ◌≡◌, IsTrue};
    ghost use Rattle.tn_discipline.specs.Limits.{is_limit};

    ghost Value = { ℕ };

    ghost view = { λ limit. limit.bytes };

    ghost invariant = { λ limit. IsTrue (is_limit limit.bytes) };

    ghost inverse = { λ bytes. record { bytes = bytes } };
}

impl Limit {
    /// Makes a limit of this number of bytes, from 255 to 4,095; `None` outside of that range.
    pub fn new(bytes: u16) -> Option<Limit>
        ensures { result ≡ (if is_limit bytes then Some bytes else None) }
    {
        if (STANDARD_BYTES..=MAX_BYTES).contains(&bytes) {
            Some(Limit { bytes })
        } else {
            None
        }
    }

    /// Makes the limit of 255 bytes, which POSIX.1-2017 asks of every terminal (_POSIX_MAX_CANON).
    pub fn standard() -> Limit
        ensures { result ≡ standard_limit }
    {
        Limit {
            bytes: STANDARD_BYTES,
        }
    }

    /// Returns the number of bytes, from 255 to 4,095.
    pub fn bytes(self) -> u16
        ensures value { result ≡ self }
        ensures within { IsTrue (is_limit self) }
    {
        self.bytes
    }
}
