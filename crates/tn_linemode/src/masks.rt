//! The masks of MODE (RFC 1184, section 2.2).

ghost use Rattle.std.specs.Prelude.{◌≡◌};
ghost use Rattle.tn_linemode.specs.Modes.{mode_of, is_acknowledged, edits, traps, IsMode};

use std::marker::Model;
use tn_codes::{EDIT, MODE_ACK, TRAPSIG};

/// A mode: whether the client edits lines, and whether it sends its signal characters as commands.
#[derive(Clone, Copy, PartialEq, Eq)]
pub struct Mode {
    mask: u8,
}

impl Model for Mode {
    ghost use Rattle.std.specs.Prelude.{ℕ};
    ghost use Rattle.tn_linemode.specs.Modes.{IsMode};

    ghost Value = { ℕ };

    ghost view = { λ m. m.mask };

    ghost invariant = { λ m. IsMode m.mask };

    ghost inverse = { λ mask. record { mask = mask } };
}

impl Mode {
    /// Makes the mode of no editing, and no signals as commands.
    pub fn none() -> Mode
        ensures { result ≡ 0 }
    {
        Mode { mask: 0 }
    }

    /// Makes the mode of a mask, of which only EDIT (1) and TRAPSIG (2) are kept.
    pub fn of(mask: u8) -> Mode
        ensures { result ≡ mode_of mask }
    {
        Mode {
            mask: mask & (EDIT | TRAPSIG),
        }
    }

    /// Returns whether the client edits lines.
    pub fn edit(self) -> bool
        ensures { result ≡ edits self }
    {
        self.mask & EDIT != 0
    }

    /// Returns whether the client sends its signal characters as commands.
    pub fn trapsig(self) -> bool
        ensures { result ≡ traps self }
    {
        self.mask & TRAPSIG != 0
    }

    /// Returns the mask that has only the mode's bits, 0 to 3.
    pub fn mask(self) -> u8
        ensures value { result ≡ self }
        ensures mode { IsMode result }
    {
        self.mask
    }
}

pub fn is_acknowledged(mask: u8) -> bool
    ensures { result ≡ is_acknowledged mask }
{
    mask & MODE_ACK != 0
}

pub fn edits(mask: u8) -> bool
    ensures { result ≡ edits mask }
{
    mask & EDIT != 0
}
