//! The mode of LINEMODE at the server.

ghost use Rattle.std.specs.Prelude.{◌≡◌};
ghost use Rattle.tn_linemode.specs.Modes.{no_mode, modes_after_wish, mask_sent, modes_after_mode};
ghost use Rattle.tn_linemode.specs.Modes.{wish_of_mask};

use crate::masks::{Mode, edits, is_acknowledged};
use std::marker::Model;

/// The server's side of MODE: the mode that it asked for last, and the one that the client
/// acknowledged last.
#[derive(Clone, Copy, PartialEq, Eq)]
pub struct ServerMode {
    asked: Mode,
    current: Mode,
}

impl Model for ServerMode {
    ghost use Rattle.tn_linemode.specs.Modes.{Modes};

    ghost Value = { Modes };

    ghost view = { λ m. record { asked = m.asked; current = m.current } };

    ghost inverse = { λ m. record { asked = m.asked; current = m.current } };
}

impl ServerMode {
    /// Makes the mode with which a server begins: nothing asked, and no editing at the client.
    pub fn new() -> Self
        ensures { result ≡ no_mode }
    {
        ServerMode {
            asked: Mode::none(),
            current: Mode::none(),
        }
    }

    /// Asks for a mask, and returns it to be sent, unless it is the one that was asked for last.
    /// The mask has no effect on `current` until the client acknowledges it (RFC 1184, section
    /// 2.2).
    pub fn wish(&mut self, mask: u8) -> Option<u8>
        ensures mode { self.new ≡ modes_after_wish self.old mask }
        ensures sent { result ≡ mask_sent self.old mask }
    {
        let mode = Mode::of(mask);
        if mode == self.asked {
            return None;
        }
        self.asked = mode;
        Some(mode.mask())
    }

    /// Takes a mask from the client. A mask with MODE_ACK acknowledges, and is in force from then
    /// on; for one without, the client's request is returned: editing (`true`) or none (`false`).
    pub fn got(&mut self, mask: u8) -> Option<bool>
        ensures mode { self.new ≡ modes_after_mode self.old mask }
        ensures wish { result ≡ wish_of_mask mask }
    {
        if is_acknowledged(mask) {
            self.current = Mode::of(mask);
            return None;
        }
        Some(edits(mask))
    }

    /// Returns the mode that was asked for last.
    pub fn asked(&self) -> Mode
        ensures { result ≡ self.now.asked }
    {
        self.asked
    }

    /// Returns the mode that the client acknowledged last.
    pub fn current(&self) -> Mode
        ensures { result ≡ self.now.current }
    {
        self.current
    }

    /// Resets both modes, since LINEMODE went off.
    pub fn reset(&mut self)
        ensures { self.new ≡ no_mode }
    {
        *self = ServerMode::new();
    }
}
