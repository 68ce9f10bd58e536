//! The mode of LINEMODE at the client.

ghost use Rattle.std.specs.Prelude.{◌≡◌};
ghost use Rattle.tn_linemode.specs.Modes.{client_mask_after, mode_answer};

use crate::masks::{Mode, is_acknowledged};
use std::marker::Model;
use tn_codes::MODE_ACK;

/// The client's side of MODE: the mode in force.
#[derive(Clone, Copy, PartialEq, Eq)]
pub struct ClientMode {
    current: Mode,
}

impl Model for ClientMode {
    ghost use Rattle.std.specs.Prelude.{ℕ};

    ghost Value = { ℕ };

    ghost view = { λ m. m.current };

    ghost inverse = { λ mask. record { current = mask } };
}

impl ClientMode {
    /// Makes the mode with which a client begins: no editing, and no signals as commands.
    pub fn new() -> Self
        ensures { result ≡ 0 }
    {
        ClientMode {
            current: Mode::none(),
        }
    }

    /// Takes a mask from the server, and returns the mask to send back if the mode changed: it has
    /// MODE_ACK, and so acknowledges the server's. A mask that has MODE_ACK itself changes nothing
    /// (RFC 1184, section 2.2).
    pub fn got(&mut self, mask: u8) -> Option<u8>
        ensures mode { self.new ≡ client_mask_after self.old mask }
        ensures answer { result ≡ mode_answer self.old mask }
    {
        let mode = Mode::of(mask);
        if is_acknowledged(mask) || mode == self.current {
            return None;
        }
        self.current = mode;
        Some(mode.mask() | MODE_ACK)
    }

    /// Returns the mode in force.
    pub fn current(&self) -> Mode
        ensures { result ≡ self.now }
    {
        self.current
    }

    /// Resets the mode, since LINEMODE went off.
    pub fn reset(&mut self)
        ensures { self.new ≡ 0 }
    {
        self.current = Mode::none();
    }
}
