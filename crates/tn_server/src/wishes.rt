//! The request for a side that edits lines.

ghost use Rattle.std.specs.Prelude.{◌≡◌};
ghost use Rattle.tn_server.specs.Terms.{mask_for};

use tn_discipline::Flags;
use tn_linemode::{EDIT, TRAPSIG};

/// The side that is to edit the lines of a session.
#[derive(Clone, Copy, Debug, PartialEq, Eq)]
pub enum Editing {
    /// The server edits, key by key.
    Remote,
    /// The client edits, and sends whole lines (RFC 1184, EDIT).
    Local,
}

impl Editing {
    /// Returns the mask that asks a client for this; `None` if the terminal's flags rule it out.
    pub(crate) fn mask(self, flags: &Flags) -> Option<u8>
        ensures { result ≡ mask_for flags.now self }
    {
        match self {
            Editing::Remote => Some(0),
            Editing::Local if flags.icrnl && !flags.inlcr && !flags.igncr => {
                Some(if flags.isig { EDIT | TRAPSIG } else { EDIT })
            },
            Editing::Local => None,
        }
    }
}
