//! The ways in which a server end opens.

ghost use Rattle.std.specs.Prelude.{◌≡◌, ◌++◌, OnOk, OnErr};
ghost use Rattle.tn_nvt.specs.Spelling.{spells};
ghost use Rattle.tn_server.specs.{Replies.opening, Terms.edits_unasked};

use crate::wishes::Editing;
use std::alloc::AllocError;
use tn_codes::IAC;
use tn_option::{ECHO, LINEMODE, NAWS, SUPPRESS_GO_AHEAD};

/// Two of the verbs that the opening messages use (RFC 854).
const WILL: u8 = 251;

const DO: u8 = 253;

/// The opening messages for keys: DO LINEMODE, DO NAWS, WILL and DO SUPPRESS-GO-AHEAD, WILL ECHO.
const FOR_KEYS: [u8; 15] = [
    IAC,
    DO,
    LINEMODE,
    IAC,
    DO,
    NAWS,
    IAC,
    WILL,
    SUPPRESS_GO_AHEAD,
    IAC,
    DO,
    SUPPRESS_GO_AHEAD,
    IAC,
    WILL,
    ECHO,
];

/// The opening messages for lines: DO LINEMODE, DO NAWS.
const FOR_LINES: [u8; 6] = [IAC, DO, LINEMODE, IAC, DO, NAWS];

/// What a server end asks of a client without LINEMODE (RFC 1184).
#[derive(Clone, Copy, PartialEq, Eq)]
pub enum Opening {
    /// The client sends each key; the server edits and echoes.
    Keys,
    /// The client edits and echoes its lines itself, and sends them whole.
    Lines,
}

/// How a server approaches a client: how its end opens, and the side that it asks to edit.
#[derive(Clone, Copy)]
pub struct Approach {
    pub opening: Opening,
    pub editing: Editing,
}

impl Approach {
    /// Makes the approach that opens for keys, and asks this side to edit.
    pub fn for_keys(editing: Editing) -> Approach
        ensures opening { result.opening ≡ Opening.Keys }
        ensures editing { result.editing ≡ editing }
    {
        Approach {
            opening: Opening::Keys,
            editing,
        }
    }
}

impl Opening {
    /// Appends the opening messages.
    pub(crate) fn put(self, out: &mut Vec<u8>) -> Result<(), AllocError>
        ensures ok { OnOk result (out.new.items ≡ out.old.items ++ spells (opening self)) }
        ensures err { OnErr result (out.new.items ≡ out.old.items) }
    {
        match self {
            Opening::Keys => out.extend_from_slice(&FOR_KEYS),
            Opening::Lines => out.extend_from_slice(&FOR_LINES),
        }
    }

    /// Returns whether a client without LINEMODE edits its lines.
    pub(crate) fn edits_unasked(self) -> bool
        ensures { result ≡ edits_unasked self }
    {
        match self {
            Opening::Keys => false,
            Opening::Lines => true,
        }
    }
}
