//! The terms of a client end: what it has agreed on with its server.

use tn_discipline::Chars;

/// The side that edits lines, the characters by which it does, the side that echoes, and how much
/// of a line waits at the client.
#[derive(Clone, Copy, PartialEq, Eq)]
pub struct Terms {
    /// LINEMODE is on (RFC 1184).
    pub linemode: bool,
    /// Lines are edited at this end (RFC 1184, section 2.2, EDIT).
    pub edits: bool,
    /// A special character that is a signal goes as its command (RFC 1184, section 2.2, TRAPSIG).
    pub traps: bool,
    /// The server has set a forward mask (RFC 1184, section 2.3).
    pub forwards: bool,
    /// The special characters in force (RFC 1184, section 2.4).
    pub chars: Chars,
    /// The server echoes (RFC 857).
    pub echoed: bool,
    /// The server suppresses GO AHEAD (RFC 858).
    pub suppressed: bool,
    /// The number of bytes of the half-typed line that the client holds.
    pub held: usize,
}
