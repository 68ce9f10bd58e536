//! The numbers of the standards that stand in no table, each once for all crates. `laws` proves
//! that each is the one that its standard gives.

/// The byte IAC, which begins a command, and is doubled to stand for itself (RFC 854).
pub const IAC: u8 = 255;

/// The option ECHO (RFC 857): the end that sends WILL echoes what it gets.
pub const ECHO: u8 = 1;

/// The option SUPPRESS-GO-AHEAD (RFC 858): the end that sends WILL leaves out GA.
pub const SUPPRESS_GO_AHEAD: u8 = 3;

/// The option NAWS (RFC 1073): the client sends the size of its window.
pub const NAWS: u8 = 31;

/// The option LINEMODE (RFC 1184): the client edits lines.
pub const LINEMODE: u8 = 34;

/// The kinds of LINEMODE subnegotiation (RFC 1184, section 2).
pub const MODE: u8 = 1;

pub const FORWARDMASK: u8 = 2;

pub const SLC: u8 = 3;

/// A bit of the mask of MODE (RFC 1184, section 2.2): the client edits lines and sends them whole.
pub const EDIT: u8 = 1;

/// A bit of the mask of MODE (RFC 1184, section 2.2): the client sends its signal characters as
/// commands.
pub const TRAPSIG: u8 = 2;

/// A bit of the mask of MODE (RFC 1184, section 2.2): the mask repeats one that the other end
/// proposed.
pub const MODE_ACK: u8 = 4;

/// The two low bits of a triple's modifier, which are a level (RFC 1184, section 2.4: SLC_LEVELBITS).
pub const LEVEL_BITS: u8 = 3;

/// The bit of a modifier that acknowledges a triple of the other end (SLC_ACK).
pub const ACK: u8 = 128;
