//! The lines that are held at the client until they end.

/// The lines that are edited at the client before its session gets them.
#[derive(Clone, Copy, PartialEq, Eq)]
pub(crate) enum Holding {
    /// None: each key goes at once.
    Nothing,
    /// Those of line mode: the other end takes whole lines, without LINEMODE.
    LineMode,
    /// Those that LINEMODE has edited at this end (RFC 1184, section 2.2, EDIT).
    Edit,
}
